ghost use Rattle.std.specs.Prelude.{◌≡◌, ℕ, Bool, true};
ghost use Rattle.do_base.specs.names.Names.{ObjectName};
ghost use Rattle.do_packet.specs.Met.{has_object};
ghost use Rattle.do_machine.specs.{declared.node.Node.Node, State.holds, held.Leaving.leaving};
ghost use Rattle.do_machine.specs.held.Refers.{node_objects};

/// Once a node left what it does without, it holds no object that it does not refer to.
pub fn held_is_referred_to()
    ensures { (entry : ℕ → ℕ → Bool) (n : Node) (o : ObjectName) →
        holds (leaving entry n).node o ≡ true →
        has_object (node_objects (leaving entry n).node) o ≡ true }
{}
