ghost use Rattle.std.specs.Prelude.{◌≡◌, ◌==◌, ℕ, List, Some, false};
ghost use Rattle.do_base.specs.{names.Names.ObjectName, declared.events.event.Event.Event};
ghost use Rattle.do_class.specs.Class.{Class};
ghost use Rattle.do_machine.specs.declared.{node.Node.Node, state.{Effect.Effect, Seat.Seat}};
ghost use Rattle.do_machine.specs.{declared.state.State.State, Commit.commit, Entry.has_entry};
ghost use Rattle.do_machine.specs.{State.{is_open, node}, Step.step, World.opening};
ghost use Rattle.do_facts.specs.laws.{Entries.{HasQueues, IsNoStepOf}, Follows.AllHoldOpen};
ghost use Rattle.do_machine.specs.run.Run.{Acting};

/// A peer towards which a node's end is closed has no entry of its objects.
pub fn no_entry_over_a_closed_end()
    ensures { (S : State) (peer : ℕ) (o : ObjectName) (home : Node) →
        node S o.node ≡ Some home → is_open home peer ≡ false → has_entry S peer o ≡ false }
{}

/// Whether a peer has an entry of a node's object is changed by these two nodes alone.
pub fn entries_of_others_stay()
    ensures { (port peer : ℕ) (o : ObjectName) (e : Effect) (S : State) →
        (o.node == port) ≡ false → (peer == port) ≡ false →
        has_entry (commit port e S) peer o ≡ has_entry S peer o }
{}

/// The entries that peers have of a node's objects change by the node's own steps alone, in every
/// state that a world comes to.
pub fn entries_change_by_own_steps()
    ensures entries { (table : List Class) (act : Acting) (S : State) (event : Event) (peer : ℕ)
        (o : ObjectName) → AllHoldOpen S → HasQueues S → IsNoStepOf o.node event →
        has_entry (step table act S event).state peer o ≡ has_entry S peer o }
    ensures opening { (table : List Class) (seats : List Seat) → HasQueues (opening table seats) }
    ensures steps { (table : List Class) (act : Acting) (S : State) (event : Event) →
        HasQueues S → HasQueues (step table act S event).state }
{}
