ghost use Rattle.std.specs.Prelude.{[], ◌≡◌, ℕ, Bool, List, false};
ghost use Rattle.do_base.specs.declared.events.event.Event.{Event};
ghost use Rattle.do_class.specs.Class.{Class};
ghost use Rattle.do_machine.specs.{declared.{node.Node.Node, state.State.State}, Step.step};
ghost use Rattle.do_machine.specs.{held.Kept.{AreKept, kept}, run.Run.Acting};

/// What a node keeps is the greatest part of its heap that holds itself up.
pub fn kept_is_greatest()
    ensures { (entry : ℕ → ℕ → Bool) (n : Node) → AreKept entry n (kept entry n) }
{}

/// An event that is not enabled changes nothing, and shows nothing.
pub fn skipped_is_nothing()
    ensures state { (table : List Class) (act : Acting) (S : State) (event : Event) →
        (step table act S event).outcome.enabled ≡ false → (step table act S event).state ≡ S }
    ensures shown { (table : List Class) (act : Acting) (S : State) (event : Event) →
        (step table act S event).outcome.enabled ≡ false →
        (step table act S event).outcome.shown ≡ [] }
{}
