ghost use Rattle.std.specs.{Prelude.{◌≡◌, List, true}, List.AllByRecursion};
ghost use Rattle.do_base.specs.declared.events.event.Event.{Event};
ghost use Rattle.do_class.specs.Class.{Class};
ghost use Rattle.do_machine.specs.{declared.state.Seat.Seat, run.Run.Acting};
ghost use Rattle.do_facts.specs.Reached.{reached};
ghost use Rattle.do_lost.specs.Named.{quiet};
ghost use Rattle.do_quiet.specs.Quiet.{AllEndsOpen, IsNoBreak};
ghost use Rattle.do_cycles.specs.{Settled.IsSettled, Told.TellsEachLost};

/// In every state that a machine comes to, the search tells each stored object that nothing can
/// reach, and the object whose slot still names it is told too.
///
/// So behind each object that is told stands a cycle of slots, within a node or over several.
pub fn each_lost_object_is_told()
    ensures { (table : List Class) (act : Acting) (seats : List Seat) (events : List Event) →
        TellsEachLost (reached table act seats events) }
{}

/// Where nothing is on its way, and all ends are open, no node lends or asks for anything, and the
/// search starts at roots and invocations alone. What is stored is held up by these and by slots,
/// on whichever node.
///
/// All ends are open as long as nothing was closed and nothing lost.
pub fn quiet_states_are_settled()
    ensures open { (table : List Class) (act : Acting) (seats : List Seat) (events : List Event) →
        AllEndsOpen (reached table act seats events) →
        quiet (reached table act seats events) ≡ true →
        IsSettled (reached table act seats events) }
    ensures unbroken { (table : List Class) (act : Acting) (seats : List Seat)
        (events : List Event) → AllByRecursion IsNoBreak events →
        quiet (reached table act seats events) ≡ true →
        IsSettled (reached table act seats events) }
{}
