ghost use Rattle.std.specs.{Prelude.List, List.{AllByRecursion, flat_map}};
ghost use Rattle.do_base.specs.declared.events.event.Event.{Event};
ghost use Rattle.do_class.specs.Class.{Class};
ghost use Rattle.do_machine.specs.{declared.state.Seat.Seat, run.Run.Acting};
ghost use Rattle.do_machine.specs.check.Blocks.{events_of};
ghost use Rattle.do_sched.specs.{Good.IsLine, declared.line.Line.Line};
ghost use Rattle.do_facts.specs.Reached.{reached};
ghost use Rattle.do_quiet.specs.Quiet.{AllEndsOpen};
ghost use Rattle.do_at_hand.specs.AtHand.{AllAtHand, NamedAreStored, ShowsNames, StartsPlain};

/// As long as all ends are open, each object that a slot or an invocation names is at hand at its
/// node: an own object is stored, and a foreign one is held or asked for. So each is stored at its
/// home.
///
/// Premises are that the acts of the behaviour name only what they were shown, and that starts give
/// no objects.
pub fn named_objects_are_stored()
    ensures hand { (table : List Class) (act : Acting) (seats : List Seat)
        (events : List Event) → ShowsNames table act → AllByRecursion StartsPlain events →
        AllEndsOpen (reached table act seats events) →
        AllAtHand (reached table act seats events) }
    ensures stored { (table : List Class) (act : Acting) (seats : List Seat)
        (events : List Event) → ShowsNames table act → AllByRecursion StartsPlain events →
        AllEndsOpen (reached table act seats events) →
        NamedAreStored (reached table act seats events) }
{}

/// The starts of lines that may stand in a schedule give no objects.
pub fn starts_of_schedules_are_plain()
    ensures { (lines : List Line) → AllByRecursion IsLine lines →
        AllByRecursion StartsPlain (flat_map events_of lines) }
{}
