ghost use Rattle.std.specs.{Prelude.{◌≡◌, List}, List.AllByRecursion};
ghost use Rattle.do_base.specs.declared.events.event.Event.{Event};
ghost use Rattle.do_class.specs.Class.{Class};
ghost use Rattle.do_sched.specs.{Good.IsLineOf, declared.line.Line.Line};
ghost use Rattle.do_sched.specs.declared.version.Version.TheVariants.{First};
ghost use Rattle.do_machine.specs.{declared.state.{Seat.Seat, State.State}, Step.step};
ghost use Rattle.do_machine.specs.{World.opening, check.Blocks.blocks};
ghost use Rattle.do_facts.specs.laws.{Follows.IsNoTimeOut, first.Blocks.blocks_1};
ghost use Rattle.do_facts.specs.laws.first.Step.{AllOnTime, step_1};
ghost use Rattle.do_machine.specs.run.Run.{Acting};

/// Over the lines of a schedule of version 1, the machine does what the rules of version 1 give.
///
/// A machine opens with no call given up, and without a time-out none is. There each event does
/// what it does by those rules.
pub fn first_schedules_as_in_version_1()
    ensures opening { (table : List Class) (seats : List Seat) → AllOnTime (opening table seats) }
    ensures stays { (table : List Class) (act : Acting) (S : State) (event : Event) →
        IsNoTimeOut event → AllOnTime S → AllOnTime (step table act S event).state }
    ensures steps { (table : List Class) (act : Acting) (S : State) (event : Event) →
        IsNoTimeOut event → AllOnTime S → step table act S event ≡ step_1 table act S event }
    ensures blocks { (table : List Class) (act : Acting) (seats : List Seat) (lines : List Line) →
        AllByRecursion (IsLineOf First) lines →
        blocks table act (opening table seats) lines
        ≡ blocks_1 table act (opening table seats) lines }
{}
