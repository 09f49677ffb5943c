ghost use Rattle.std.specs.Prelude.{◌≡◌, ℕ, List, Ok, []};
ghost use Rattle.do_rewoven.specs.Read.{AreRead};
ghost use Rattle.do_machine.specs.declared.state.{Seat.Seat, State.State};
ghost use Rattle.do_record.specs.declared.parts.Record.{Record};
ghost use Rattle.do_sched.specs.{Schedule.IsSchedule, Spelling.spelling, declared.line.Line.Line};
ghost use Rattle.do_sched.specs.declared.version.Version.TheVariants.{Second};
ghost use Rattle.do_weave.specs.{Laws.GivesAgain, Rules.Rules, Weaving.woven};

/// Where records were read one behind another, the text of what is woven of them is a schedule of
/// these very lines: each of its lines is good, and all have at most 1,000,000 steps.
pub fn woven_schedules_are_read()
    ensures { (R : Rules) (S : State) (seats : List Seat) (files : List (List ℕ))
        (records : List Record) (lines : List Line) → AreRead seats [] files records →
        woven R S records ≡ Ok lines → IsSchedule (spelling Second lines) lines }
{}

/// The transcript of this schedule gives each of the records again.
///
/// The blocks at a record's node, a loss and the take behind it read as one end, are those of the
/// record, or begin with what the last block of a record says that is not whole.
pub fn read_records_are_given_again()
    ensures { (R : Rules) (S : State) (seats : List Seat) (files : List (List ℕ))
        (records : List Record) (lines : List Line) → AreRead seats [] files records →
        woven R S records ≡ Ok lines → GivesAgain R S records lines }
{}
