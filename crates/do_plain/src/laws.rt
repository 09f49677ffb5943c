//! Laws of what a machine writes, each carried by a function that does nothing else.
ghost use Rattle.std.specs.{Prelude.{◌≡◌, List, Some, ℕ}, List.AllByRecursion};
ghost use Rattle.do_class.specs.{Class.Class, Table.IsTable};
ghost use Rattle.do_lines.specs.Transcript.{transcript};
ghost use Rattle.do_machine.specs.{declared.state.Seat.Seat, World.opening, check.Blocks.blocks};
ghost use Rattle.do_machine.specs.run.Run.{Acting};
ghost use Rattle.do_sched.specs.{Good.IsLine, declared.line.Line.Line};
ghost use Rattle.do_agreement.specs.WithoutWires.{without_wires};
ghost use Rattle.do_world.specs.{Builtin.builtin_world, Reading.IsWorldText};
ghost use Rattle.do_world.specs.declared.world.World.{World};
ghost use Rattle.do_plain.specs.Named.{AreNamed};

/// No line of a transcript of the one machine begins with `wire `, over every schedule and whatever
/// its objects do. So all of it is left where such lines are dropped.
///
/// Premises are that classes and slots have names, and that each line may stand in a schedule.
pub fn machines_write_plain_lines()
    ensures { (table : List Class) → IsTable table → AreNamed table → (act : Acting)
        (seats : List Seat) (lines : List Line) → AllByRecursion IsLine lines →
        without_wires (transcript table (blocks table act (opening table seats) lines))
        ≡ transcript table (blocks table act (opening table seats) lines) }
{}

/// The classes of each world that a text says have names, and so have their slots. It is the same
/// of the built-in worlds.
pub fn worlds_have_names()
    ensures text { (bytes : List ℕ) (world : World) → IsWorldText bytes world →
        AreNamed world.table }
    ensures builtin { (word : List ℕ) (world : World) → builtin_world word ≡ Some world →
        AreNamed world.table }
{}
