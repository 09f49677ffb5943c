ghost use Rattle.std.specs.{Prelude.{All, List, ℕ, ◌<◌, ◌^◌}, List.AllByRecursion};
ghost use Rattle.do_class.specs.{Class.Class, Table.IsTable};
ghost use Rattle.do_machine.specs.{World.{HasSignatures, IsSeat}, declared.state.Seat.Seat};
ghost use Rattle.do_machine.specs.run.Run.{Acting};
ghost use Rattle.do_at_hand.specs.AtHand.{ShowsNames};
ghost use Rattle.do_limits.specs.SendableActs.{KeepsSendable};
ghost use Rattle.do_network.specs.{declared.input.Input.Input, Net.opening_part};
ghost use Rattle.do_bounds.specs.Bounds.{makers};
ghost use Rattle.do_showable.specs.Shows.{AllMayStand, MayCome};

/// Whatever its peers send, each line that a node shows may stand in a record. Each object has a
/// port and a serial from 1 to 2^63 - 1, and texts and lists are within the limits of messages.
///
/// Premises are that the classes are a table, that the acts of the behaviour are within the limits
/// and name only what they were shown, that starts may stand in a schedule, and that frames are of
/// bytes. There are to be fewer than 2^46 runs and frames.
pub fn lines_of_nodes_may_stand()
    ensures { (table : List Class) (act : Acting) (ports : List ℕ) (seat : Seat)
        (inputs : List Input) → IsTable table → All HasSignatures table → IsSeat table seat →
        KeepsSendable table act → ShowsNames table act → AllByRecursion (MayCome seat.node) inputs →
        makers inputs < 2 ^ 46 →
        AllMayStand table act (opening_part table ports seat) inputs }
{}
