//! Laws of one node among any peers, each carried by a function that does nothing else.
ghost use Rattle.std.specs.{List.AllByRecursion, Prelude.{All, List, ℕ, ◌<◌, ◌^◌}};
ghost use Rattle.do_class.specs.{Class.Class, Table.IsTable};
ghost use Rattle.do_machine.specs.{World.{HasSignatures, IsSeat}, declared.state.Seat.Seat};
ghost use Rattle.do_machine.specs.run.Run.{Acting};
ghost use Rattle.do_network.specs.{declared.input.Input.Input, Net.opening_part, Site.site_step};
ghost use Rattle.do_limits.specs.Numbers.{HasSmallNumbers, NumbersWithin};
ghost use Rattle.do_limits.specs.SendableActs.{KeepsSendable};
ghost use Rattle.do_bounds.specs.Bounds.{IsWithin, MayCome, SendsWithin, makers, site_after};

/// Whatever its peers send, each value of a slot, a local or an answer of a node can be carried by
/// a message. Each object has the slots of its class, and each invocation its sixteen locals. The
/// classes that the node keeps of foreign objects are of the table.
///
/// Premises are that the classes are a table, that the acts of the behaviour are within the limits,
/// and that the values of starts are. A frame may have any bytes, and comes from any port.
pub fn nodes_stay_within_limits()
    ensures { (table : List Class) (act : Acting) (ports : List ℕ) (seat : Seat)
        (inputs : List Input) → IsTable table → All HasSignatures table → IsSeat table seat →
        KeepsSendable table act → AllByRecursion MayCome inputs →
        IsWithin table seat.node
        (site_after table act (opening_part table ports seat) inputs).own }
{}

/// By its runs and the frames that it takes a node makes one call at most each, 4,096 objects and
/// 65,536 lends. So over fewer than 2^46 of them the numbers of its calls, objects and lends are
/// below 2^62. No other input raises them.
///
/// Premises are those of `nodes_stay_within_limits`.
pub fn numbers_of_nodes_are_bounded()
    ensures bounded { (table : List Class) (act : Acting) (ports : List ℕ) (seat : Seat)
        (inputs : List Input) → IsTable table → All HasSignatures table → IsSeat table seat →
        KeepsSendable table act → AllByRecursion MayCome inputs →
        NumbersWithin (makers inputs)
        (site_after table act (opening_part table ports seat) inputs).own.node }
    ensures small { (table : List Class) (act : Acting) (ports : List ℕ) (seat : Seat)
        (inputs : List Input) → IsTable table → All HasSignatures table → IsSeat table seat →
        KeepsSendable table act → AllByRecursion MayCome inputs → makers inputs < 2 ^ 46 →
        HasSmallNumbers (site_after table act (opening_part table ports seat) inputs).own.node }
{}

/// Whatever its peers send, each frame that a node sends for an input is of an item that keeps the
/// limits of messages. A message has at most 4,096 copies and 65,536 names, its places are there
/// and its values can be spelled. It takes no more bytes than the heaviest message may.
///
/// Premises are those of `nodes_stay_within_limits`.
pub fn frames_of_nodes_stay_within_limits()
    ensures { (table : List Class) (act : Acting) (ports : List ℕ) (seat : Seat)
        (inputs : List Input) (input : Input) → IsTable table → All HasSignatures table →
        IsSeat table seat → KeepsSendable table act → AllByRecursion MayCome inputs →
        MayCome input → AllByRecursion (SendsWithin table seat.node)
        (site_step table act (site_after table act (opening_part table ports seat) inputs)
        input).sent }
{}
