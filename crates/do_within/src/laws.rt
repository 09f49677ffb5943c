//! Laws of bounded schedules, each carried by a function that does nothing else.
ghost use Rattle.std.specs.Prelude.{List, length, ◌*◌, ◌<◌, ◌≤◌, ◌^◌};
ghost use Rattle.std.specs.List.{AllByRecursion, flat_map};
ghost use Rattle.do_base.specs.declared.events.event.Event.{Event};
ghost use Rattle.do_class.specs.Class.{Class};
ghost use Rattle.do_script.specs.Listing.{Listing};
ghost use Rattle.do_behave.specs.Script.{script};
ghost use Rattle.do_sched.specs.{Good.IsLine, Schedule.most_steps, Spelling.steps_of};
ghost use Rattle.do_sched.specs.declared.line.Line.{Line};
ghost use Rattle.do_lines.specs.Transcript.{transcript};
ghost use Rattle.do_machine.specs.{declared.state.Seat.Seat, World.{IsWorld, opening}};
ghost use Rattle.do_machine.specs.{check.Blocks.{blocks, events_of}, run.Run.Acting};
ghost use Rattle.do_limits.specs.SendableActs.{AllStartSendable, KeepsSendable};
ghost use Rattle.do_limits.specs.SendableCodes.{CodesAreSendable};
ghost use Rattle.do_network.specs.{Net.net_opening, Wired.{net_blocks, wired}};
ghost use Rattle.do_agreement.specs.Along.{ComesToTheSame, EventsSendSpelled, LinesSendSpelled};
ghost use Rattle.do_agreement.specs.HasWires.{HasWires};
ghost use Rattle.do_within.specs.Numbers.{AllNumbersSmall, NetNumbersWithin};
ghost use Rattle.do_within.specs.Received.{ReceivedWithin, net_reached};

/// After so many events no node has received an object more often than 65,536 times for each event.
/// So the amount of each release over fewer than 2^46 events is below 2^63.
///
/// Premises are that the world is one, that acts of the behaviour and values of starts are within
/// the limits, and that there are fewer than 2^46 events.
pub fn amounts_are_bounded()
    ensures { (table : List Class) (act : Acting) (seats : List Seat) (events : List Event) →
        IsWorld table seats → KeepsSendable table act → AllStartSendable events →
        length events < 2 ^ 46 →
        ReceivedWithin (length events) (net_reached table act seats events) }
{}

/// After so many events each node of a network has made as many calls at most, 4,096 objects for
/// each event beside its root, and 65,536 lends for each event. So over fewer than 2^46 events the
/// numbers of its calls, objects and lends are below 2^62.
///
/// Premises are those of `amounts_are_bounded`.
pub fn numbers_of_networks_are_bounded()
    ensures bounded { (table : List Class) (act : Acting) (seats : List Seat)
        (events : List Event) → IsWorld table seats → KeepsSendable table act →
        AllStartSendable events → length events < 2 ^ 46 →
        NetNumbersWithin (length events) (net_reached table act seats events) }
    ensures small { (table : List Class) (act : Acting) (seats : List Seat)
        (events : List Event) → IsWorld table seats → KeepsSendable table act →
        AllStartSendable events → length events < 2 ^ 46 →
        AllNumbersSmall (net_reached table act seats events) }
{}

/// Over each schedule of fewer than 2^46 events, each frame that a network of sites sends has a
/// spelling that its peer reads.
///
/// Premises are those of `amounts_are_bounded`.
pub fn frames_have_spellings()
    ensures events { (table : List Class) (act : Acting) (seats : List Seat)
        (events : List Event) → IsWorld table seats → KeepsSendable table act →
        AllStartSendable events → length events < 2 ^ 46 →
        EventsSendSpelled table act (net_opening table seats) events }
    ensures lines { (table : List Class) (act : Acting) (seats : List Seat)
        (lines : List Line) → IsWorld table seats → KeepsSendable table act →
        AllByRecursion IsLine lines → length (flat_map events_of lines) < 2 ^ 46 →
        LinesSendSpelled table act (net_opening table seats) lines }
{}

/// A schedule that may stand in a file has fewer events. So each frame that a network of sites sends
/// in its lines has a spelling that its peer reads.
///
/// Premises are that the world is one, that acts of the behaviour are within the limits, and that
/// the lines have at most a million single steps.
pub fn frames_of_schedules_have_spellings()
    ensures few { (lines : List Line) → steps_of lines ≤ most_steps →
        length (flat_map events_of lines) < 2 ^ 46 }
    ensures spelled { (table : List Class) (act : Acting) (seats : List Seat)
        (lines : List Line) → IsWorld table seats → KeepsSendable table act →
        AllByRecursion IsLine lines → steps_of lines ≤ most_steps →
        LinesSendSpelled table act (net_opening table seats) lines }
{}

/// Over each schedule of fewer than 2^46 events, each event comes to the same in a network of sites
/// and in one machine. What is written of the network is the machine's transcript, with lines `wire
/// ..` put between its lines.
///
/// Premises are those of `amounts_are_bounded`.
pub fn networks_are_one_machine()
    ensures events { (table : List Class) (act : Acting) (seats : List Seat)
        (events : List Event) → IsWorld table seats → KeepsSendable table act →
        AllStartSendable events → length events < 2 ^ 46 →
        ComesToTheSame table act (net_opening table seats) (opening table seats) events }
    ensures text { (table : List Class) (act : Acting) (seats : List Seat) (lines : List Line) →
        IsWorld table seats → KeepsSendable table act → AllByRecursion IsLine lines →
        length (flat_map events_of lines) < 2 ^ 46 →
        HasWires (transcript table (blocks table act (opening table seats) lines))
        (wired table (net_blocks table act (net_opening table seats) lines)) }
{}

/// So it is of a world whose methods are scripts, where each method's code is valid and has only
/// numbers and texts that a message can carry. Nothing is asked of its acts.
pub fn scripted_networks_are_one_machine()
    ensures { (codes : List (List Listing)) → CodesAreSendable codes → (table : List Class)
        (seats : List Seat) (lines : List Line) → IsWorld table seats →
        AllByRecursion IsLine lines → length (flat_map events_of lines) < 2 ^ 46 →
        HasWires (transcript table (blocks table (script codes) (opening table seats) lines))
        (wired table (net_blocks table (script codes) (net_opening table seats) lines)) }
{}
