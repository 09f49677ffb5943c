//! Laws of limits, each carried by a function that does nothing else.
ghost use Rattle.std.specs.Prelude.{List, Some, length, ℕ, ◌<◌, ◌^◌, ◌≡◌};
ghost use Rattle.std.specs.List.{All, AllByRecursion, flat_map};
ghost use Rattle.do_base.specs.declared.events.event.Event.{Event};
ghost use Rattle.do_class.specs.{Class.Class, Table.IsTable};
ghost use Rattle.do_coder.specs.Packets.{surroundings};
ghost use Rattle.do_machine.specs.declared.{item.Item.Item, state.{Seat.Seat, State.State}};
ghost use Rattle.do_machine.specs.State.{queue};
ghost use Rattle.do_script.specs.Listing.{Listing};
ghost use Rattle.do_behave.specs.Script.{script};
ghost use Rattle.do_sched.specs.{Good.IsLine, declared.line.Line.Line};
ghost use Rattle.do_limits.specs.SendableCodes.{CodesAreSendable};
ghost use Rattle.do_machine.specs.{Step.step, check.Blocks.events_of};
ghost use Rattle.do_machine.specs.{World.{HasSignatures, IsWorld, opening}, run.Run.Acting};
ghost use Rattle.do_facts.specs.Reached.{reached};
ghost use Rattle.do_limits.specs.Numbers.{AllNumbersWithin};
ghost use Rattle.do_limits.specs.SendableActs.{AllStartSendable, KeepsSendable, StartsSendable};
ghost use Rattle.do_limits.specs.{SendableStates.StateIsSendable, Spelled.ItemIsSpelled};

/// In every state that a machine comes to, each value of a slot, a local or an answer can be
/// carried by a message. Each object has the slots of its class, each invocation has its sixteen
/// locals, and each message on its way is within the limits. Its places are there, its selector is
/// one, its names are of classes of the table, and its values can be spelled. Serials are from 1
/// on.
///
/// Premises are that the world is one, and that the values of each start are such. The acts of the
/// behaviour are to keep this of the values that they see, where an invocation has its sixteen
/// locals, and to make objects of the table's classes.
pub fn values_of_states_can_be_sent()
    ensures opening { (table : List Class) (seats : List Seat) → IsWorld table seats →
        StateIsSendable table (opening table seats) }
    ensures steps { (table : List Class) (act : Acting) (S : State) (event : Event) →
        IsTable table → All HasSignatures table → KeepsSendable table act →
        StartsSendable event → StateIsSendable table S →
        StateIsSendable table (step table act S event).state }
    ensures schedules { (table : List Class) (act : Acting) (seats : List Seat)
        (events : List Event) → IsWorld table seats → KeepsSendable table act →
        AllStartSendable events →
        StateIsSendable table (reached table act seats events) }
{}

/// After so many events each node has made as many calls at most, 4,096 objects for each event
/// beside its root, and 65,536 lends for each event. So the numbers of calls, objects and lends are
/// below 2^63 over each schedule of fewer than 2^46 events.
///
/// Premises are those of `values_of_states_can_be_sent`.
pub fn numbers_of_states_are_bounded()
    ensures { (table : List Class) (act : Acting) (seats : List Seat) (events : List Event) →
        IsWorld table seats → KeepsSendable table act → AllStartSendable events →
        AllNumbersWithin (length events) (reached table act seats events) }
{}

/// In every state that a machine comes to by fewer than 2^46 events, the frame of each item on its
/// way has a spelling that its reader reads by these classes. A release has one for each amount
/// from 1 to 2^63 - 1.
///
/// Premises are those of `values_of_states_can_be_sent`.
pub fn items_have_spellings()
    ensures { (table : List Class) (act : Acting) (seats : List Seat) (events : List Event) →
        IsWorld table seats → KeepsSendable table act → AllStartSendable events →
        length events < 2 ^ 46 →
        (from to : ℕ) (waiting : List Item) →
        queue (reached table act seats events) from to ≡ Some waiting →
        All (ItemIsSpelled (surroundings table from to)) waiting }
{}

/// Scripts keep this of the values that they see, where each method's code is valid and has only
/// such numbers and texts.
pub fn scripts_keep_values_sendable()
    ensures { (codes : List (List Listing)) → CodesAreSendable codes → (table : List Class) →
        KeepsSendable table (script codes) }
{}

/// The values that the starts of a schedule give can be carried by a message: each line that may
/// stand in a schedule gives only such values.
pub fn starts_of_schedules_can_be_sent()
    ensures { (lines : List Line) → AllByRecursion IsLine lines →
        AllStartSendable (flat_map events_of lines) }
{}
