ghost use Rattle.do_cli.specs.declared.command.Command as commands;
ghost use Rattle.do_given.specs.declared.status.Status as declared;
ghost use Rattle.do_given.specs.declared.status.Status.TheVariants as statuses;
ghost use Rattle.std.specs.Prelude.{◌≡◌, ◌≤◌, ◌<◌, ◌↔◌, ◌⊎◌, ℕ, List, None, Some, IfSome};
ghost use Rattle.std.specs.Option.{IsSomeAnd};
ghost use Rattle.do_base.specs.outside.{Bytes.{with_more, HasWritten}, Causes.Rose};
ghost use Rattle.do_base.specs.declared.outside.shelf.NamedFile.{NamedFile};
ghost use Rattle.do_cli.specs.Forms.{command_in, stuck_at};
ghost use Rattle.do_cli.specs.declared.command.Command.TheVariants.{Leaks, Upgrade, Weave};
ghost use Rattle.do_node.specs.Call.{CanWrite, HasUnread, IsRefusal, Refuses, Writes, WritesAll};
ghost use Rattle.do_node.specs.{Call.{WritesNothing, WritesSome}, OneMachine.AddsAsOne};
ghost use Rattle.do_node.specs.{Leaking.TellsLost, Orders.{AnswersAltered, HaveNoOrder, HaveOrder}};
ghost use Rattle.do_node.specs.Rewoven.{GivesBack};
ghost use Rattle.do_node.specs.Running.{EndsWith, IsRunEnd, Links, Spawns, link_seen, spawner_seen};
ghost use Rattle.do_node.specs.{Upgrading.IsReplayedAlike, Within.RanWithin};

use crate::answering::obey;
use do_base::{Shelf, Sink, Word};
use do_cli::{WordFault, read_words};
use do_given::Status;
use do_lab::Spawner;
use do_link::Link;
use do_native::Native;
use do_site::Site;
use std::alloc::Global;

/// Does what the words of the command line ask, and writes what they ask for.
///
/// `replay WORLD SCHEDULE` writes the transcript of that schedule over the network of that world,
/// each line followed by what was sent in it, `leaks WORLD SCHEDULE` which stored objects nothing
/// can reach after it, each with the first slot of a stored object that names it, `weave WORLD
/// RECORD..` one schedule in which the nodes of that world do what their records say, `upgrade
/// SCHEDULE` a schedule of the first version anew in the second, `make NUMBER COUNT` the summary of
/// a schedule that a number generates, over the network of `:mesh`, `--help` and `--version` a
/// text. What these make of a network is what the one machine of the definitions comes to: `replay`
/// its transcript with whole lines `wire ..` put between its lines, `make` the summary of its
/// lines, `leaks` what nothing can reach in its state, and `weave` a schedule by which it does what
/// the records say. `node PORT WORLD STARTS TURNS` serves the node of that port over the link, for
/// at most so many turns, and writes its record; `lab PLAN` starts the nodes of a plan as children,
/// waits for each, and writes how each ended. No other form asks anything of the link or of the
/// spawner.
///
/// Words of no form are refused first; then a file that cannot be read, that is longer than
/// 4,194,304 bytes for a world, 67,108,864 for a schedule, 16,777,216 for a record and 1,048,576
/// for starts and plans, or that says none; the world before the schedule, the starts or the
/// records, and each record in turn. A world without the node of a port is refused as wrong at
/// `node`. `LinkFault` says that the link did not listen, `TurnsSpent` that all turns of a node
/// were taken and none used the line `end` of its starts, `ChildFailed` which child of a plan was
/// the first that did not end with 0; the last two come with the whole text. A record is refused
/// too where its node is not of the world or has an earlier record, or where the records so far
/// have more than 1,000,000 steps. Records that contradict come last. Nothing is written before. If
/// the sink fails or memory runs out, what was written is the beginning of the text. The forms are
/// this project's own.
pub fn run<H: Shelf, K: Sink, L: Link, P: Spawner>(
    alloc: Global,
    words: &[Word],
    shelf: &mut H,
    out: &mut K,
    link: &mut L,
    spawn: &mut P,
) -> Status
    ensures usage { (word : ℕ) → (result ≡ Status.Usage word)
        ↔ ((command_in words.now ≡ None) × (word ≡ stuck_at words.now)) }

    // Why a command comes to nothing, both ways where the shelf tells its files.
    ensures unread { result ≡ Status.ReadFault → IsSomeAnd (command_in words.now)
        (HasUnread (H.files shelf.old) (H.faults shelf.old) (H.faults shelf.new)) }
    ensures refused { IsRefusal result → IsSomeAnd (command_in words.now)
        (λ command. Refuses (H.files shelf.old) command result) }
    ensures refuses { (files : List NamedFile) (command : commands.Command)
        (status : declared.Status)
        → H.files shelf.old ≡ Some files → command_in words.now ≡ Some command
        → Refuses (Some files) command status
        → (result ≡ status) ⊎ (result ≡ Status.ReadFault) ⊎ (result ≡ Status.Memory) }
    ensures write_fault { result ≡ Status.WriteFault → Rose (K.faults out.old) (K.faults out.new) }
    ensures read_before { result ≡ Status.WriteFault
        → IsSomeAnd (command_in words.now) (CanWrite (H.files shelf.old)) }

    // What serving a node and running a plan come to, and which ends each has.
    ensures links { IfSome (command_in words.now) (Links (H.files shelf.old)
        (record { before = H.faults shelf.old; now = H.faults shelf.new })
        (link_seen L.told L.faults K.written K.faults link.old out.old)
        (link_seen L.told L.faults K.written K.faults link.new out.new) result) }
    ensures spawns { IfSome (command_in words.now) (Spawns (H.files shelf.old)
        (record { before = H.faults shelf.old; now = H.faults shelf.new })
        (spawner_seen P.told P.faults K.written K.faults spawn.old out.old)
        (spawner_seen P.told P.faults K.written K.faults spawn.new out.new) result) }
    ensures ends { IsRunEnd result → IsSomeAnd (command_in words.now) (EndsWith result) }

    // What is written at each answer, and that a good command is answered by its text.
    ensures whole { result ≡ Status.Ok → IsSomeAnd (command_in words.now)
        (λ command. WritesAll (H.files shelf.old) command (K.written out.old) (K.written out.new)) }
    ensures prefix { (K.written out.new ≡ K.written out.old) ⊎ IsSomeAnd (command_in words.now)
        (λ command. WritesSome (H.files shelf.old) command (K.written out.old)
        (K.written out.new)) }
    ensures nothing { WritesNothing result → K.written out.new ≡ K.written out.old }
    ensures complete { (files : List NamedFile) (command : commands.Command) (text : List ℕ)
        → H.files shelf.old ≡ Some files → command_in words.now ≡ Some command
        → Writes (Some files) command text
        → ¬ Rose (H.faults shelf.old) (H.faults shelf.new)
        → ¬ Rose (K.faults out.old) (K.faults out.new)
        → EndsWith result command ⊎ (result ≡ Status.Memory) }

    // That what `replay` and `make` write of a network is what one local machine comes to: its
    // transcript with lines `wire ..` put between its lines, and the summary of its lines.
    ensures one_machine { IfSome (command_in words.now) (AddsAsOne (H.files shelf.old)
        (K.written out.old) (K.written out.new) (result ≡ Status.Ok)) }

    // That what `upgrade` writes is replayed as the rules of the first version say.
    ensures upgraded { (schedule text : List ℕ)
        → Writes (H.files shelf.old) (Upgrade schedule) text
        → IsReplayedAlike (H.files shelf.old) schedule text }

    // That `leaks` leaves nothing out, and where it looks once nothing is on its way.
    ensures leaks { (world schedule text : List ℕ)
        → Writes (H.files shelf.old) (Leaks world schedule) text
        → TellsLost (H.files shelf.old) world schedule text }

    // That what `weave` writes is read again, and gives each of the records.
    ensures rewoven { (world : List ℕ) (records : List (List ℕ)) (text : List ℕ)
        → Writes (H.files shelf.old) (Weave world records) text
        → GivesBack (H.files shelf.old) world records text }

    // That `weave` finds an order of the records' inputs, and a contradiction exactly where none
    // does what the records say. Where it answers so, they are not those of nodes that exchanged
    // their bytes unchanged. Where it answers that a file is no record, not all files up to that
    // one are what nodes of the world wrote that served, each of another, with steps few enough.
    ensures ordered { (world : List ℕ) (records : List (List ℕ)) (text : List ℕ)
        → Writes (H.files shelf.old) (Weave world records) text
        → HaveOrder (H.files shelf.old) world records }
    ensures unordered { (world : List ℕ) (records : List (List ℕ)) (index line : ℕ)
        → Refuses (H.files shelf.old) (Weave world records) (statuses.Contradiction index line)
        → HaveNoOrder (H.files shelf.old) world records }
    ensures altered { IfSome (command_in words.now) (AnswersAltered (H.files shelf.old) result) }

    // That no frame of a schedule that ran lacks a spelling, and that no number of a node passes
    // what a frame can hold: so none of these is why memory ran out.
    ensures within { IfSome (command_in words.now) (RanWithin (H.files shelf.old)
        (K.written out.old) (K.written out.new) result) }

    ensures same { H.files shelf.new ≡ H.files shelf.old }
    ensures shelf_faults { H.faults shelf.old ≤ H.faults shelf.new }
    ensures sink_faults { K.faults out.old ≤ K.faults out.new }
{
    let command = match read_words(words) {
        Ok(command) => command,
        Err(WordFault::Usage(word)) => return Status::Usage(word),
        Err(WordFault::Memory) => return Status::Memory,
    };
    obey::<Site<Native>, H, K, L, P>(alloc, command, shelf, out, link, spawn)
}
