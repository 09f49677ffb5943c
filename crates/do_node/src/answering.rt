//! What each command comes to.
ghost use Rattle.std.specs.Prelude.{◌≡◌, ◌≤◌};
ghost use Rattle.do_cli.specs.Forms.{records_in};
ghost use Rattle.do_node.specs.{Answering.answer_of, Call.Comes, OneMachine.AddsAsOne};
ghost use Rattle.do_node.specs.{Orders.AnswersAltered, Within.RanWithin};
ghost use Rattle.do_node.specs.Running.{Links, Spawns, link_seen, spawner_seen};

use crate::commands::{
    leaks_given, replay_given, write_help, write_made, write_upgraded, write_version, write_woven,
};
use do_base::{Shelf, Sink};
use do_cli::Command;
use do_given::Status;
use do_lab::Spawner;
use do_link::Link;
use do_native::Native;
use do_net::{Hosted, Runnable};
use do_served::{lab_given, serve_given};
use do_traced::Traced;
use std::alloc::Global;

/// The status of a command that writes a text.
fn answer_of(told: Result<(), Status>) -> Status
    ensures { result ≡ answer_of told }
{
    match told {
        Ok(()) => Status::Ok,
        Err(status) => status,
    }
}

/// Does what a command asks, and writes what it asks for.
pub(crate) fn obey<
    S: Runnable + Traced + Hosted<Acts = Native>,
    H: Shelf,
    K: Sink,
    L: Link,
    P: Spawner,
>(
    alloc: Global,
    command: Command,
    shelf: &mut H,
    out: &mut K,
    link: &mut L,
    spawn: &mut P,
) -> Status
    requires { records_in command ≤ 64 }
    ensures comes { Comes (H.files shelf.old) command
        (record { before = H.faults shelf.old; now = H.faults shelf.new })
        (K.written out.old) (K.written out.new)
        (record { before = K.faults out.old; now = K.faults out.new }) result }
    ensures one_machine { AddsAsOne (H.files shelf.old) (K.written out.old) (K.written out.new)
        (result ≡ Status.Ok) command }
    ensures altered { AnswersAltered (H.files shelf.old) result command }
    ensures within { RanWithin (H.files shelf.old) (K.written out.old) (K.written out.new) result
        command }
    ensures links { Links (H.files shelf.old)
        (record { before = H.faults shelf.old; now = H.faults shelf.new })
        (link_seen L.told L.faults K.written K.faults link.old out.old)
        (link_seen L.told L.faults K.written K.faults link.new out.new) result command }
    ensures spawns { Spawns (H.files shelf.old)
        (record { before = H.faults shelf.old; now = H.faults shelf.new })
        (spawner_seen P.told P.faults K.written K.faults spawn.old out.old)
        (spawner_seen P.told P.faults K.written K.faults spawn.new out.new) result command }
    ensures same { H.files shelf.new ≡ H.files shelf.old }
    ensures shelf_faults { H.faults shelf.old ≤ H.faults shelf.new }
    ensures sink_faults { K.faults out.old ≤ K.faults out.new }
{
    match command {
        Command::Replay { world, schedule } => {
            answer_of(replay_given::<S, H, K>(alloc, &world, &schedule, shelf, out))
        }
        Command::Leaks { world, schedule } => {
            answer_of(leaks_given::<S, H, K>(alloc, &world, &schedule, shelf, out))
        }
        Command::Weave { world, files } => {
            answer_of(write_woven::<S, H, K>(alloc, &world, &files, shelf, out))
        }
        Command::Upgrade { schedule } => answer_of(write_upgraded(alloc, &schedule, shelf, out)),
        Command::Make { number, count } => {
            answer_of(write_made::<S, K>(alloc, number, count, out))
        }
        Command::Node {
            port,
            world,
            starts,
            turns,
        } => { serve_given::<S, H, K, L>(alloc, port, &world, &starts, turns, shelf, out, link) }
        Command::Lab { plan } => lab_given(alloc, &plan, shelf, out, spawn),
        Command::Help => answer_of(write_help(alloc, out)),
        Command::Version => answer_of(write_version(alloc, out)),
    }
}
