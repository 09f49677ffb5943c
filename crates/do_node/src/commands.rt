//! The commands that write a text: what each reads, and what it writes.
ghost use Rattle.std.specs.Prelude.{◌≡◌, ◌≤◌, ◌⊎◌, OnOk, IfErr, IsOk, length};
ghost use Rattle.do_base.specs.outside.{Bytes.{with_more, HasWritten}, Causes.Rose};
ghost use Rattle.do_cli.specs.declared.command.Command.TheVariants.{Replay, Leaks, Weave, Upgrade};
ghost use Rattle.do_cli.specs.Help.{help_text, version_text};
ghost use Rattle.do_node.specs.{Answering.answer_of, Call.Obeys};
ghost use Rattle.do_node.specs.Within.{IsBounded, RanWithin, WhereRan};
ghost use Rattle.do_given.specs.Reading.{Stops};
ghost use Rattle.do_generate.specs.Generated.{generated};
ghost use Rattle.do_world.specs.{Mesh.mesh_world, Sound.IsSound};
ghost use Rattle.do_agreement.specs.HasWires.{HasWires};
ghost use Rattle.do_replay.specs.Replayed.{WritesWithWires};
ghost use Rattle.do_node.specs.{OneMachine.{AddsAsOne, ComesAsOne}, Orders.TellsAltered};
ghost use Rattle.do_node.specs.Replaying.{made_text, world_lost, world_summary, world_transcript};
ghost use Rattle.do_node.specs.Replaying.{world_wired};

use crate::leaking::world_lost;
use crate::making::summary_text;
use crate::replaying::replay;
use crate::weaving::woven_given;
use do_base::{Shelf, Sink, Text, Word, write_all};
use do_cli::{Words, push_help, push_version};
use do_generate::generate;
use do_given::{Scheduled, Status, scheduled_given, upgrade_given};
use do_native::Native;
use do_net::Hosted;
use do_sched::Lines;
use do_traced::Traced;
use do_world::{World, mesh};
use std::alloc::Global;

/// Writes the transcript of a schedule over the network of a world.
fn write_replay<S: Hosted<Acts = Native>, K: Sink>(
    alloc: Global,
    given: Scheduled,
    out: &mut K,
) -> Result<(), Status>
    requires { IsSound given.world }
    ensures ok { OnOk result
        (K.written out.new ≡ with_more (K.written out.old) (world_wired given.world given.lines)) }
    ensures prefix { HasWritten (K.written out.old) (K.written out.new)
        (world_wired given.world given.lines) }
    ensures one_machine { OnOk result (HasWires (world_transcript given.world given.lines)
        (world_wired given.world given.lines)) }
    ensures one_machine_first { WritesWithWires (K.written out.old) (K.written out.new)
        (world_transcript given.world given.lines) }
    ensures stopped { IfErr result
        (Stops ⊥ (Rose (K.faults out.old) (K.faults out.new)) (λ _. ⊥)) }
    ensures later { K.faults out.old ≤ K.faults out.new }
{
    let Scheduled { world, lines } = given;
    replay::<S, K>(alloc, world, lines, out)?;
    Ok(())
}

/// Writes a text.
fn write_text<K: Sink>(text: &Text, out: &mut K) -> Result<(), Status>
    ensures ok { OnOk result (K.written out.new ≡ with_more (K.written out.old) text.now) }
    ensures prefix { HasWritten (K.written out.old) (K.written out.new) text.now }
    ensures stopped { IfErr result
        (Stops ⊥ (Rose (K.faults out.old) (K.faults out.new)) (λ _. ⊥)) }
    ensures later { K.faults out.old ≤ K.faults out.new }
{
    write_all(out, text.as_slice())?;
    Ok(())
}

/// Replays the schedule that the second word gives over the world that the first gives.
pub(crate) fn replay_given<S: Hosted<Acts = Native>, H: Shelf, K: Sink>(
    alloc: Global,
    world: &Word,
    schedule: &Word,
    shelf: &mut H,
    out: &mut K,
) -> Result<(), Status>
    ensures obeys { Obeys (H.files shelf.old) (Replay world.now schedule.now)
        (record { before = H.faults shelf.old; now = H.faults shelf.new })
        (K.written out.old) (K.written out.new)
        (record { before = K.faults out.old; now = K.faults out.new }) result }
    ensures one_machine { AddsAsOne (H.files shelf.old) (K.written out.old) (K.written out.new)
        (IsOk result) (Replay world.now schedule.now) }
    ensures within { RanWithin (H.files shelf.old) (K.written out.old) (K.written out.new)
        (answer_of result) (Replay world.now schedule.now) }
    ensures same { H.files shelf.new ≡ H.files shelf.old }
    ensures shelf_faults { H.faults shelf.old ≤ H.faults shelf.new }
    ensures sink_faults { K.faults out.old ≤ K.faults out.new }
{
    match scheduled_given(alloc, world, schedule, shelf) {
        Ok(given) => write_replay::<S, K>(alloc, given, out),
        Err(status) => Err(status),
    }
}

/// Writes what nothing can reach after a schedule over the network of a world.
fn write_leaks<S: Traced + Hosted<Acts = Native>, K: Sink>(
    alloc: Global,
    given: Scheduled,
    out: &mut K,
) -> Result<(), Status>
    requires { IsSound given.world }
    ensures ok { OnOk result
        (K.written out.new ≡ with_more (K.written out.old) (world_lost given.world given.lines)) }
    ensures prefix { HasWritten (K.written out.old) (K.written out.new)
        (world_lost given.world given.lines) }
    ensures stopped { IfErr result
        (Stops ⊥ (Rose (K.faults out.old) (K.faults out.new)) (λ _. ⊥)) }
    ensures later { K.faults out.old ≤ K.faults out.new }
{
    let Scheduled { world, lines } = given;
    let text = world_lost::<S>(alloc, world, lines)?;
    write_text(&text, out)
}

/// Replays the schedule that the second word gives over the world that the first gives, and writes
/// what nothing can reach then.
pub(crate) fn leaks_given<S: Traced + Hosted<Acts = Native>, H: Shelf, K: Sink>(
    alloc: Global,
    world: &Word,
    schedule: &Word,
    shelf: &mut H,
    out: &mut K,
) -> Result<(), Status>
    ensures obeys { Obeys (H.files shelf.old) (Leaks world.now schedule.now)
        (record { before = H.faults shelf.old; now = H.faults shelf.new })
        (K.written out.old) (K.written out.new)
        (record { before = K.faults out.old; now = K.faults out.new }) result }
    ensures within { RanWithin (H.files shelf.old) (K.written out.old) (K.written out.new)
        (answer_of result) (Leaks world.now schedule.now) }
    ensures same { H.files shelf.new ≡ H.files shelf.old }
    ensures shelf_faults { H.faults shelf.old ≤ H.faults shelf.new }
    ensures sink_faults { K.faults out.old ≤ K.faults out.new }
{
    match scheduled_given(alloc, world, schedule, shelf) {
        Ok(given) => write_leaks::<S, K>(alloc, given, out),
        Err(status) => Err(status),
    }
}

/// Writes the schedule that the records in files are woven to over the network of the world that a
/// word gives.
pub(crate) fn write_woven<S: Hosted<Acts = Native>, H: Shelf, K: Sink>(
    alloc: Global,
    world: &Word,
    files: &Words,
    shelf: &mut H,
    out: &mut K,
) -> Result<(), Status>
    requires { length files.now ≤ 64 }
    ensures obeys { Obeys (H.files shelf.old) (Weave world.now files.now)
        (record { before = H.faults shelf.old; now = H.faults shelf.new })
        (K.written out.old) (K.written out.new)
        (record { before = K.faults out.old; now = K.faults out.new }) result }
    ensures altered { IfErr result (TellsAltered (H.files shelf.old) world.now files.now) }
    ensures within { RanWithin (H.files shelf.old) (K.written out.old) (K.written out.new)
        (answer_of result) (Weave world.now files.now) }
    ensures same { H.files shelf.new ≡ H.files shelf.old }
    ensures shelf_faults { H.faults shelf.old ≤ H.faults shelf.new }
    ensures sink_faults { K.faults out.old ≤ K.faults out.new }
{
    match woven_given::<S, H>(alloc, world, files, shelf) {
        Ok(text) => write_text(&text, out),
        Err(status) => Err(status),
    }
}

/// Writes the schedule of the first version that a word gives anew in the second.
pub(crate) fn write_upgraded<H: Shelf, K: Sink>(
    alloc: Global,
    schedule: &Word,
    shelf: &mut H,
    out: &mut K,
) -> Result<(), Status>
    ensures obeys { Obeys (H.files shelf.old) (Upgrade schedule.now)
        (record { before = H.faults shelf.old; now = H.faults shelf.new })
        (K.written out.old) (K.written out.new)
        (record { before = K.faults out.old; now = K.faults out.new }) result }
    ensures same { H.files shelf.new ≡ H.files shelf.old }
    ensures shelf_faults { H.faults shelf.old ≤ H.faults shelf.new }
    ensures sink_faults { K.faults out.old ≤ K.faults out.new }
{
    match upgrade_given(alloc, schedule, shelf) {
        Ok(text) => write_text(&text, out),
        Err(status) => Err(status),
    }
}

/// Writes the summary of a schedule over the network of a world.
fn write_summary<S: Hosted<Acts = Native>, K: Sink>(
    alloc: Global,
    world: World,
    lines: Lines,
    out: &mut K,
) -> Result<(), Status>
    requires { IsSound world }
    ensures ok { OnOk result
        (K.written out.new ≡ with_more (K.written out.old) (world_summary world lines)) }
    ensures prefix { HasWritten (K.written out.old) (K.written out.new)
        (world_summary world lines) }
    ensures one_machine { OnOk result (ComesAsOne world lines) }
    ensures one_machine_first { (K.written out.new ≡ K.written out.old) ⊎ ComesAsOne world lines }
    ensures stopped { IfErr result
        (Stops ⊥ (Rose (K.faults out.old) (K.faults out.new)) (λ _. ⊥)) }
    ensures later { K.faults out.old ≤ K.faults out.new }
{
    let text = summary_text::<S>(alloc, world, lines)?;
    write_text(&text, out)
}

/// Replays the schedule that a number generates over the network of `:mesh`, and writes its
/// summary.
pub(crate) fn write_made<S: Hosted<Acts = Native>, K: Sink>(
    alloc: Global,
    number: u64,
    count: u64,
    out: &mut K,
) -> Result<(), Status>
    ensures ok { OnOk result
        (K.written out.new ≡ with_more (K.written out.old) (made_text number count)) }
    ensures prefix { HasWritten (K.written out.old) (K.written out.new) (made_text number count) }
    ensures one_machine { OnOk result (ComesAsOne mesh_world (generated count number)) }
    ensures one_machine_first { (K.written out.new ≡ K.written out.old)
        ⊎ ComesAsOne mesh_world (generated count number) }
    ensures within { WhereRan (IsBounded mesh_world) (K.written out.new ≡ K.written out.old)
        (answer_of result) }
    ensures stopped { IfErr result
        (Stops ⊥ (Rose (K.faults out.old) (K.faults out.new)) (λ _. ⊥)) }
    ensures later { K.faults out.old ≤ K.faults out.new }
{
    let world = mesh(alloc)?;
    let lines = generate(alloc, number, count)?;
    write_summary::<S, K>(alloc, world, lines, out)
}

/// Writes the text of `--help`.
pub(crate) fn write_help<K: Sink>(alloc: Global, out: &mut K) -> Result<(), Status>
    ensures ok { OnOk result (K.written out.new ≡ with_more (K.written out.old) help_text) }
    ensures prefix { HasWritten (K.written out.old) (K.written out.new) help_text }
    ensures stopped { IfErr result (Stops ⊥ (Rose (K.faults out.old) (K.faults out.new)) (λ _. ⊥)) }
    ensures later { K.faults out.old ≤ K.faults out.new }
{
    let mut text = Text::new(alloc);
    push_help(&mut text)?;
    write_text(&text, out)
}

/// Writes the text of `--version`.
pub(crate) fn write_version<K: Sink>(alloc: Global, out: &mut K) -> Result<(), Status>
    ensures ok { OnOk result (K.written out.new ≡ with_more (K.written out.old) version_text) }
    ensures prefix { HasWritten (K.written out.old) (K.written out.new) version_text }
    ensures stopped { IfErr result (Stops ⊥ (Rose (K.faults out.old) (K.faults out.new)) (λ _. ⊥)) }
    ensures later { K.faults out.old ≤ K.faults out.new }
{
    let mut text = Text::new(alloc);
    push_version(&mut text)?;
    write_text(&text, out)
}
