//! The one machine of the definitions, and whether a network comes to what it does.

use crate::outside::Outside;
use crate::transcripts::without_wires;
use do_base::{CallList, MemSink, Text};
use do_given::{Scheduled, scheduled_given};
use do_local::Local;
use do_lost::lost_text;
use do_native::Native;
use do_sched::Lines;
use do_transcript::write_transcript;
use do_world::World;
use std::alloc::{AllocError, Global};
use std::test::Fail;

/// What nothing can reach in a machine.
fn lost_in(alloc: Global, machine: &Local<Native>) -> Result<Text, AllocError> {
    let listed = machine.snapshot()?;
    lost_text(alloc, machine.table(), machine.state(), &listed)
}

/// Writes the transcript of a machine over lines, and then what nothing can reach in it.
fn play(machine: &mut Local<Native>, lines: Lines, shown: &mut MemSink) -> Result<Text, Fail> {
    let alloc = lines.allocator();
    match write_transcript(alloc, machine, lines, shown) {
        Ok(()) => Ok(lost_in(alloc, machine)?),
        Err(_) => Err(Fail::from("not written")),
    }
}

/// Writes what the machine of a world shows over a schedule, and tells what nothing can reach then.
fn played(given: Scheduled, shown: &mut MemSink) -> Result<Text, Fail> {
    let Scheduled { world, lines } = given;
    let World {
        table,
        kinds,
        rules,
        program,
        nodes,
    } = world;
    let mut machine = Local::new(table, &nodes, Native::new(kinds, program, rules))?;
    play(&mut machine, lines, shown)
}

/// Writes what the machine of a world shows over the schedule in the file `s`, and tells what
/// nothing can reach then.
fn machine_played(outside: &mut Outside, world: &Text, shown: &mut MemSink) -> Result<Text, Fail> {
    let alloc = world.allocator();
    let schedule = Text::from_slice(alloc, b"s")?;
    match scheduled_given(alloc, world, &schedule, outside.shelf()) {
        Ok(given) => played(given, shown),
        Err(_) => Err(Fail::from("not given")),
    }
}

/// Whether the network of a world shows this over the schedule in the file `s`, without what is
/// sent, and tells this as lost.
fn comes_to(outside: &mut Outside, world: &Text, shown: &Text, lost: &Text) -> Result<bool, Fail> {
    outside.run_form(b"leaks", world)?;
    if !outside.written().is(lost.as_slice()) {
        return Ok(false);
    }
    outside.run_form(b"replay", world)?;
    Ok(without_wires(outside.written())?.is(shown.as_slice()))
}

/// Whether the network of a world shows over the schedule in the file `s` what the machine shows,
/// without what is sent, and tells as lost what nothing can reach in the machine.
pub(crate) fn is_alike(outside: &mut Outside, world: &Text) -> Result<bool, Fail> {
    let alloc = world.allocator();
    let mut shown = MemSink::new(alloc, CallList::new(alloc))?;
    let lost = machine_played(outside, world, &mut shown)?;
    comes_to(outside, world, shown.bytes(), &lost)
}
