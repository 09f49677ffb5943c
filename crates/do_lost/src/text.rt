//! How the stored objects that nothing can reach any more are written.
ghost use Rattle.std.specs.Prelude.{◌≡◌, ◌++◌, ◌<◌, [], ◌∷◌, IfOk, OnOk, codes, map};
ghost use Rattle.std.specs.Option.{option_copied};
ghost use Rattle.do_machine.specs.{State.{class_given, class_of}, check.Snapshot.snapshot};
ghost use Rattle.do_lines.specs.Lines.{joined};
ghost use Rattle.do_leaks.specs.Leaks.{leaks};
ghost use Rattle.do_lost.specs.Text.{class_behind, leak_line, leak_told, lost_text, quiet_line};
ghost use Rattle.do_lost.specs.Text.{slot_behind};

use crate::state::{named, quiet};
use do_base::{Oid, Text};
use do_class::{ClassId, ClassTable};
use do_leaks::{Leak, LeakList, leaks};
use do_machine::{Classes, Snapshot, State};
use do_rules::station;
use do_sched::push_object;
use std::alloc::{AllocError, Global};

/// The class that was given with a serial.
fn class_given(classes: &Classes, serial: u64) -> Option<ClassId>
    ensures { result ≡ class_given classes.now serial }
{
    if serial == 0 {
        return None;
    }
    classes.get(serial as usize - 1)
}

/// The class of an object.
fn class_of(state: &State, object: &Oid) -> Option<ClassId>
    ensures { result ≡ class_of state.now object.now }
{
    match station(state, object.node) {
        Some(station) => class_given(&station.classes, object.serial),
        None => None,
    }
}

/// Adds the name of a class behind a space. A class that is not of the table adds nothing.
fn push_class(out: &mut Text, table: &ClassTable, class: Option<ClassId>) -> Result<(), AllocError>
    ensures { OnOk result (out.new ≡ out.old ++ class_behind table.now class) }
{
    let Some(class) = class else {
        return Ok(());
    };
    if class.0 >= table.count() {
        return Ok(());
    }
    out.push(b' ')?;
    out.push_bytes(table.name(class).as_slice())
}

/// Adds the name of a slot behind a space. One that a class of the table does not have adds
/// nothing.
fn push_slot(
    out: &mut Text,
    table: &ClassTable,
    class: Option<ClassId>,
    slot: u64,
) -> Result<(), AllocError>
    ensures { OnOk result (out.new ≡ out.old ++ slot_behind table.now class slot) }
{
    let Some(class) = class else {
        return Ok(());
    };
    if class.0 >= table.count() {
        return Ok(());
    }
    let Some(slot) = table.slots(class).get(slot as usize) else {
        return Ok(());
    };
    out.push(b' ')?;
    out.push_bytes(slot.name.as_slice())
}

/// Adds the line of one object that nothing can reach, with its class and that of its holder.
///
/// If memory runs out, a part of it may have been added.
pub fn push_leak(
    out: &mut Text,
    table: &ClassTable,
    leak: &Leak,
    class: Option<ClassId>,
    holder: Option<ClassId>,
) -> Result<(), AllocError>
    ensures { OnOk result
        (out.new ≡ out.old ++ leak_told table.now leak.now class holder ++ 10 ∷ []) }
{
    out.push_bytes(b"leak ")?;
    push_object(out, &leak.oid)?;
    push_class(out, table, class)?;
    out.push_bytes(b" by ")?;
    push_object(out, &leak.holder)?;
    push_slot(out, table, holder, leak.slot)?;
    out.push(b'\n')
}

/// Adds a line for each object that nothing can reach.
fn push_leaks(
    out: &mut Text,
    table: &ClassTable,
    state: &State,
    list: &LeakList,
) -> Result<(), AllocError>
    ensures { OnOk result
        (out.new ≡ out.old ++ joined (map (leak_line table.now (class_of state.now)) list.now)) }
{
    for leak in list.as_slice() {
        let class = class_of(state, &leak.oid);
        let holder = class_of(state, &leak.holder);
        push_leak(out, table, leak, class, holder)?;
    }
    Ok(())
}

/// What stands before the objects that nothing can reach: `leaks 1`, and whether nothing is under
/// way.
pub fn leaks_head(alloc: Global, still: bool) -> Result<Text, AllocError>
    ensures { IfOk result (λ text.
        text ≡ joined (codes "leaks 1" ∷ quiet_line still ∷ [])) }
{
    if still {
        Text::from_slice(alloc, b"leaks 1\nquiet 1\n")
    } else {
        Text::from_slice(alloc, b"leaks 1\nquiet 0\n")
    }
}

/// The stored objects of a state that nothing can reach any more, as a text: `leaks 1`, whether
/// all queues are empty, a line for each object with its class and the first slot that names it,
/// and `end`.
///
/// `listed` is what a check lists of the state. The one error is that memory ran out.
pub fn lost_text(
    alloc: Global,
    table: &ClassTable,
    state: &State,
    listed: &Snapshot,
) -> Result<Text, AllocError>
    requires { listed.now ≡ snapshot state.now }
    ensures { IfOk result (λ text. text ≡ lost_text table.now state.now) }
{
    let names = named(alloc, state)?;
    let list = leaks(listed, &names)?;
    let mut text = leaks_head(alloc, quiet(state))?;
    push_leaks(&mut text, table, state, &list)?;
    text.push_bytes(b"end\n")?;
    Ok(text)
}
