ghost use Rattle.std.specs.Prelude.{◌≡◌, ◌++◌, [], ◌∷◌, OnOk, IfOk, map};
ghost use Rattle.do_class.specs.Table.{name_of, slots_of};
ghost use Rattle.do_sched.specs.Value.{spaced};
ghost use Rattle.do_lines.specs.Lines.{joined};
ghost use Rattle.do_lines.specs.Check.{slot_words, class_words, object_text, closed_line};
ghost use Rattle.do_lines.specs.Check.{entry_line, root_word, root_line, node_text, check_lines};

use do_base::{Oid, Peers, Text, Value, Values};
use do_class::{ClassId, ClassTable, Slot};
use do_grammar::push_dec;
use do_sched::{push_object, push_value};
use do_trace::{Entry, EntryList, NodeLine, ObjLine, ObjLines, Snapshot};
use std::alloc::{AllocError, Global};

/// Adds the slots of an object with their values, with a space before each.
fn push_slots(out: &mut Text, slots: &[Slot], values: &[Value]) -> Result<(), AllocError>
    ensures { OnOk result (out.new ≡ out.old ++ spaced (slot_words slots.now values.now)) }
{
    let [slot, slots @ ..] = slots else {
        return Ok(());
    };
    let [value, values @ ..] = values else {
        return Ok(());
    };
    out.push(b' ')?;
    out.push_bytes(slot.name.as_slice())?;
    out.push(b'=')?;
    push_value(out, value)?;
    push_slots(out, slots, values)
}

/// Adds the name of a class and its slots with their values. A class that is not of the table adds
/// nothing.
fn push_class(
    out: &mut Text,
    table: &ClassTable,
    class: ClassId,
    values: &Values,
) -> Result<(), AllocError>
    ensures { OnOk result (out.new ≡ out.old ++ class_words (name_of table.now class)
        (slots_of table.now class) values.now) }
{
    if class.0 >= table.count() {
        return Ok(());
    }
    out.push(b' ')?;
    out.push_bytes(table.name(class).as_slice())?;
    push_slots(out, table.slots(class).as_slice(), values.as_slice())
}

/// Adds the lines of stored objects.
fn push_objects(out: &mut Text, table: &ClassTable, objects: &ObjLines) -> Result<(), AllocError>
    ensures { OnOk result (out.new ≡ out.old ++ joined (map (object_text table.now) objects.now)) }
{
    for object in objects.as_slice() {
        out.push_bytes(b"object ")?;
        push_object(out, &object.oid)?;
        push_class(out, table, object.class, &object.slots)?;
        out.push(b'\n')?;
    }
    Ok(())
}

/// Adds the lines of the peers towards which a node's end is closed.
fn push_closed(out: &mut Text, closed: &Peers) -> Result<(), AllocError>
    ensures { OnOk result (out.new ≡ out.old ++ joined (map closed_line closed.now)) }
{
    for peer in closed.as_slice() {
        out.push_bytes(b"closed ")?;
        push_dec(out, u64::from(peer.port()))?;
        out.push(b'\n')?;
    }
    Ok(())
}

/// Adds the lines of entries.
fn push_entries(out: &mut Text, entries: &EntryList) -> Result<(), AllocError>
    ensures { OnOk result (out.new ≡ out.old ++ joined (map entry_line entries.now)) }
{
    for entry in entries.as_slice() {
        out.push_bytes(b"entry ")?;
        push_dec(out, u64::from(entry.peer.port()))?;
        out.push(b' ')?;
        push_object(out, &entry.object)?;
        out.push(b'\n')?;
    }
    Ok(())
}

/// Adds a root's name, or `nil`.
fn push_root(out: &mut Text, root: &Option<Oid>) -> Result<(), AllocError>
    ensures { OnOk result (out.new ≡ out.old ++ root_word root.now) }
{
    match root {
        Some(object) => push_object(out, object),
        None => out.push_bytes(b"nil"),
    }
}

/// Adds the lines of one node.
fn push_node(out: &mut Text, table: &ClassTable, node: &NodeLine) -> Result<(), AllocError>
    ensures { OnOk result (out.new ≡ out.old ++ node_text table.now node.now) }
{
    out.push_bytes(b"node ")?;
    push_dec(out, u64::from(node.node.port()))?;
    out.push_bytes(b" root ")?;
    push_root(out, &node.root)?;
    out.push(b'\n')?;
    push_closed(out, &node.closed)?;
    push_objects(out, table, &node.objects)?;
    push_entries(out, &node.entries)
}

/// Adds the lines that a check shows: each node with its root, its closed ends, its stored objects
/// with their slots, and the entries that its peers have of them.
///
/// The classes are of the table; an object of another class is shown without one. If memory
/// runs out, a part of the lines may have been added. The form is this project's own.
pub fn push_check(out: &mut Text, table: &ClassTable, snapshot: &Snapshot) -> Result<(), AllocError>
    ensures { OnOk result (out.new ≡ out.old ++ check_lines table.now snapshot.now) }
{
    for node in snapshot.nodes.as_slice() {
        push_node(out, table, node)?;
    }
    Ok(())
}

/// The lines that a check shows.
pub fn check_text(
    alloc: Global,
    table: &ClassTable,
    snapshot: &Snapshot,
) -> Result<Text, AllocError>
    ensures { IfOk result (λ text. text ≡ check_lines table.now snapshot.now) }
{
    let mut text = Text::new(alloc);
    push_check(&mut text, table, snapshot)?;
    Ok(text)
}
