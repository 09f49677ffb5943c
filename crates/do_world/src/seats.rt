//! The nodes of a world.
ghost use Rattle.std.specs.Prelude.{◌≡◌, ◌<◌, IsTrue, Some, codes, length, map, option_and_then};
ghost use Rattle.std.specs.List.{filter_map};
ghost use Rattle.toml.specs.{Data.get_member, View.{table_view, view}};
ghost use Rattle.do_sched.specs.Good.{IsPort};
ghost use Rattle.do_class.specs.Table.{class_named};
ghost use Rattle.do_document.specs.{Checks.{first_among, is_text_with, required}, Document.text_at};
ghost use Rattle.do_document.specs.Finding.{Finds};
ghost use Rattle.do_world.specs.Faults.{is_class, is_free, is_new_port, seat_checks, seat_fault};
ghost use Rattle.do_world.specs.{Sound.{AreSeats, IsNextSeat}, Worlds.{port_of, seat_of}};

use do_base::{NodeId, Text};
use do_class::{ClassId, ClassTable};
use do_document::{Place, WorldFault, known_keys, required, text_of};
use do_machine::{Seat, Seats};
use std::alloc::Global;
use toml::{Table, Value};

/// The keys that a node may have.
const KEYS: [&str; 2] = ["port", "root"];

/// The node at a port, which is a number from 1 to 65,535.
fn node_of(value: &Value) -> Option<NodeId>
    ensures { result ≡ port_of (view value.now) }
{
    let number = value.as_integer()?;
    match u16::try_from(number) {
        Ok(port) => NodeId::new(port),
        Err(_) => None,
    }
}

/// Whether no seat is of this node.
fn is_free(seats: &Seats, node: NodeId) -> bool
    ensures { result ≡ is_free seats.now node }
{
    for seat in seats.as_slice() {
        if node == seat.node {
            return false;
        }
    }
    true
}

/// The port of a node, behind others.
fn port_at(alloc: Global, table: &Table, place: Place, seats: &Seats) -> Result<NodeId, WorldFault>
    ensures { let t = table_view table.now in
        Finds (required place (codes "port") (is_new_port seats.now) t)
        (λ node. (option_and_then port_of (get_member (codes "port") t) ≡ Some node)
        × IsTrue (is_free seats.now node) × IsPort node) result }
{
    let value = required(alloc, table, place, "port")?;
    let Some(node) = node_of(value) else {
        return Err(place.wrong(alloc, "port"));
    };
    if !is_free(seats, node) {
        return Err(place.wrong(alloc, "port"));
    }
    Ok(node)
}

/// The class of a node's root.
fn root_at(
    alloc: Global,
    table: &Table,
    place: Place,
    classes: &ClassTable,
) -> Result<ClassId, WorldFault>
    ensures { let t = table_view table.now in
        Finds (required place (codes "root") (is_text_with (is_class classes.now)) t)
        (λ class.
        (option_and_then (class_named classes.now) (text_at (codes "root") t) ≡ Some class)
        × (class.0 < length classes.now)) result }
{
    let value = required(alloc, table, place, "root")?;
    let text = text_of(alloc, value, place, "root")?;
    let name = Text::from_slice(alloc, text.as_bytes())?;
    match classes.class_named(&name) {
        Some(class) => Ok(class),
        None => Err(place.wrong(alloc, "root")),
    }
}

/// A node of a number, behind others.
fn seat_at(
    alloc: Global,
    table: &Table,
    k: usize,
    seats: &Seats,
    classes: &ClassTable,
) -> Result<Seat, WorldFault>
    ensures { Finds (seat_checks classes.now k seats.now (table_view table.now))
        (IsNextSeat classes.now seats.now (table_view table.now)) result }
{
    let place = Place::Node(k);
    known_keys(alloc, table, place, &KEYS)?;
    let node = port_at(alloc, table, place, seats)?;
    let root = root_at(alloc, table, place, classes)?;
    Ok(Seat { node, root })
}

/// The nodes of a document, whose roots are of these classes.
pub(crate) fn seats_of(
    alloc: Global,
    tables: &[&Table],
    classes: &ClassTable,
) -> Result<Seats, WorldFault>
    ensures { let ts = map (λ t. table_view t.now) tables.now in
        Finds (first_among (seat_fault classes.now) ts)
        (λ seats. (seats ≡ filter_map (seat_of classes.now) ts)
        × (length seats ≡ length ts) × AreSeats classes.now seats) result }
{
    let mut seats = Seats::new(alloc);
    for (k, table) in tables.iter().enumerate() {
        let seat = seat_at(alloc, *table, k, &seats, classes)?;
        seats.push(seat)?;
    }
    Ok(seats)
}
