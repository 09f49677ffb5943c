//! Packets that have a spelling.
ghost use Rattle.std.specs.{Prelude.{◌↔◌, ◌≤◌, length, IsTrue}, List.AllByRecursion};
ghost use Rattle.do_coder.specs.{Names.IsName, Parts.IsPart};
ghost use Rattle.do_coder.specs.Packets.{surroundings, sides_of, slot_counts, IsCopied, IsPacket};

use crate::name::{has_class, have_names};
use crate::part::have_parts;
use do_base::NodeId;
use do_class::{ClassTable, Copied, Packet};

/// The most names of a packet.
const MAX_NAMES: usize = 65_536;

/// The most copies of a packet.
const MAX_COPIES: usize = 4096;

/// The most values of a packet.
const MAX_VALUES: usize = 9;

/// The most lists in one another.
const MAX_NESTING: u8 = 8;

/// Whether a copied object has a spelling: it has just the slots of its class.
fn has_copied(copied: &Copied, table: &ClassTable, copies: u64, names: u64) -> bool
    ensures { IsTrue result ↔ IsCopied (slot_counts table.now) copies names copied.now }
{
    has_class(copied.class, table)
        && copied.slots.len() == table.slots(copied.class).len()
        && have_parts(copied.slots.as_slice(), copies, names, MAX_NESTING)
}

/// Whether each copied object has a spelling.
fn have_copies(list: &[Copied], table: &ClassTable, copies: u64, names: u64) -> bool
    ensures { IsTrue result
        ↔ AllByRecursion (IsCopied (slot_counts table.now) copies names) list.now }
{
    for copied in list {
        if !has_copied(copied, table, copies, names) {
            return false;
        }
    }
    true
}

/// Whether a packet's lists are short enough.
fn is_small(packet: &Packet) -> bool
    ensures { IsTrue result ↔ ((length packet.now.names ≤ 65536)
        × ((length packet.now.copies ≤ 4096) × (length packet.now.values ≤ 9))) }
{
    packet.names.len() <= MAX_NAMES
        && packet.copies.len() <= MAX_COPIES
        && packet.values.len() <= MAX_VALUES
}

/// Whether each name, copied object and value of a packet has a spelling.
fn have_items(packet: &Packet, table: &ClassTable, from: NodeId, to: NodeId) -> bool
    ensures { IsTrue result
        ↔ (AllByRecursion (IsName (sides_of (surroundings table.now from to))) packet.now.names
        × (AllByRecursion (IsCopied (slot_counts table.now)
        (length packet.now.copies) (length packet.now.names)) packet.now.copies
        × AllByRecursion (IsPart (length packet.now.copies) (length packet.now.names) 8)
        packet.now.values)) }
{
    let names = packet.names.len() as u64;
    let copies = packet.copies.len() as u64;
    have_names(packet.names.as_slice(), table, from, to)
        && have_copies(packet.copies.as_slice(), table, copies, names)
        && have_parts(packet.values.as_slice(), copies, names, MAX_NESTING)
}

/// Whether a packet has a spelling, as a message from one node to another.
pub(crate) fn has_packet(packet: &Packet, table: &ClassTable, from: NodeId, to: NodeId) -> bool
    ensures { IsTrue result ↔ IsPacket (surroundings table.now from to) packet.now }
{
    is_small(packet) && have_items(packet, table, from, to)
}
