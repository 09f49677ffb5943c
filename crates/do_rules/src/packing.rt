//! How a node packs its values, and reads the messages that it takes.
ghost use Rattle.std.specs.{Prelude.{◌≡◌, IfOk, length, map}, List.zip};
ghost use Rattle.do_machine.specs.Packing.{packed_for};
ghost use Rattle.do_machine.specs.take.Receipt.{arrived, is_entered, is_reachable};

mod view;

use crate::basis::Basis;
use do_base::{Flags, NodeId, Values};
use do_class::{Name, Packet};
use do_packet::{PackFault, Unpacked, pack, unpack};
use std::alloc::AllocError;
use view::Packer;

/// The last number of a serial or a token from which a message may count on.
const MOST_NUMBER: u64 = 4_611_686_018_427_387_904;

/// The most copies of a message.
const MOST_COPIES: usize = 4096;

/// Values, with as many marks of whether their places are bycopy.
#[derive(Drop)]
struct Marked {
    marks: Flags,
    values: Values,
}

/// Values with their marks; a mark without a value and a value without a mark are passed over.
#[tactic(auto, using(crate::proofs::Pairs::pair_steps))]
fn side_by_side(marks: Flags, values: Values) -> Marked
    ensures pairs { zip result.marks result.values ≡ zip marks values }
    ensures same { length result.marks ≡ length result.values }
{
    let mut marks = marks;
    let mut values = values;
    if marks.len() <= values.len() {
        values.truncate(marks.len());
        return Marked { marks, values };
    }
    marks.truncate(values.len());
    Marked { marks, values }
}

/// Values that stand beside their marks, as a message to a peer, if they are not too large.
fn packed<N: Basis>(basis: &N, to: NodeId, pairs: &Marked) -> Result<Option<Packet>, AllocError>
    requires { length pairs.now.marks ≡ length pairs.now.values }
    ensures { IfOk result (λ packet.
        packet ≡ packed_for (N.context basis.now) to (zip pairs.now.marks pairs.now.values)) }
{
    let (marks, values) = (&pairs.marks, &pairs.values);
    let token = basis.next_token();
    if token > MOST_NUMBER {
        return Err(AllocError);
    }
    let alloc = values.allocator();
    let view = Packer { basis };
    let (table, port) = (basis.table(), basis.port());
    match pack(alloc, table, &view, port, to, marks, values, token) {
        Ok(packet) => Ok(Some(packet)),
        Err(PackFault::TooLarge { .. }) => Ok(None),
        Err(PackFault::Memory) => Err(AllocError),
    }
}

/// A node's values as a message to a peer, if they are not too large.
///
/// An error is want of memory, or a token past 2^62.
pub(crate) fn packed_for<N: Basis>(
    basis: &N,
    to: NodeId,
    marks: Flags,
    values: Values,
) -> Result<Option<Packet>, AllocError>
    ensures { IfOk result (λ packet.
        packet ≡ packed_for (N.context basis.now) to (zip marks values)) }
{
    packed(basis, to, &side_by_side(marks, values))
}

/// Whether the sender has an entry of the own object that a name names.
fn is_entered<N: Basis>(basis: &N, from: NodeId, name: &Name) -> Result<bool, AllocError>
    ensures { IfOk result (λ entry. entry ≡ is_entered (N.context basis.now) from name.now) }
{
    match name {
        Name::Mine { .. } => Ok(false),
        Name::Lent { .. } => Ok(false),
        Name::Yours { serial } => basis.has_entry(from, *serial),
    }
}

/// Whether the node's end towards the home of a third node's object is open.
fn is_reachable<N: Basis>(basis: &N, name: &Name) -> bool
    ensures { result ≡ is_reachable (N.context basis.now) name.now }
{
    match name {
        Name::Mine { .. } => false,
        Name::Yours { .. } => false,
        Name::Lent { oid, .. } => basis.is_open(oid.node),
    }
}

/// Of which names of a message the sender has entries.
fn entries<N: Basis>(basis: &N, from: NodeId, packet: &Packet) -> Result<Flags, AllocError>
    ensures { IfOk result (λ flags.
        flags ≡ map (is_entered (N.context basis.now) from) packet.now.names) }
{
    let mut flags = Flags::new(packet.names.allocator());
    for name in packet.names.as_slice() {
        flags.push(is_entered(basis, from, name)?)?;
    }
    Ok(flags)
}

/// Of which names of a message the home can be reached.
fn homes<N: Basis>(basis: &N, packet: &Packet) -> Result<Flags, AllocError>
    ensures { IfOk result (λ flags.
        flags ≡ map (is_reachable (N.context basis.now)) packet.now.names) }
{
    let mut flags = Flags::new(packet.names.allocator());
    for name in packet.names.as_slice() {
        flags.push(is_reachable(basis, name))?;
    }
    Ok(flags)
}

/// What comes in a message, for the node.
///
/// An error is want of memory, or that the message passes what unpacking can count: more than
/// 4,096 copies, or a serial past 2^62.
pub(crate) fn arrived<N: Basis>(
    basis: &N,
    from: NodeId,
    packet: &Packet,
) -> Result<Unpacked, AllocError>
    ensures { IfOk result (λ u. u ≡ arrived (N.context basis.now) from packet.now) }
{
    let serial = basis.next_serial();
    if packet.copies.len() > MOST_COPIES || serial > MOST_NUMBER {
        return Err(AllocError);
    }
    let entries = entries(basis, from, packet)?;
    let homes = homes(basis, packet)?;
    let alloc = packet.names.allocator();
    let port = basis.port();
    let Unpacked { copies, values } = unpack(alloc, packet, from, port, serial, &entries, &homes)?;
    Ok(Unpacked { copies, values })
}
