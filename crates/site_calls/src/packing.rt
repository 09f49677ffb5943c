//! Calls of what packs values for a peer. Node 7001 packs for node 7002. It may name objects of
//! node 7003 and none of node 7004.

ghost use Rattle.std.specs.Prelude.{◌≡◌, ◌<◌, ◌≤◌, ◌^◌, IfOk, length, sum_by};
ghost use Rattle.do_base.specs.values.Values.{weight_of};

mod made;
mod node;
mod values;

use crate::codec::empty;
use crate::packing::made::{Ports, four_ports, item_table, ring};
use crate::packing::node::Node;
use crate::packing::values::{flags, objects, objects_of};
use call_rows::{
    Part, call_of, count_at, count_value, list_at, no_call, printed, shown, triple_value, value_at,
};
use do_base::{Flags, Oid, Oids, Value, Values};
use do_class::{ClassId, Packet};
use do_native_acts::read_list;
use do_packet::{PackFault, pack};
use std::alloc::{AllocError, Global};
use std::test::Fail;

/// What a row calls.
#[derive(Clone, Copy)]
enum Call {
    Packet,
    Pack,
    Ring,
    Names,
}

/// The words of the calls.
const CALLS: [(&[u8], Call); 4] = [
    (b"packet", Call::Packet),
    (b"pack", Call::Pack),
    (b"ring", Call::Ring),
    (b"names", Call::Names),
];

/// What was packed last.
#[derive(Drop)]
pub(crate) struct PackCalls {
    alloc: Global,
    ports: Ports,
    packet: Packet,
}

/// What these values of a node are packed as, with tokens from 5 on. Those that are flagged stand
/// in bycopy places.
fn packed(
    alloc: Global,
    ports: &Ports,
    node: &Node,
    copy: &Flags,
    sent: &Values,
) -> Result<Packet, PackFault>
    requires class { node.now.class.0 ≡ 0 }
    requires places { length copy.now ≡ length sent.now }
    requires light { sum_by weight_of sent.now < 2 ^ 32 }
{
    let table = item_table(alloc)?;
    pack(
        alloc,
        &table,
        node,
        ports.sender,
        ports.receiver,
        copy,
        sent,
        5,
    )
}

/// What the first of a ring of items is packed as, in a bycopy place.
fn packed_ring(alloc: Global, ports: &Ports, count: u64) -> Result<Packet, PackFault> {
    let ring = ring(alloc, ports, count)?;
    let node = ports.sender;
    let sent = objects(alloc, &[Oid { node, serial: 0 }])?;
    let copy = Flags::from_slice(alloc, &[true])?;
    packed(alloc, ports, &ring, &copy, &sent)
}

/// What objects of a third node are packed as, at most 50,000 of them.
fn packed_names(alloc: Global, ports: &Ports, count: usize) -> Result<Packet, PackFault>
    requires { count ≤ 50000 }
{
    let node = Node::new(alloc, ports.sender, ports.closed, ClassId(0));
    let oids = objects_of(alloc, ports.third, count)?;
    let sent = objects(alloc, oids.as_slice())?;
    let copy = flags(alloc, count)?;
    packed(alloc, ports, &node, &copy, &sent)
}

/// What objects are packed as by a node with one item, whose slots hold these.
fn packed_item(
    alloc: Global,
    ports: &Ports,
    slots: &Oids,
    copy: &Flags,
    sent: &Oids,
) -> Result<Packet, PackFault>
    requires slots { length slots.now ≤ 50000 }
    requires sent { length sent.now ≤ 50000 }
    requires places { length copy.now ≡ length sent.now }
{
    let mut node = Node::new(alloc, ports.sender, ports.closed, ClassId(0));
    node.add(alloc, slots.as_slice())?;
    let sent = objects(alloc, sent.as_slice())?;
    packed(alloc, ports, &node, copy, &sent)
}

/// The objects of a list, at most 50,000.
fn objects_in(value: &Value) -> Result<Oids, Fail>
    ensures { IfOk result (λ oids. length oids ≤ 50000) }
{
    let oids = read_list::<Oid>(value)?.ok_or("no objects")?;
    if oids.len() > 50_000 {
        return Err(Fail::from("too many objects"));
    }
    Ok(oids)
}

/// Adds flags, of which each that is no 0 is set.
fn push_flags(flags: &mut Flags, values: &Values) -> Result<(), AllocError> {
    for value in values.as_slice() {
        flags.push(*value != Value::Num(0))?;
    }
    Ok(())
}

/// Flags, of which each that is no 0 is set.
fn flags_in(values: &Values) -> Result<Flags, AllocError> {
    let mut flags = Flags::new(values.allocator());
    push_flags(&mut flags, values)?;
    Ok(flags)
}

impl PackCalls {
    /// Nothing was packed yet.
    pub(crate) fn new(alloc: Global) -> Result<PackCalls, Fail> {
        Ok(PackCalls {
            alloc,
            ports: four_ports().ok_or("no node")?,
            packet: empty(alloc),
        })
    }

    /// Keeps what was packed, and tells how many copies, names and values it has. Or it tells why
    /// nothing was packed, printed.
    fn keep(&mut self, packed: Result<Packet, PackFault>) -> Result<Value, Fail> {
        match packed {
            Ok(packet) => {
                self.packet = packet;
                self.counts()
            }
            Err(fault) => printed(self.alloc, fault),
        }
    }

    /// How many copies, names and values the packet has.
    fn counts(&self) -> Result<Value, Fail> {
        let copies = count_value(self.packet.copies.len())?;
        let names = count_value(self.packet.names.len())?;
        let values = count_value(self.packet.values.len())?;
        triple_value(self.alloc, copies, names, values)
    }

    /// Packs the first of a ring of items.
    fn pack_ring(&mut self, args: &Values) -> Result<Value, Fail> {
        let count = u64::from(count_at(args, 0)?);
        let packed = packed_ring(self.alloc, &self.ports, count);
        self.keep(packed)
    }

    /// Packs objects of a third node.
    fn pack_names(&mut self, args: &Values) -> Result<Value, Fail> {
        let count = usize::from(count_at(args, 0)?);
        if count > 50_000 {
            return Err(Fail::from("too many objects"));
        }
        let packed = packed_names(self.alloc, &self.ports, count);
        self.keep(packed)
    }

    /// Packs objects, by a node with one item: the slots of the item, the flags, and the objects.
    fn pack(&mut self, args: &Values) -> Result<Value, Fail> {
        let slots = objects_in(value_at(args, 0)?)?;
        let copy = flags_in(list_at(args, 1)?)?;
        let sent = objects_in(value_at(args, 2)?)?;
        if copy.len() != sent.len() {
            return Err(Fail::from("not as many flags"));
        }
        let packed = packed_item(self.alloc, &self.ports, &slots, &copy, &sent);
        self.keep(packed)
    }
}

impl Part for PackCalls {
    fn call(&mut self, word: &[u8], args: &Values) -> Result<Value, Fail> {
        match call_of(&CALLS, word) {
            Some(Call::Packet) => shown(self.alloc, &self.packet),
            Some(Call::Pack) => self.pack(args),
            Some(Call::Ring) => self.pack_ring(args),
            Some(Call::Names) => self.pack_names(args),
            None => no_call(),
        }
    }
}
