//! Unpacking messages.
ghost use Rattle.std.specs.Prelude.{◌≡◌, ◌<◌, ◌≤◌, ◌^◌, ◌+◌, length, map, IfOk};
ghost use Rattle.do_packet.specs.Copies.{most_copies};
ghost use Rattle.do_packet.specs.Unpacking.{made_of, name_value, name_values, unpacked, value_of};

use crate::receipt::{Made, ObjList, Receipt, Unpacked};
use do_base::{Flags, Items, NodeId, Oid, Value, Values, copy_value};
use do_class::{Copied, CopyList, Name, NameList, Packet, Part, Parts};
use std::alloc::{AllocError, Global};

/// The value that a name stands for.
fn name_meaning(receipt: &Receipt, name: &Name, entry: bool, open_home: bool) -> Value
    ensures { result ≡ name_value receipt.now name.now entry open_home }
{
    match name {
        Name::Mine { serial, .. } => Value::Obj(Oid {
            node: receipt.from,
            serial: *serial,
        }),
        Name::Yours { serial } => {
            if entry {
                Value::Obj(Oid {
                    node: receipt.to,
                    serial: *serial,
                })
            } else {
                Value::Nil
            }
        }
        Name::Lent { oid, .. } => {
            if open_home {
                Value::Obj(*oid)
            } else {
                Value::Nil
            }
        }
    }
}

/// The values that the names of a message stand for.
fn name_meanings(
    alloc: Global,
    receipt: &Receipt,
    names: &NameList,
    entries: &Flags,
    open_home: &Flags,
) -> Result<Values, AllocError>
    requires entries { length entries.now ≡ length names.now }
    requires open { length open_home.now ≡ length names.now }
    ensures { IfOk result (λ values. values ≡
        name_values receipt.now names.now entries.now open_home.now) }
{
    let items = names.as_slice();
    let entered = entries.as_slice();
    let homes = open_home.as_slice();
    let mut list = Items::new(alloc);
    for i in 0..items.len() {
        let entry = &entered[i];
        let home = &homes[i];
        list.push(name_meaning(receipt, &items[i], *entry, *home))?;
    }
    Ok(list)
}

/// The value of a part. The calls go as deep as its lists nest.
#[cycle(part_value)]
fn part_value(part: &Part, receipt: &Receipt, named: &Values) -> Result<Value, AllocError>
    requires { receipt.now.next + receipt.now.copies < 2 ^ 64 }
    ensures { IfOk result (λ value. value ≡ value_of receipt.now named.now part.now) }
{
    match part {
        Part::Nil => Ok(Value::Nil),
        Part::Num(n) => Ok(Value::Num(*n)),
        Part::Text(text) => Ok(Value::Text(text.clone()?)),
        Part::Copy(k) => {
            if *k < receipt.copies as u64 {
                Ok(Value::Obj(Oid {
                    node: receipt.to,
                    serial: receipt.next + *k,
                }))
            } else {
                Ok(Value::Nil)
            }
        }
        Part::Named(k) => match named.get(*k as usize) {
            Some(value) => Ok(copy_value(value)?),
            None => Ok(Value::Nil),
        },
        Part::List(parts) => Ok(Value::List(part_values(parts, receipt, named)?)),
    }
}

/// The values of parts, in order.
#[cycle(part_value)]
fn part_values(parts: &Parts, receipt: &Receipt, named: &Values) -> Result<Values, AllocError>
    requires { receipt.now.next + receipt.now.copies < 2 ^ 64 }
    ensures { IfOk result (λ values. values ≡ map (value_of receipt.now named.now) parts.now) }
{
    let mut values = Items::new(parts.allocator());
    for part in parts.as_slice() {
        values.push(part_value(part, receipt, named)?)?;
    }
    Ok(values)
}

/// The objects that the copies of a message become.
fn made(receipt: &Receipt, named: &Values, copies: &CopyList) -> Result<ObjList, AllocError>
    requires { receipt.now.next + receipt.now.copies < 2 ^ 64 }
    ensures { IfOk result (λ objects. objects ≡ map (made_of receipt.now named.now) copies.now) }
{
    let mut objects = Items::new(copies.allocator());
    for copied in copies.as_slice() {
        let slots = part_values(&copied.slots, receipt, named)?;
        objects.push(Made {
            class: copied.class,
            slots,
        })?;
    }
    Ok(objects)
}

/// Unpacks a message at its receiver: its copies become objects with the serials from `next_serial`
/// on, in order.
///
/// `entries` says of each name whether the object has an entry for the sender, and `open_home`
/// whether the end towards the object's home is open: an own object without an entry becomes nil,
/// and so does an object of a third node whose home's end is closed. The only error is that memory
/// ran out. Nothing that was given changes.
pub fn unpack(
    alloc: Global,
    packet: &Packet,
    from: NodeId,
    to: NodeId,
    next_serial: u64,
    entries: &Flags,
    open_home: &Flags,
) -> Result<Unpacked, AllocError>
    requires serial { next_serial ≤ 2 ^ 62 }
    requires copies { length packet.now.copies ≤ most_copies }
    requires entries { length entries.now ≡ length packet.now.names }
    requires open { length open_home.now ≡ length packet.now.names }
    ensures { IfOk result (λ received. received ≡ unpacked (record
        { from = from; to = to; next = next_serial; copies = length packet.now.copies })
        entries.now open_home.now packet.now) }
{
    let receipt = Receipt {
        from,
        to,
        next: next_serial,
        copies: packet.copies.len(),
    };
    let named = name_meanings(alloc, &receipt, &packet.names, entries, open_home)?;
    let copies = made(&receipt, &named, &packet.copies)?;
    let values = part_values(&packet.values, &receipt, &named)?;
    Ok(Unpacked { copies, values })
}
