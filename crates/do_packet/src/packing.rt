//! Packing values into a message.
mod met_objects;
mod naming;
mod places;
mod walk;
mod weights;

ghost use Rattle.std.specs.{Prelude.{◌≡◌, ◌≤◌, ◌^◌, ◌⊎◌, Err, IfOk, length}, List.zip};
ghost use Rattle.do_packet.specs.{Limits.KeepsLimits, Packing.packed, Seen.sender};
ghost use Rattle.do_packet.specs.declared.fault.PackFault.TheVariants.{Memory};

use crate::fault::PackFault;
use crate::view::View;
use do_base::{Flags, Items, NodeId, Values};
use do_class::{ClassTable, Packet};
use naming::names_of;
use std::alloc::Global;
use walk::Walk;
use weights::{copy_weight, plus, sum_of_weights};

const MOST_COPIES: usize = 4096;

const MOST_WEIGHT: u64 = 2_097_152;

/// Packs values into a message from a node to another: `copy` says of each value whether its place
/// is bycopy, and objects of third nodes are lent under tokens from `next_token` on.
///
/// `TooLarge` comes exactly where the message would have more than 4,096 copies, with 4,097 and
/// 4,096, or else weighs more than 2,097,152, with its weight and that limit; and `Memory` where
/// memory ran out. Of a weight past 2^64 - 1 that number is told. Nothing that was given changes,
/// and a message that is refused uses no token.
/// The time grows with the message and, for each object that it copies or names, with the logarithm
/// of how many there are, whatever these are called.
pub fn pack<V: View>(
    alloc: Global,
    table: &ClassTable,
    view: &V,
    from: NodeId,
    to: NodeId,
    copy: &Flags,
    values: &Values,
    next_token: u64,
) -> Result<Packet, PackFault>
    requires places { length copy.now ≡ length values.now }
    requires token { next_token ≤ 2 ^ 62 }
    ensures value { (result ≡ Err Memory) ⊎ (result ≡
        packed (sender table.now from (V.sees view.now)) to next_token (zip copy.now values.now)) }
    ensures limits { IfOk result KeepsLimits }
{
    let mut walk = Walk::new(alloc);
    let parts = walk.values(table, view, from, copy, values)?;
    let mut weight = sum_of_weights(values);
    let mut copies = Items::new(alloc);
    // The list of copies grows while it is gone through: it is its own worklist.
    let mut k = 0;
    while k < walk.copies.len() {
        let found = walk.copies.as_slice();
        if found.len() > MOST_COPIES {
            return Err(PackFault::TooLarge {
                count: 4097,
                limit: 4096,
            });
        }
        let oid = found[k];
        copies.push(walk.copied(alloc, table, view, from, oid)?)?;
        weight = plus(weight, copy_weight(table, view, from, oid));
        k += 1;
    }
    if weight > MOST_WEIGHT {
        return Err(PackFault::TooLarge {
            count: weight,
            limit: MOST_WEIGHT,
        });
    }
    let names = names_of(
        alloc,
        table,
        view,
        from,
        to,
        walk.names.as_slice(),
        next_token,
    )?;
    Ok(Packet {
        names,
        copies,
        values: parts,
    })
}
