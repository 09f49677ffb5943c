ghost use Rattle.std.specs.{Prelude.{◌≡◌, ◌<◌, ◌≤◌, ◌^◌, length, IfOk}, List.All, Option.IsSome};
ghost use Rattle.do_packet.specs.{Packing.names_to, Seen.sender};

use crate::view::View;
use do_base::{Items, NodeId, Oid};
use do_class::{ClassTable, Name, NameList};
use std::alloc::{AllocError, Global};

/// The names of objects in a message to a node, with tokens from the next one on.
pub(crate) fn names_of<V: View>(
    alloc: Global,
    table: &ClassTable,
    view: &V,
    from: NodeId,
    to: NodeId,
    oids: &[Oid],
    next_token: u64,
) -> Result<NameList, AllocError>
    requires token { next_token ≤ 2 ^ 62 }
    requires classed { All (λ o. IsSome ((V.sees view.now).class_of o)) oids.now }
    requires few { length oids.now < 2 ^ 63 }
    ensures { IfOk result (λ names. names ≡
        names_to (sender table.now from (V.sees view.now)) to next_token oids.now) }
{
    let mut list = Items::new(alloc);
    let mut token = next_token;
    for oid in oids {
        let home = oid.node;
        let serial = oid.serial;
        let class = match view.class_of(*oid) {
            Some(class) => class,
            None => unreachable!(),
        };
        if home == from {
            list.push(Name::Mine { serial, class })?;
        } else if home == to {
            list.push(Name::Yours { serial })?;
        } else {
            list.push(Name::Lent {
                oid: *oid,
                class,
                token,
            })?;
            token += 1;
        }
    }
    Ok(list)
}
