//! Nodes and tables.
ghost use Rattle.std.specs.Prelude.{◌≡◌, IfOk, length};

use crate::packing::node::Node;
use do_base::{NodeId, Oid, Text};
use do_class::{ClassId, ClassTable, Methods, Slot, Slots};
use std::alloc::{AllocError, Global};

/// The nodes 7001 to 7004.
#[derive(Clone, Copy, Debug)]
pub(crate) struct Ports {
    /// The node that packs.
    pub(crate) sender: NodeId,
    /// The node that it packs for.
    pub(crate) receiver: NodeId,
    /// A node whose objects are lent.
    pub(crate) third: NodeId,
    /// A node whose objects may not be named.
    pub(crate) closed: NodeId,
}

/// The four nodes. There always are such nodes, so that `None` never comes.
pub(crate) fn four_ports() -> Option<Ports> {
    match (
        NodeId::new(7001),
        NodeId::new(7002),
        NodeId::new(7003),
        NodeId::new(7004),
    ) {
        (Some(sender), Some(receiver), Some(third), Some(closed)) => Some(Ports {
            sender,
            receiver,
            third,
            closed,
        }),
        _ => None,
    }
}

fn slot(alloc: Global, name: &[u8], copy: bool) -> Result<Slot, AllocError> {
    Ok(Slot {
        name: Text::from_slice(alloc, name)?,
        copy,
    })
}

/// A table of one class, whose slots are `next` and `first`, which are copied, and `owner`, which
/// is named.
pub(crate) fn item_table(alloc: Global) -> Result<ClassTable, AllocError>
    ensures { IfOk result (λ t. length t ≡ 1) }
{
    let mut table = ClassTable::new(alloc);
    let name = Text::from_slice(alloc, b"Item")?;
    let next = slot(alloc, b"next", true)?;
    let first = slot(alloc, b"first", true)?;
    let owner = slot(alloc, b"owner", false)?;
    let slots = Slots::from_vec(vec![in alloc; next, first, owner]?);
    match table.add_class(name, slots, Methods::new(alloc)) {
        Ok(_) => Ok(table),
        Err(_) => Err(AllocError),
    }
}

/// A node whose items are linked in a ring, each to the next and to the first.
pub(crate) fn ring(alloc: Global, ports: &Ports, count: u64) -> Result<Node, AllocError>
    ensures { IfOk result (λ n. n.class.0 ≡ 0) }
{
    let node = ports.sender;
    let mut ring = Node::new(alloc, node, ports.closed, ClassId(0));
    let first = Oid { node, serial: 0 };
    for i in 0..count {
        let serial = if count - i == 1 { 0 } else { i + 1 };
        ring.add(alloc, &[Oid { node, serial }, first])?;
    }
    Ok(ring)
}
