//! A node as a plain list of objects.
ghost use Rattle.std.specs.Prelude.{◌≡◌, ◌≤◌, length};
ghost use Rattle.site_calls.specs.Samples.{AllLight, seen_of};

use crate::packing::values::objects;
use do_base::{NodeId, Oid, Values};
use do_class::ClassId;
use do_packet::View;
use std::alloc::{AllocError, Global};

/// Objects of one node and one class, by serial from 0.
///
/// It may name every foreign object but those of one node.
#[derive(Drop)]
pub(crate) struct Node {
    /// The port of the node.
    pub(crate) id: NodeId,
    /// The node whose objects may not be named.
    pub(crate) closed: NodeId,
    /// The class of each object.
    pub(crate) class: ClassId,
    objects: Vec<Values>,
    ghost light: { AllLight objects.items },
}

impl Node {
    /// A node without objects.
    pub(crate) fn new(alloc: Global, id: NodeId, closed: NodeId, class: ClassId) -> Node
        ensures { result.class ≡ class }
    {
        Node {
            id,
            closed,
            class,
            objects: Vec::new(alloc),
        }
    }

    /// One more object, with these objects in its slots, at most 50,000.
    pub(crate) fn add(&mut self, alloc: Global, slots: &[Oid]) -> Result<(), AllocError>
        requires { length slots.now ≤ 50000 }
        ensures { self.new.class ≡ self.old.class }
    {
        let values = objects(alloc, slots)?;
        self.objects.push(values)?;
        Ok(())
    }
}

impl View for Node {
    ghost sees = { λ n. seen_of n.id n.closed n.class n.objects.items };

    fn class_of(&self, _oid: Oid) -> Option<ClassId> {
        Some(self.class)
    }

    fn slots(&self, oid: Oid) -> Option<&Values> {
        let home = oid.node;
        if home == self.id {
            self.objects.get(oid.serial as usize)
        } else {
            None
        }
    }

    fn usable(&self, oid: Oid) -> bool {
        let home = oid.node;
        home != self.closed
    }
}
