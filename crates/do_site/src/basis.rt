//! A site as a basis of judgements.
use crate::awaiting::awaited;
use crate::ground::Ground;
use do_base::{NodeId, Oid, Values};
use do_behave::{Invocation, Waited};
use do_class::{ClassId, ClassTable};
use do_rules::{Answered, Basis};
use std::alloc::{AllocError, Global};

/// The most invocations of a node.
const MOST: usize = 256;

impl<'a> Basis for Ground<'a> {
    ghost use Rattle.do_network.specs.Own.{site_context};

    ghost context = { λ g. site_context g.table.now g.part.now.own };

    fn allocator(&self) -> Global {
        self.part.allocator()
    }

    fn table(&self) -> &ClassTable {
        self.table
    }

    fn port(&self) -> NodeId {
        self.part.port()
    }

    fn root(&self) -> Option<u64> {
        self.part.root()
    }

    fn next_serial(&self) -> u64 {
        self.part.next_serial()
    }

    fn next_token(&self) -> u64 {
        self.part.next_token()
    }

    fn is_open(&self, peer: NodeId) -> bool {
        self.part.is_open(peer)
    }

    fn is_known(&self, object: &Oid) -> bool {
        self.part.is_known(object)
    }

    fn foreign_class(&self, object: &Oid) -> Option<ClassId> {
        self.part.class_of(*object)
    }

    fn own_class(&self, serial: u64) -> Option<ClassId> {
        match self.part.object(serial) {
            Some((class, _)) => Some(class),
            None => None,
        }
    }

    fn own_slots(&self, serial: u64) -> Option<&Values> {
        match self.part.object(serial) {
            Some((_, slots)) => Some(slots),
            None => None,
        }
    }

    fn has_entry(&self, peer: NodeId, serial: u64) -> Result<bool, AllocError> {
        Ok(self.part.is_open(peer) && self.part.count(peer, serial) > 0)
    }

    fn is_full(&self) -> bool {
        self.part.depth() >= MOST
    }

    fn top(&self) -> Option<&Invocation> {
        self.part.top()
    }

    fn awaited(&self, call: &Answered) -> Option<Waited> {
        awaited(self.part, call)
    }
}
