//! What a node sees as a packer.
use crate::basis::{Basis, class_seen};
use do_base::{Oid, Values};
use do_class::ClassId;
use do_packet::View;

/// A node as a packer.
#[derive(Drop)]
pub(crate) struct Packer<'a, N> {
    pub(crate) basis: &'a N,
}

impl<'a, N: Basis> View for Packer<'a, N> {
    ghost use Rattle.do_machine.specs.Packing.{seen_by};

    ghost sees = { λ p. seen_by (N.context p.basis.now) };

    fn class_of(&self, oid: Oid) -> Option<ClassId> {
        class_seen(self.basis, &oid)
    }

    fn slots(&self, oid: Oid) -> Option<&Values> {
        let home = oid.node;
        if home != self.basis.port() {
            return None;
        }
        self.basis.own_slots(oid.serial)
    }

    fn usable(&self, oid: Oid) -> bool {
        self.basis.is_known(&oid) && self.basis.is_open(oid.node)
    }
}
