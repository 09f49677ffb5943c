//! A site that tells what it names.
use crate::site::Site;
use do_base::{NodeId, Oids};
use do_behave::Behaviour;
use do_class::ClassId;
use do_coder::Recent;
use do_traced::Traced;
use std::alloc::AllocError;

impl<B: Behaviour + Drop> Traced for Site<B> {
    fn named(&self) -> Result<Oids, AllocError> {
        Site::named(self)
    }

    fn class_of(&self, serial: u64) -> Option<ClassId> {
        Site::class_of(self, serial)
    }

    fn names_read(&self, peer: NodeId) -> Result<Recent, AllocError> {
        Site::names_read(self, peer)
    }
}
