//! What a site names beside the slots of its objects.
ghost use Rattle.std.specs.Prelude.{◌≡◌, IfOk, length};
ghost use Rattle.do_base.specs.names.Names.{ObjectName};
ghost use Rattle.do_lost.specs.Named.{node_names};
ghost use Rattle.do_machine.specs.Context.{own_class};
ghost use Rattle.do_network.specs.Links.{names_read};
ghost use Rattle.do_packet.specs.Met.{has_object};
ghost use Rattle.do_site.specs.Steps.{part_of};
ghost use Rattle.do_streams.specs.Reading.{AreKnown};

use super::Site;
use do_base::{NodeId, Oids};
use do_behave::Behaviour;
use do_class::ClassId;
use do_coder::Recent;
use do_named::named;
use std::alloc::AllocError;

impl<B: Behaviour + Drop> Site<B> {
    /// The objects that the node names beside the slots of its objects: its root, those that its
    /// invocations name, and those that it lends and asks for. One may stand there more than once.
    ///
    /// The one error is that memory ran out.
    pub fn named(&self) -> Result<Oids, AllocError>
        ensures { IfOk result (λ objects. (o : ObjectName) → has_object objects o
            ≡ has_object (node_names self.now.work.core.part.own.node) o) }
    {
        named(&self.work.core.part)
    }

    /// The class of an own object. None exactly where it is not stored.
    pub fn class_of(&self, serial: u64) -> Option<ClassId>
        ensures { result ≡ own_class self.now.work.core.part.own.node serial }
    {
        let (class, _slots) = self.work.core.part.object(serial)?;
        Some(class)
    }

    /// The names that the frames of a peer named last that were taken; none of a port that is no
    /// peer. They are of the site's classes.
    ///
    /// The one error is that memory ran out.
    pub fn names_read(&self, peer: NodeId) -> Result<Recent, AllocError>
        ensures names { IfOk result (λ names.
            names ≡ names_read (part_of self.now.work.core) peer) }
        ensures known { IfOk result (λ names. AreKnown (length self.now.table) names) }
    {
        self.work.core.streams.names_read(peer)
    }
}
