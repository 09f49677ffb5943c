//! A site that tells what it names, and by which names its peers' frames are read.
ghost use Rattle.std.specs.{Prelude.{◌≡◌, IfOk, length}, List.AllByRecursion};
ghost use Rattle.do_base.specs.names.Names.{ObjectName};
ghost use Rattle.do_coder.specs.Recent.{IsKnown};
ghost use Rattle.do_lost.specs.Named.{node_names};
ghost use Rattle.do_machine.specs.Context.{own_class};
ghost use Rattle.do_network.specs.Links.{names_read};
ghost use Rattle.do_packet.specs.Met.{has_object};

use do_base::{NodeId, Oids};
use do_class::ClassId;
use do_coder::Recent;
use do_net::Hosted;
use std::alloc::AllocError;

/// A site that says besides what it names, and by which names a peer's frames are read.
pub trait Traced: Hosted {
    /// The objects that the node names beside the slots of its objects: its root, those that its
    /// invocations name, and those that it lends and asks for. One may stand there more than once.
    ///
    /// The one error is that memory ran out.
    fn named(&self) -> Result<Oids, AllocError>
        ensures { IfOk result (λ objects. (o : ObjectName) → has_object objects o
            ≡ has_object (node_names (Self.seen self.now).part.own.node) o) };

    /// The class of an own object. None exactly where it is not stored.
    fn class_of(&self, serial: u64) -> Option<ClassId>
        ensures { result ≡ own_class (Self.seen self.now).part.own.node serial };

    /// The names that the frames of a peer named last that were taken; none of a port that is no
    /// peer. They are of the site's classes.
    ///
    /// The one error is that memory ran out.
    fn names_read(&self, peer: NodeId) -> Result<Recent, AllocError>
        ensures names { IfOk result (λ names.
            names ≡ names_read (Self.seen self.now).part peer) }
        ensures known { IfOk result (λ names.
            AllByRecursion (IsKnown (length (Self.seen self.now).table)) names) };
}
