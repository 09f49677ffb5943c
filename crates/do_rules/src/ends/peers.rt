//! What a node has with one peer.
use crate::lists::Test;
use do_base::{NodeId, Oid};
use do_machine::{LateCall, Lend, Wanted};

/// What a node has with other peers than this one: ends, objects, lends, asks and late calls.
#[derive(Drop)]
pub(crate) struct BesidePeer(pub(crate) NodeId);

impl Test<NodeId> for BesidePeer {
    ghost use Rattle.std.specs.Prelude.{◌==◌, not};

    ghost passes = { λ besides port. not (port == besides.0) };

    fn passes(&self, port: &NodeId) -> bool {
        *port != self.0
    }
}

impl Test<Oid> for BesidePeer {
    ghost use Rattle.std.specs.Prelude.{◌==◌, not};

    ghost passes = { λ besides object. not (object.node == besides.0) };

    fn passes(&self, object: &Oid) -> bool {
        let home = object.node;
        home != self.0
    }
}

impl Test<Lend> for BesidePeer {
    ghost use Rattle.std.specs.Prelude.{◌==◌, not};

    ghost passes = { λ besides lend. not (lend.borrower == besides.0) };

    fn passes(&self, lend: &Lend) -> bool {
        lend.borrower != self.0
    }
}

impl Test<Wanted> for BesidePeer {
    ghost use Rattle.std.specs.Prelude.{◌==◌, not};

    ghost passes = { λ besides wanted. not (wanted.object.node == besides.0) };

    fn passes(&self, wanted: &Wanted) -> bool {
        let home = wanted.object.node;
        home != self.0
    }
}

impl Test<LateCall> for BesidePeer {
    ghost use Rattle.std.specs.Prelude.{◌==◌, not};

    ghost passes = { λ besides call. not (call.peer == besides.0) };

    fn passes(&self, call: &LateCall) -> bool {
        call.peer != self.0
    }
}
