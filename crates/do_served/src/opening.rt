//! A node of a world, as it opens.
ghost use Rattle.std.specs.Prelude.{◌≡◌, IfOk};
ghost use Rattle.do_served.specs.Nodes.{heard, opened};

use do_base::{NodeId, Peers};
use do_given::{Seated, parts_of};
use do_machine::Seat;
use do_native::Native;
use do_net::{Hosted, others, rising_ports};
use std::alloc::{AllocError, Global};

/// A site before its first input, and the peers that it hears, by rising port.
#[derive(Drop)]
pub struct Opened<S: Drop> {
    /// Its node.
    pub node: NodeId,
    /// The site.
    pub site: S,
    /// Its peers.
    pub peers: Peers,
}

/// The node of a seat.
fn node_of(seat: &Seat) -> NodeId
    ensures { result ≡ seat.now.node }
{
    seat.node
}

/// Opens a node of a world.
pub(crate) fn open_node<S: Hosted<Acts = Native>>(
    alloc: Global,
    place: Seated,
) -> Result<Opened<S>, AllocError>
    ensures node { IfOk result (λ o. o.node ≡ place.seat.node) }
    ensures site { IfOk result (λ o. S.seen o.site ≡ opened place) }
    ensures peers { IfOk result (λ o. o.peers ≡ heard place) }
{
    let Seated { world, seat } = place;
    let node = node_of(&seat);
    let parts = parts_of(alloc, world)?;
    let ports = rising_ports(&parts.nodes)?;
    let peers = others(&ports, node)?;
    let site = S::open(&parts.table, &parts.acts, seat, &ports)?;
    Ok(Opened { node, site, peers })
}
