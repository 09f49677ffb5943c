//! What stands by rising port.
//!
//! Peers are found by halves where they rise. A site is given its peers in any order, and sees
//! them in that order for ever. Whether they rise is found once; a network gives them by rising
//! port, so there a peer is found in at most seven steps. Any other list is walked.
ghost use Rattle.std.specs.Prelude.{◌≡◌, ◌==◌, ◌<◌, IfSome, length, position, ℕ};
ghost use Rattle.std.specs.List.Sorted.{IsNonDecreasingBy};
ghost use Rattle.do_ported.specs.Rising.{IsHalved};

use do_base::{Items, NodeId};

/// What has a port: a site, or what a site keeps of a peer.
pub trait Ported {
    ghost port: { Self → ℕ };

    /// Its port.
    fn port(&self) -> NodeId
        ensures { result ≡ port self.now };
}

/// Where the lower ports end, of what stands by rising port, found by halves.
fn end_of_lower<T: Ported>(items: &Items<T>, port: NodeId) -> usize
    requires { IsNonDecreasingBy T.port items.now }
    ensures { IsHalved T.port port items.now result }
{
    items
        .as_slice()
        .partition_point(|item| item.port().port() < port.port())
}

/// Where the first of a port stands, of what stands by rising port. It takes steps as the logarithm
/// of how many there are.
pub fn place_of<T: Ported>(items: &Items<T>, port: NodeId) -> Option<usize>
    requires { IsNonDecreasingBy T.port items.now }
    ensures index { result ≡ position (λ x. port == T.port x) items.now }
    ensures within { IfSome result (λ at. at < length items.now) }
{
    let at = end_of_lower(items, port);
    let item = items.get(at)?;
    if item.port() != port {
        return None;
    }
    Some(at)
}

impl Ported for NodeId {
    ghost port = { λ n. n };

    fn port(&self) -> NodeId {
        *self
    }
}
