//! Whether anything is under way in a network.
ghost use Rattle.std.specs.{Prelude.{◌≡◌, IfOk}, List.list_all};
ghost use Rattle.do_machine.specs.World.{others};
ghost use Rattle.do_net.specs.Net.{network};
ghost use Rattle.do_net_named.specs.Lost.{is_still, is_still_from, net_still};
ghost use Rattle.do_network.specs.Net.{channel};

use do_base::{NodeId, Peers};
use do_net::{Hosted, Net, others};
use std::alloc::AllocError;

/// Whether nothing is under way from one node to another.
fn is_still_to<S: Hosted>(net: &Net<S>, from: NodeId, to: NodeId) -> bool
    ensures { result ≡ is_still (channel (network S.seen net.now) from to) }
{
    match net.lane(from, to) {
        Some(lane) => lane.is_empty(),
        None => true,
    }
}

/// Whether nothing is under way from one node to these.
fn is_still_from<S: Hosted>(net: &Net<S>, from: NodeId, peers: &Peers) -> bool
    ensures { result ≡ is_still_from (network S.seen net.now) from peers.now }
{
    peers
        .as_slice()
        .iter()
        .all(|peer| is_still_to(net, from, *peer))
}

/// Whether nothing is under way between the nodes of these ports.
fn is_still_among<S: Hosted>(net: &Net<S>, ports: &Peers) -> Result<bool, AllocError>
    ensures { IfOk result (λ still. still ≡ list_all (λ from.
        is_still_from (network S.seen net.now) from (others ports.now from)) ports.now) }
{
    for from in ports.as_slice() {
        if !is_still_from(net, *from, &others(ports, *from)?) {
            return Ok(false);
        }
    }
    Ok(true)
}

/// Whether nothing is under way between the nodes of a network.
pub(crate) fn is_still<S: Hosted>(net: &Net<S>) -> Result<bool, AllocError>
    ensures { IfOk result (λ still. still ≡ net_still (network S.seen net.now)) }
{
    let ports = net.ports()?;
    is_still_among(net, &ports)
}
