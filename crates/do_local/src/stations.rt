//! The stations of a state, and their queues.
ghost use Rattle.std.specs.Prelude.{◌≡◌, ◌==◌, ◌<◌, IfOk, IfSome, length, position};
ghost use Rattle.do_machine.specs.{Lists.change_first, State.{change, with_items, with_queue}};

use do_base::{Items, NodeId};
use do_machine::{Item, Queue, Shared, State, Station};
use do_rules::item_at;
use std::alloc::AllocError;

/// Where the station of a port stands.
pub(crate) fn station_at(stations: &Items<Shared<Station>>, port: NodeId) -> Option<usize>
    ensures index { result ≡ position (λ s. port == s.port) stations.now }
    ensures within { IfSome result (λ at. at < length stations.now) }
{
    stations
        .as_slice()
        .iter()
        .position(|station| station.get().port == port)
}

/// Where the queue to a peer stands.
fn queue_at(queues: &Items<Shared<Queue>>, to: NodeId) -> Option<usize>
    ensures index { result ≡ position (λ q. to == q.to) queues.now }
    ensures within { IfSome result (λ at. at < length queues.now) }
{
    queues
        .as_slice()
        .iter()
        .position(|queue| queue.get().to == to)
}

/// A queue with other items.
pub(crate) fn with_items(
    items: Items<Shared<Item>>,
    queue: &Queue,
) -> Result<Shared<Queue>, AllocError>
    ensures { IfOk result (λ q. q ≡ with_items items queue.now) }
{
    let alloc = items.allocator();
    let to = queue.to;
    Shared::new(alloc, Queue { to, items })
}

/// The queues, of which the one to a peer has other items.
#[tactic(auto, using(do_machine::proofs::FirstPlace::first_steps))]
fn with_items_to(
    to: NodeId,
    items: Items<Shared<Item>>,
    queues: Items<Shared<Queue>>,
) -> Result<Items<Shared<Queue>>, AllocError>
    ensures { IfOk result (λ qs. qs ≡ change_first (λ q. to == q.to) (with_items items) queues) }
{
    let mut queues = queues;
    let Some(at) = queue_at(&queues, to) else {
        return Ok(queues);
    };
    let queue = with_items(items, item_at(&queues, at).get())?;
    queues.set(at, queue);
    Ok(queues)
}

/// A station with other items in its queue to a peer.
fn with_queue(
    to: NodeId,
    items: Items<Shared<Item>>,
    station: &Station,
) -> Result<Shared<Station>, AllocError>
    ensures { IfOk result (λ s. s ≡ with_queue to items station.now) }
{
    let given = station.queues.clone()?;
    let queues = with_items_to(to, items, given)?;
    let node = station.node.clone()?;
    let classes = station.classes.clone()?;
    let after = Station {
        port: station.port,
        node,
        queues,
        classes,
    };
    let shared = Shared::new(station.queues.allocator(), after)?;
    Ok(shared)
}

/// The stations, of which the one of a port has other items in its queue to a peer.
#[tactic(auto, using(do_machine::proofs::FirstPlace::first_steps))]
fn with_queue_in(
    from: NodeId,
    to: NodeId,
    items: Items<Shared<Item>>,
    stations: Items<Shared<Station>>,
) -> Result<Items<Shared<Station>>, AllocError>
    ensures { IfOk result (λ ss.
        ss ≡ change_first (λ s. from == s.port) (with_queue to items) stations) }
{
    let mut stations = stations;
    let Some(at) = station_at(&stations, from) else {
        return Ok(stations);
    };
    let station = with_queue(to, items, item_at(&stations, at).get())?;
    stations.set(at, station);
    Ok(stations)
}

/// A state with other items in the queue from a node to another.
pub(crate) fn with_queue_of(
    from: NodeId,
    to: NodeId,
    items: Items<Shared<Item>>,
    state: &State,
) -> Result<State, AllocError>
    ensures { IfOk result (λ s. s ≡ change from (with_queue to items) state.now) }
{
    let given = state.stations.clone()?;
    let stations = with_queue_in(from, to, items, given)?;
    Ok(State { stations })
}
