//! What is asked of a state.
ghost use Rattle.std.specs.{Prelude.{◌≡◌, ◌==◌, find}, Option.option_copied};
ghost use Rattle.do_machine.specs.State.{class_given, class_of, node, queue, queue_to, station};

use do_base::{Items, NodeId, Oid};
use do_class::ClassId;
use do_machine::{Classes, Item, Node, Queue, Shared, State, Station};

/// The station of a port, among others.
fn station_in(stations: &[Shared<Station>], port: NodeId) -> Option<&Station>
    ensures { option_copied result ≡ find (λ s. port == s.port) stations.now }
{
    let [first, rest @ ..] = stations else {
        return None;
    };
    let station = first.get();
    if station.port == port {
        return Some(station);
    }
    station_in(rest, port)
}

/// The station of a port.
pub fn station(state: &State, port: NodeId) -> Option<&Station>
    ensures { option_copied result ≡ station state.now port }
{
    station_in(state.stations.as_slice(), port)
}

/// The node of a port.
pub fn node_at(state: &State, port: NodeId) -> Option<&Node>
    ensures { option_copied result ≡ node state.now port }
{
    match station(state, port) {
        Some(station) => Some(station.node.get()),
        None => None,
    }
}

/// The queue to a peer, among others.
fn queue_in(queues: &[Shared<Queue>], to: NodeId) -> Option<&Queue>
    ensures { option_copied result ≡ find (λ q. to == q.to) queues.now }
{
    let [first, rest @ ..] = queues else {
        return None;
    };
    let queue = first.get();
    if queue.to == to {
        return Some(queue);
    }
    queue_in(rest, to)
}

/// The queue of a station to a peer.
fn queue_to(station: &Station, to: NodeId) -> Option<&Items<Shared<Item>>>
    ensures { option_copied result ≡ queue_to to station.now }
{
    match queue_in(station.queues.as_slice(), to) {
        Some(queue) => Some(&queue.items),
        None => None,
    }
}

/// The queue from a node to another, the oldest item first.
pub fn queue(state: &State, from: NodeId, to: NodeId) -> Option<&Items<Shared<Item>>>
    ensures { option_copied result ≡ queue state.now from to }
{
    match station(state, from) {
        Some(station) => queue_to(station, to),
        None => None,
    }
}

/// The class that was given with a serial.
fn class_given(classes: &Classes, serial: u64) -> Option<ClassId>
    ensures { result ≡ class_given classes.now serial }
{
    if serial == 0 {
        return None;
    }
    classes.get(serial as usize - 1)
}

/// The class of an object, also after it left the heap.
pub(crate) fn class_of(state: &State, object: &Oid) -> Option<ClassId>
    ensures { result ≡ class_of state.now object.now }
{
    match station(state, object.node) {
        Some(station) => class_given(&station.classes, object.serial),
        None => None,
    }
}
