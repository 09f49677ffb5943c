//! The objects that a whole state names, and whether anything is under way.
ghost use Rattle.std.specs.{Prelude.{◌≡◌, ◌++◌, ◌==◌, IfOk, OnOk, length}, List.flat_map};
ghost use Rattle.do_lost.specs.Named.{is_idle, named, queue_names, quiet, serves, station_names};

use crate::items::{Way, push_items};
use crate::nodes::push_node;
use do_base::{NodeId, Oids};
use do_machine::{Queue, State, Station};
use do_rules::{is_open, node_at};
use std::alloc::{AllocError, Global};

/// Whether a node's end towards a peer is open. A port that is no node has none.
fn serves(state: &State, port: NodeId, peer: NodeId) -> bool
    ensures { result ≡ serves state.now port peer }
{
    match node_at(state, port) {
        Some(node) => is_open(node, peer),
        None => false,
    }
}

/// Appends what the items of a queue of a node name.
fn push_queue(
    objects: &mut Oids,
    state: &State,
    from: NodeId,
    queue: &Queue,
) -> Result<(), AllocError>
    ensures { OnOk result (objects.new ≡ objects.old ++ queue_names state.now from queue.now) }
{
    let way = Way {
        from,
        to: queue.to,
        serving: serves(state, queue.to, from),
    };
    push_items(objects, &way, &queue.items)
}

/// Appends what the queues of a node name.
fn push_queues(objects: &mut Oids, state: &State, station: &Station) -> Result<(), AllocError>
    ensures { OnOk result (objects.new
        ≡ objects.old ++ flat_map (queue_names state.now station.now.port) station.now.queues) }
{
    for queue in station.queues.as_slice() {
        push_queue(objects, state, station.port, queue.get())?;
    }
    Ok(())
}

/// Appends what a node and its queues name.
#[tactic(auto, using(std::proofs::lemmas::List::append_assoc))]
fn push_station(objects: &mut Oids, state: &State, station: &Station) -> Result<(), AllocError>
    ensures { OnOk result (objects.new ≡ objects.old ++ station_names state.now station.now) }
{
    push_node(objects, station.node.get())?;
    push_queues(objects, state, station)
}

/// The objects that a state names beside the slots of stored objects: roots, what invocations name,
/// lends, asks, and what items under way name. An object may stand there more than once.
///
/// An end that waits before a closed end names nothing. The one error is that memory ran out.
pub fn named(alloc: Global, state: &State) -> Result<Oids, AllocError>
    ensures { IfOk result (λ os. os ≡ named state.now) }
{
    let mut objects = Oids::new(alloc);
    for station in state.stations.as_slice() {
        push_station(&mut objects, state, station.get())?;
    }
    Ok(objects)
}

/// Whether nothing waits in a queue.
fn is_empty(queue: &Queue) -> bool
    ensures { result ≡ (length queue.now.items == 0) }
{
    queue.items.len() == 0
}

/// Whether nothing waits in the queues of a node.
fn is_idle(station: &Station) -> bool
    ensures { result ≡ is_idle station.now }
{
    station
        .queues
        .as_slice()
        .iter()
        .all(|queue| is_empty(queue.get()))
}

/// Whether nothing is under way: all queues are empty.
pub fn quiet(state: &State) -> bool
    ensures { result ≡ quiet state.now }
{
    state
        .stations
        .as_slice()
        .iter()
        .all(|station| is_idle(station.get()))
}
