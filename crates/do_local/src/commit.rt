//! What a state is after an effect of one of its nodes.
ghost use Rattle.std.specs.Prelude.{◌≡◌, ◌++◌, ◌==◌, [], IfOk, map};
ghost use Rattle.do_machine.specs.Commit.{born, commit, committed, items_to, moved, showed};
ghost use Rattle.do_machine.specs.{Commit.{skipped, with_sent}, Lists.change_first};
ghost use Rattle.do_local.specs.Sending.{sending};

use crate::stations::{station_at, with_items};
use do_base::{Items, NodeId, ShownList};
use do_class::ClassId;
use do_machine::{
    Classes, Effect, Item, Node, Outcome, Parcel, Queue, Shared, State, Station, Stepped,
};
use do_rules::{item_at, leaving};
use std::alloc::AllocError;

/// The items of parcels to a peer.
fn items_to(to: NodeId, parcels: &Items<Parcel>) -> Result<Items<Shared<Item>>, AllocError>
    ensures { IfOk result (λ items. items ≡ items_to to parcels.now) }
{
    let mut items = Items::new(parcels.allocator());
    for parcel in parcels.as_slice() {
        if parcel.to == to {
            items.push(parcel.item.clone()?)?;
        }
    }
    Ok(items)
}

/// A queue with what was sent to its peer. One to which nothing was sent stays as it is, shared.
#[tactic(auto, using(crate::proofs::Changes::none_steps))]
fn with_sent(sent: &Items<Parcel>, queue: &Shared<Queue>) -> Result<Shared<Queue>, AllocError>
    ensures { IfOk result (λ q. q ≡ with_sent sent.now queue.now) }
{
    let more = items_to(queue.get().to, sent)?;
    if more.is_empty() {
        return Ok(queue.clone()?);
    }
    let mut items = queue.get().items.clone()?;
    items.append(more)?;
    let longer = with_items(items, queue.get())?;
    Ok(longer)
}

/// The queues with what was sent.
fn all_with_sent(
    sent: &Items<Parcel>,
    queues: &Items<Shared<Queue>>,
) -> Result<Items<Shared<Queue>>, AllocError>
    ensures { IfOk result (λ qs. qs ≡ map (with_sent sent.now) queues.now) }
{
    let mut after = Items::new(queues.allocator());
    for queue in queues.as_slice() {
        after.push(with_sent(sent, queue)?)?;
    }
    Ok(after)
}

/// The classes of the objects that were made.
fn born(next: u64, node: &Node) -> Result<Items<ClassId>, AllocError>
    ensures { IfOk result (λ classes. classes ≡ born next node.now) }
{
    let mut classes = Items::new(node.stack.allocator());
    for stored in node.heap.get().as_slice() {
        if next <= stored.get().serial {
            classes.push(stored.get().class)?;
        }
    }
    Ok(classes)
}

/// The classes with more behind them.
fn with_all(classes: &Classes, more: &Items<ClassId>) -> Result<Classes, AllocError>
    ensures { IfOk result (λ all. all ≡ classes.now ++ more.now) }
{
    let mut all = classes.clone()?;
    for class in more.as_slice() {
        all = all.with(*class)?;
    }
    Ok(all)
}

/// The classes with those of the objects that were made.
fn classes_after(station: &Station, node: &Node) -> Result<Classes, AllocError>
    ensures { IfOk result (λ classes.
        classes ≡ station.now.classes ++ born station.now.node.next_serial node.now) }
{
    let born = born(station.node.get().next_serial, node)?;
    let all = with_all(&station.classes, &born)?;
    Ok(all)
}

/// A station once its node is another and sent these parcels.
fn committed(
    node: &Shared<Node>,
    sent: &Items<Parcel>,
    station: &Station,
) -> Result<Shared<Station>, AllocError>
    ensures { IfOk result (λ s. s ≡ committed (sending sent.now node.now) station.now) }
{
    let queues = all_with_sent(sent, &station.queues)?;
    let classes = classes_after(station, node.get())?;
    let node = node.clone()?;
    let after = Station {
        port: station.port,
        node,
        queues,
        classes,
    };
    Shared::new(station.queues.allocator(), after)
}

/// The stations once one node is another and sent these parcels.
#[tactic(auto, using(do_machine::proofs::FirstPlace::first_steps))]
fn committed_in(
    port: NodeId,
    node: &Shared<Node>,
    sent: &Items<Parcel>,
    stations: Items<Shared<Station>>,
) -> Result<Items<Shared<Station>>, AllocError>
    ensures { IfOk result (λ ss. ss ≡ change_first (λ s. port == s.port)
        (committed (sending sent.now node.now)) stations) }
{
    let mut stations = stations;
    let Some(at) = station_at(&stations, port) else {
        return Ok(stations);
    };
    let station = committed(node, sent, item_at(&stations, at).get())?;
    stations.set(at, station);
    Ok(stations)
}

/// The state once one node is another and sent these parcels.
fn commit(
    port: NodeId,
    node: &Shared<Node>,
    sent: &Items<Parcel>,
    state: &State,
) -> Result<State, AllocError>
    ensures { IfOk result (λ s. s ≡ commit port (sending sent.now node.now) state.now) }
{
    let given = state.stations.clone()?;
    let stations = committed_in(port, node, sent, given)?;
    Ok(State { stations })
}

/// A state with what an event showed.
fn showed(shown: ShownList, state: State) -> Stepped
    ensures { result ≡ showed shown state }
{
    Stepped {
        state,
        outcome: Outcome {
            enabled: true,
            shown,
        },
    }
}

/// A state of which nothing is shown.
pub(crate) fn shows_nothing(state: State) -> Stepped
    ensures { result ≡ showed [] state }
{
    showed(ShownList::new(state.stations.allocator()), state)
}

/// A state that no event changed.
pub(crate) fn skipped(state: State) -> Stepped
    ensures { result ≡ skipped state }
{
    let shown = ShownList::new(state.stations.allocator());
    Stepped {
        state,
        outcome: Outcome {
            enabled: false,
            shown,
        },
    }
}

/// What a node's move comes to: the node, what it showed, and the state then.
#[derive(Drop)]
struct NodeMove {
    node: Shared<Node>,
    shown: ShownList,
    state: State,
}

/// The effect of a node is committed.
fn moving(port: NodeId, state: &State, effect: Effect) -> Result<NodeMove, AllocError>
    ensures node { IfOk result (λ m. m.node ≡ effect.node) }
    ensures shown { IfOk result (λ m. m.shown ≡ effect.shown) }
    ensures state { IfOk result (λ m. m.state ≡ commit port effect state.now) }
{
    let Effect { node, sent, shown } = effect;
    let node = Shared::new(sent.allocator(), node)?;
    let after = commit(port, &node, &sent, state)?;
    Ok(NodeMove {
        node,
        shown,
        state: after,
    })
}

/// A node moves: its effect is committed, and then it leaves what nothing holds any more, judged in
/// the state that it moved to.
pub(crate) fn moved(port: NodeId, state: &State, effect: Effect) -> Result<Stepped, AllocError>
    ensures { IfOk result (λ s. s ≡ moved port state.now effect) }
{
    let first = moving(port, state, effect)?;
    let leaves = leaving(&first.state, first.node.get())?;
    let last = moving(port, &first.state, leaves)?;
    let mut shown = first.shown;
    shown.append(last.shown)?;
    Ok(showed(shown, last.state))
}
