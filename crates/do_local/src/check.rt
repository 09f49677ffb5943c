//! What a check lists of a state.
ghost use Rattle.std.specs.{Prelude.{◌≡◌, IfOk, map, option_map}, List.flat_map};
ghost use Rattle.do_machine.specs.{State.{own, ports}, check.Snapshot.{closed_ends, entries_for}};
ghost use Rattle.do_machine.specs.check.Snapshot.{node_line, object_line, snapshot};

use do_base::{NodeId, Oid, Peers};
use do_machine::{
    Entry, EntryList, Node, NodeLine, NodeLines, ObjLine, ObjLines, Snapshot, State, Stored,
};
use do_rules::{has_entry, is_open, own};
use std::alloc::AllocError;

/// The ports of a state's nodes.
fn ports(state: &State) -> Result<Peers, AllocError>
    ensures { IfOk result (λ ps. ps ≡ ports state.now) }
{
    let mut ports = Peers::new(state.stations.allocator());
    for station in state.stations.as_slice() {
        ports.push(station.get().port)?;
    }
    Ok(ports)
}

/// The peers towards which a node's end is closed.
fn closed_ends(state: &State, node: &Node) -> Result<Peers, AllocError>
    ensures { IfOk result (λ ps. ps ≡ closed_ends state.now node.now) }
{
    let ports = ports(state)?;
    let mut closed = Peers::new(ports.allocator());
    for port in ports.as_slice() {
        if *port != node.port && !is_open(node, *port) {
            closed.push(*port)?;
        }
    }
    Ok(closed)
}

/// A stored object, as a check lists it.
fn object_line(node: &Node, stored: &Stored) -> Result<ObjLine, AllocError>
    ensures { IfOk result (λ line. line ≡ object_line node.now stored.now) }
{
    let slots = stored.slots.clone()?;
    Ok(ObjLine {
        oid: own(node, stored.serial),
        class: stored.class,
        slots,
    })
}

/// The stored objects of a node.
fn object_lines(node: &Node) -> Result<ObjLines, AllocError>
    ensures { IfOk result (λ lines. lines ≡ map (object_line node.now) node.now.heap) }
{
    let mut lines = ObjLines::new(node.stack.allocator());
    for stored in node.heap.get().as_slice() {
        lines.push(object_line(node, stored.get())?)?;
    }
    Ok(lines)
}

/// The entries that a peer has of a node's objects.
#[tactic(auto, using(crate::proofs::Passing::passing_steps))]
fn entries_for(state: &State, node: &Node, peer: NodeId) -> Result<EntryList, AllocError>
    ensures { IfOk result (λ entries. entries ≡ entries_for state.now node.now peer) }
{
    let mut entries = EntryList::new(node.stack.allocator());
    for stored in node.heap.get().as_slice() {
        let object = own(node, stored.get().serial);
        if !has_entry(state, peer, &object)? {
            continue;
        }
        entries.push(Entry { peer, object })?;
    }
    Ok(entries)
}

/// The entries that all peers have.
fn all_entries(state: &State, node: &Node) -> Result<EntryList, AllocError>
    ensures { IfOk result (λ entries.
        entries ≡ flat_map (entries_for state.now node.now) node.now.open_to) }
{
    let mut entries = EntryList::new(node.stack.allocator());
    for peer in node.open_to.as_slice() {
        entries.append(entries_for(state, node, *peer)?)?;
    }
    Ok(entries)
}

/// The name of the root, where there is one.
fn root_name(node: &Node) -> Option<Oid>
    ensures { result ≡ option_map (own node.now) node.now.root }
{
    match node.root {
        Some(serial) => Some(own(node, serial)),
        None => None,
    }
}

/// A node, as a check lists it.
fn node_line(state: &State, node: &Node) -> Result<NodeLine, AllocError>
    ensures { IfOk result (λ line. line ≡ node_line state.now node.now) }
{
    let closed = closed_ends(state, node)?;
    let objects = object_lines(node)?;
    let entries = all_entries(state, node)?;
    Ok(NodeLine {
        node: node.port,
        root: root_name(node),
        closed,
        objects,
        entries,
    })
}

/// All nodes, as a check lists them.
fn node_lines(state: &State) -> Result<NodeLines, AllocError>
    ensures { IfOk result (λ lines.
        lines ≡ map (λ s. node_line state.now s.node) state.now.stations) }
{
    let mut lines = NodeLines::new(state.stations.allocator());
    for station in state.stations.as_slice() {
        lines.push(node_line(state, station.get().node.get())?)?;
    }
    Ok(lines)
}

/// The nodes by rising port, each with its root, its closed ends, its objects and their entries.
pub(crate) fn snapshot(state: &State) -> Result<Snapshot, AllocError>
    ensures { IfOk result (λ listed. listed ≡ snapshot state.now) }
{
    let nodes = node_lines(state)?;
    Ok(Snapshot { nodes })
}
