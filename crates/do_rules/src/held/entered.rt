//! The own objects of a node that are held up beside the root and slots, as lists; which of them
//! are in use at a peer.
//!
//! Whether a peer has an entry of an object is asked of the list of all that it has. So it is
//! said once what an item exports and releases. The list is made for each question.
ghost use Rattle.std.specs.{Prelude.{◌≡◌, ◌++◌, IfOk, OnOk}, List.flat_map, Option.option_copied};
ghost use Rattle.do_machine.specs.{Entry.has_entry, Lists.some_passes, State.{is_open, node}};
ghost use Rattle.do_rules.specs.Exporting.{exports_of, releases_of};
ghost use Rattle.do_rules.specs.HeldUp.{entered, held_of, held_up, named_by};

use crate::effect::{Done, given};
use crate::node::naming::{push_exports, push_releases};
use crate::node::objects::push_stack;
use crate::node::{has_object, is_open};
use crate::state::{node_at, queue};
use do_base::{Items, NodeId, Oid, Oids};
use do_machine::{Item, Node, Shared, State};
use std::alloc::AllocError;

/// Appends the objects that a peer holds, where its end towards a home is open.
fn push_held(objects: &mut Oids, state: &State, home: NodeId, peer: NodeId) -> Done
    ensures { OnOk result (objects.new ≡ objects.old ++ held_of home (node state.now peer)) }
{
    let Some(holder) = node_at(state, peer) else {
        return Ok(());
    };
    if !is_open(holder, home) {
        return Ok(());
    }
    objects.extend_from_slice(holder.held.as_slice())
}

/// Appends the objects of their sender that the items of a queue, if there is one, export.
#[tactic(auto, using(do_base::proofs::ObjectsOfLists::object_steps))]
fn push_all_exports(objects: &mut Oids, from: NodeId, items: Option<&Items<Shared<Item>>>) -> Done
    ensures { OnOk result (objects.new
        ≡ objects.old ++ named_by (exports_of from) (option_copied items.entry)) }
{
    let Some(items) = items else {
        return Ok(());
    };
    for item in items.as_slice() {
        push_exports(objects, from, item.get())?;
    }
    Ok(())
}

/// Appends the objects of their receiver that the items of a queue, if there is one, release.
#[tactic(auto, using(do_base::proofs::ObjectsOfLists::object_steps))]
fn push_all_releases(objects: &mut Oids, to: NodeId, items: Option<&Items<Shared<Item>>>) -> Done
    ensures { OnOk result (objects.new
        ≡ objects.old ++ named_by (releases_of to) (option_copied items.entry)) }
{
    let Some(items) = items else {
        return Ok(());
    };
    for item in items.as_slice() {
        push_releases(objects, to, item.get())?;
    }
    Ok(())
}

/// Whether a home has its end towards a peer open.
fn is_reached(state: &State, peer: NodeId, home: NodeId) -> bool
    ensures { result ≡ some_passes (λ n. is_open n peer) (node state.now home) }
{
    match node_at(state, home) {
        Some(node) => is_open(node, peer),
        None => false,
    }
}

/// Appends the objects of a home that have an entry for a peer.
#[tactic(auto, using(do_base::proofs::ObjectsOfLists::object_steps))]
fn push_entered(objects: &mut Oids, state: &State, home: NodeId, peer: NodeId) -> Done
    ensures { OnOk result (objects.new ≡ objects.old ++ entered state.now home peer) }
{
    if !is_reached(state, peer, home) {
        return Ok(());
    }
    push_held(objects, state, home, peer)?;
    push_all_exports(objects, home, queue(state, home, peer))?;
    push_all_releases(objects, home, queue(state, peer, home))
}

/// Whether an object of a node has an entry for a peer: it may be in use there.
///
/// Its one error is that memory ran out.
pub fn has_entry(state: &State, peer: NodeId, object: &Oid) -> Result<bool, AllocError>
    ensures { IfOk result (λ entry. entry ≡ has_entry state.now peer object.now) }
{
    let home = object.node;
    let mut entered = Oids::new(state.stations.allocator());
    push_entered(&mut entered, state, home, peer)?;
    let entry = has_object(&entered, object);
    Ok(entry)
}

/// Appends the objects of a node that have an entry for a peer.
#[tactic(auto, using(do_base::proofs::ObjectsOfLists::object_steps))]
fn push_all_entered(objects: &mut Oids, state: &State, node: &Node) -> Done
    ensures { OnOk result (objects.new
        ≡ objects.old ++ flat_map (entered state.now node.now.port) node.now.open_to) }
{
    for peer in node.open_to.as_slice() {
        push_entered(objects, state, node.port, *peer)?;
    }
    Ok(())
}

/// Appends the objects of a node that an invocation names or that have an entry for a peer.
fn push_held_up(objects: &mut Oids, state: &State, node: &Node) -> Done
    ensures { OnOk result (objects.new ≡ objects.old ++ held_up state.now node.now) }
{
    push_stack(objects, &node.stack)?;
    push_all_entered(objects, state, node)
}

/// The objects of a node that an invocation names or that have an entry for a peer.
pub(crate) fn held_up(state: &State, node: &Node) -> Result<Oids, AllocError>
    ensures { IfOk result (λ os. os ≡ held_up state.now node.now) }
{
    let mut objects = Oids::new(node.stack.allocator());
    let done = push_held_up(&mut objects, state, node);
    given(objects, done)
}
