//! What follows each step of a node: it frees objects and leaves others.
ghost use Rattle.std.specs.Prelude.{◌≡◌, ◌==◌, ◌++◌, ◌∷◌, [], IfOk, OnOk, filter, map, not};
ghost use Rattle.std.specs.List.{list_any};
ghost use Rattle.do_packet.specs.Met.{has_object};
ghost use Rattle.do_base.specs.declared.events.shown.Shown.TheVariants.{Free};
ghost use Rattle.do_machine.specs.{Objects.object_at, held.{Kept.kept, Leaving.dropping}};
ghost use Rattle.do_machine.specs.held.{Leaving.{freeing, leaving, left}, Refers.node_objects};
ghost use Rattle.do_rules.specs.{Doing.and_then, Judged.entry_in};

use crate::effect::{Done, given, unchanged};
use crate::held::kept::{all_stay, kept};
use crate::lists::{Test, keep};
use crate::node::named::Named;
use crate::node::objects::node_objects;
use crate::take::lines::object_at;
use do_base::{Items, NodeId, Oid, Oids, Shown, ShownList};
use do_machine::{Effect, Heap, Item, Node, Parcel, Shared, State, Stored};
use std::alloc::AllocError;

/// The names of a node's stored objects.
fn names_of(port: NodeId, heap: &Heap) -> Result<Oids, AllocError>
    ensures { IfOk result (λ os. os ≡ map (λ x. object_at port x.serial) heap.now) }
{
    let mut names = Oids::new(heap.allocator());
    for stored in heap.as_slice() {
        names.push(object_at(port, stored.get().serial))?;
    }
    Ok(names)
}

/// Whether a node's object is not among those left.
fn is_gone(port: NodeId, left: &Named, stored: &Stored) -> bool
    ensures { result ≡ not (has_object left.now (object_at port stored.now.serial)) }
{
    let object = object_at(port, stored.serial);
    !left.has(&object)
}

/// How it is shown that a node's object was freed.
fn free_line(port: NodeId, stored: &Stored) -> Shown
    ensures { result ≡ Free (object_at port stored.now.serial) }
{
    Shown::Free(object_at(port, stored.serial))
}

/// Shows the objects of a node that are not among those left.
fn show_gone(lines: &mut ShownList, port: NodeId, before: &Heap, left: &Named) -> Done
    ensures { OnOk result (lines.new ≡ lines.old ++ map (λ x. Free (object_at port x.serial))
        (filter (λ x. not (has_object left.now (object_at port x.serial))) before.now)) }
{
    for stored in before.as_slice() {
        if is_gone(port, left, stored.get()) {
            lines.push(free_line(port, stored.get()))?;
        }
    }
    Ok(())
}

/// Shows the objects of a node that are stored no more.
fn show_freed(lines: &mut ShownList, port: NodeId, before: &Heap, heap: &Heap) -> Done
    ensures { OnOk result (lines.new ≡ lines.old ++ map (λ x. Free (object_at port x.serial))
        (filter (λ x. not (list_any (λ y. y.serial == x.serial) heap.now)) before.now)) }
{
    let names = names_of(port, heap)?;
    let left = Named::new(names)?;
    show_gone(lines, port, before, &left)?;
    Ok(())
}

/// A node frees what it does not keep. What costs most is looked at last: mostly all objects stay
/// by what the node itself has.
#[tactic(auto, using(crate::proofs::Left::whole_steps))]
fn free(effect: &mut Effect, state: &State) -> Done
    ensures { OnOk result (effect.new ≡ and_then effect.old
        (λ n. freeing (kept (entry_in state.now n) n) n)) }
{
    if all_stay(&effect.node)? {
        return Ok(());
    }
    let heap = kept(state, &effect.node)?;
    let port = effect.node.port;
    show_freed(&mut effect.shown, port, effect.node.heap.get(), &heap)?;
    effect.node.heap = Shared::new(effect.node.stack.allocator(), heap)?;
    Ok(())
}

impl Test<Oid> for Named {
    ghost use Rattle.do_packet.specs.Met.{has_object};

    ghost passes = { λ named object. has_object named object };

    fn passes(&self, object: &Oid) -> bool {
        self.has(object)
    }
}

/// Tells the home of an object that it was left.
fn leave(sent: &mut Items<Parcel>, object: &Oid) -> Done
    ensures { OnOk result (sent.new ≡ sent.old ++ left object.now ∷ []) }
{
    let item = Item::Left {
        serial: object.serial,
    };
    let item = Shared::new(sent.allocator(), item)?;
    sent.push(Parcel {
        to: object.node,
        item,
    })
}

/// Tells the homes of the objects that are not referred to that these were left.
fn leave_others(sent: &mut Items<Parcel>, held: &Oids, referred: &Named) -> Done
    ensures { OnOk result (sent.new
        ≡ sent.old ++ map left (filter (λ o. not (has_object referred.now o)) held.now)) }
{
    for object in held.as_slice() {
        if !referred.has(object) {
            leave(sent, object)?;
        }
    }
    Ok(())
}

/// What is held and not referred to is left, and its home is told.
fn leave_unreferred(effect: &mut Effect, referred: &Named) -> Done
    ensures { OnOk result (effect.new ≡ and_then effect.old (dropping referred.now)) }
{
    leave_others(&mut effect.sent, &effect.node.held, referred)?;
    keep(&mut effect.node.held, referred);
    Ok(())
}

/// What a node no longer refers to is left, and its home is told.
fn drop_held(effect: &mut Effect) -> Done
    ensures { OnOk result (effect.new ≡ and_then effect.old
        (λ n. dropping (node_objects n) n)) }
{
    if effect.node.held.is_empty() {
        return Ok(());
    }
    let referred = Named::new(node_objects(&effect.node)?)?;
    leave_unreferred(effect, &referred)
}

/// A node frees what it does not keep, and leaves what it then no longer refers to.
fn leave_all(effect: &mut Effect, state: &State) -> Done
    ensures { OnOk result (effect.new ≡ and_then effect.old
        (λ n. leaving (entry_in state.now n) n)) }
{
    free(effect, state)?;
    drop_held(effect)
}

/// A node frees what it does not keep, and leaves what it then no longer refers to.
pub fn leaving(state: &State, node: &Node) -> Result<Effect, AllocError>
    ensures { IfOk result (λ e. e ≡ leaving (entry_in state.now node.now) node.now) }
{
    let mut effect = unchanged(node)?;
    let done = leave_all(&mut effect, state);
    given(effect, done)
}
