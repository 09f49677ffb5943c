//! Which own objects a node keeps.
//!
//! Whether all objects stay is first asked of the root, of slots and of invocations alone. Only
//! where one does not stay so, what peers have entries of is put together. The names are put in
//! order by a sort that finds runs, since slots name objects nearly in the order in which they
//! are stored. Each is looked for first behind the one found before.
ghost use Rattle.std.specs.{Prelude.{◌≡◌, ◌||◌, IfOk, filter}, List.list_all};
ghost use Rattle.do_packet.specs.Met.{has_object};
ghost use Rattle.do_machine.specs.{State.own, held.Kept.{is_root, kept}};
ghost use Rattle.do_machine.specs.held.Refers.{heap_objects, stack_objects};
ghost use Rattle.do_rules.specs.{HeldUp.stays_by, Judged.entry_in};

use crate::effect::given;
use crate::held::entered::held_up;
use crate::lists::{Test, all, keep};
use crate::node::named::Named;
use crate::node::objects::{heap_objects, push_stack};
use crate::node::own;
use do_base::{Items, Oids};
use do_behave::Invocation;
use do_machine::{Heap, Node, Shared, State, Stored};
use std::alloc::AllocError;

/// Whether an own object is the root.
fn is_root(node: &Node, serial: u64) -> bool
    ensures { result ≡ is_root node.now serial }
{
    match node.root {
        Some(root) => root == serial,
        None => false,
    }
}

/// Whether an object of a heap stays: it is the root, or held up, or a slot of the heap names it.
fn stays(node: &Node, held_up: &Named, named: &Named, stored: &Stored) -> bool
    ensures { result ≡ (is_root node.now stored.now.serial
        || has_object held_up.now (own node.now stored.now.serial))
        || has_object named.now (own node.now stored.now.serial) }
{
    let object = own(node, stored.serial);
    is_root(node, stored.serial) || held_up.has(&object) || named.has(&object)
}

/// Objects of a heap that stay, by the objects that slots name.
#[derive(Drop)]
struct Staying<'a> {
    node: &'a Node,
    held_up: &'a Named,
    named: &'a Named,
}

impl<'a> Test<Shared<Stored>> for Staying<'a> {
    ghost use Rattle.std.specs.Prelude.{◌||◌};
    ghost use Rattle.do_packet.specs.Met.{has_object};
    ghost use Rattle.do_machine.specs.{State.own, held.Kept.is_root};

    ghost passes = { λ staying stored. (is_root staying.node.now stored.serial
        || has_object staying.held_up.now (own staying.node.now stored.serial))
        || has_object staying.named.now (own staying.node.now stored.serial) };

    fn passes(&self, stored: &Shared<Stored>) -> bool {
        stays(self.node, self.held_up, self.named, stored.get())
    }
}

/// Whether each object of a node is the root, or among those that are held up, or among those that
/// slots name.
fn all_among(node: &Node, held_up: &Named, named: &Named) -> bool
    ensures { result ≡ list_all (λ x. (is_root node.now x.serial
        || has_object held_up.now (own node.now x.serial))
        || has_object named.now (own node.now x.serial)) node.now.heap }
{
    let staying = Staying {
        node,
        held_up,
        named,
    };
    all(node.heap.get().as_slice(), &staying)
}

/// The objects that invocations name.
fn called(stack: &Items<Invocation>) -> Result<Named, AllocError>
    ensures { IfOk result (λ named. named ≡ stack_objects stack.now) }
{
    let mut objects = Oids::new(stack.allocator());
    let done = push_stack(&mut objects, stack);
    Named::new(given(objects, done)?)
}

/// The objects that the slots of a heap name.
fn named_in(heap: &Heap) -> Result<Named, AllocError>
    ensures { IfOk result (λ named. named ≡ heap_objects heap.now) }
{
    Named::new(heap_objects(heap)?)
}

/// Whether each object stays even with no entry: it is the root, or an invocation or a slot names
/// it.
pub(crate) fn all_stay(node: &Node) -> Result<bool, AllocError>
    ensures { IfOk result (λ all. all ≡ list_all
        (stays_by (stack_objects node.now.stack) node.now node.now.heap) node.now.heap) }
{
    let called = called(&node.stack)?;
    let named = named_in(node.heap.get())?;
    let all = all_among(node, &called, &named);
    Ok(all)
}

/// The objects of a heap that stay, by the objects that slots name.
fn those_that_stay(
    node: &Node,
    held_up: &Named,
    named: &Named,
    heap: &Heap,
) -> Result<Heap, AllocError>
    ensures { IfOk result (λ xs. xs ≡ filter (λ x. (is_root node.now x.serial
        || has_object held_up.now (own node.now x.serial))
        || has_object named.now (own node.now x.serial)) heap.now) }
{
    let mut left = heap.clone()?;
    let staying = Staying {
        node,
        held_up,
        named,
    };
    keep(&mut left, &staying);
    Ok(left)
}

/// What is left of a heap once each object that does not stay is struck.
fn struck(node: &Node, held_up: &Named, heap: &Heap) -> Result<Heap, AllocError>
    ensures { IfOk result (λ xs. xs ≡ filter (stays_by held_up.now node.now heap.now) heap.now) }
{
    let named = named_in(heap)?;
    those_that_stay(node, held_up, &named, heap)
}

/// The objects that are kept: rounds of striking, up to the first that strikes nothing.
///
/// A round takes as long as the heap and what its slots name. Each but the last frees an object, so
/// over many steps there are hardly more rounds than steps.
pub(crate) fn kept(state: &State, node: &Node) -> Result<Heap, AllocError>
    ensures { IfOk result (λ xs. xs ≡ kept (entry_in state.now node.now) node.now) }
{
    let named = held_up(state, node)?;
    let held = Named::new(named)?;
    let mut heap = node.heap.get().clone()?;
    let mut rounds = heap.len();
    while rounds > 0 {
        let fewer = struck(node, &held, &heap)?;
        if fewer.len() == heap.len() {
            return Ok(fewer);
        }
        heap = fewer;
        rounds -= 1;
    }
    Ok(heap)
}
