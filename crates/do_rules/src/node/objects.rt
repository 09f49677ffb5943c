//! Which objects values, invocations and nodes name.
ghost use Rattle.std.specs.Prelude.{◌≡◌, ◌++◌, IfOk, OnOk, map};
ghost use Rattle.do_base.specs.values.Values.{objects_of};
ghost use Rattle.do_machine.specs.held.Refers.{heap_objects, invocation_objects, node_objects};
ghost use Rattle.do_machine.specs.held.Refers.{objects_in, stack_objects, state_values};

use crate::effect::{Done, given};
use do_base::{Items, Oids, Value, Values};
use do_behave::{Answer, Frame, InvState, Invocation};
use do_machine::{Heap, Lends, Node, Wanted};
use std::alloc::AllocError;

/// Appends the objects in a value. The calls go as deep as its lists nest.
#[cycle(objects)]
#[tactic(auto, using(do_base::proofs::ObjectsOfLists::object_steps))]
fn push_objects(objects: &mut Oids, value: &Value) -> Done
    ensures { OnOk result (objects.new ≡ objects.old ++ objects_of value.now) }
{
    match value {
        Value::Obj(object) => objects.push(*object),
        Value::List(values) => push_all(objects, values),
        _ => Ok(()),
    }
}

/// Appends the objects in values.
#[cycle(objects)]
#[tactic(auto, using(do_base::proofs::ObjectsOfLists::object_steps))]
fn push_all(objects: &mut Oids, values: &Values) -> Done
    ensures { OnOk result (objects.new ≡ objects.old ++ objects_in values.now) }
{
    for value in values.as_slice() {
        push_objects(objects, value)?;
    }
    Ok(())
}

/// Appends the objects in locals.
#[tactic(auto, using(do_base::proofs::ObjectsOfLists::object_steps))]
fn push_locals(objects: &mut Oids, locals: &Frame) -> Done
    ensures { OnOk result (objects.new ≡ objects.old ++ objects_in locals.now) }
{
    for local in locals.as_slice() {
        push_objects(objects, local.value())?;
    }
    Ok(())
}

/// Appends the objects in an answer that was not used yet.
#[tactic(auto, using(do_base::proofs::ObjectsOfLists::object_steps))]
fn push_state(objects: &mut Oids, state: &InvState) -> Done
    ensures { OnOk result (objects.new ≡ objects.old ++ objects_in (state_values state.now)) }
{
    if let InvState::Answered(Answer::Given { result, outs }) = state {
        push_objects(objects, result)?;
        push_all(objects, outs)?;
    }
    Ok(())
}

/// Appends the objects that an invocation names.
#[tactic(auto, using(do_base::proofs::ObjectsOfLists::object_steps))]
fn push_invocation(objects: &mut Oids, invocation: &Invocation) -> Done
    ensures { OnOk result (objects.new ≡ objects.old ++ invocation_objects invocation.now) }
{
    objects.push(invocation.object)?;
    push_locals(objects, &invocation.locals)?;
    push_state(objects, &invocation.state)
}

/// The objects that the slots of stored objects name.
pub(crate) fn heap_objects(heap: &Heap) -> Result<Oids, AllocError>
    ensures { IfOk result (λ os. os ≡ heap_objects heap.now) }
{
    let mut objects = Oids::new(heap.allocator());
    for stored in heap.as_slice() {
        push_all(&mut objects, &stored.get().slots)?;
    }
    Ok(objects)
}

/// Appends the objects that invocations name.
pub(crate) fn push_stack(objects: &mut Oids, stack: &Items<Invocation>) -> Done
    ensures { OnOk result (objects.new ≡ objects.old ++ stack_objects stack.now) }
{
    for invocation in stack.as_slice() {
        push_invocation(objects, invocation)?;
    }
    Ok(())
}

/// Appends the objects that are lent.
fn push_lent(objects: &mut Oids, lent: &Lends) -> Done
    ensures { OnOk result (objects.new ≡ objects.old ++ map (λ l. l.object) lent.now) }
{
    for lend in lent.as_slice() {
        objects.push(lend.object)?;
    }
    Ok(())
}

/// Appends the objects that were asked for.
fn push_asked(objects: &mut Oids, asked: &Items<Wanted>) -> Done
    ensures { OnOk result (objects.new ≡ objects.old ++ map (λ w. w.object) asked.now) }
{
    for wanted in asked.as_slice() {
        objects.push(wanted.object)?;
    }
    Ok(())
}

/// Appends the objects to which a node refers beside those that slots name.
fn push_beside_heap(objects: &mut Oids, node: &Node) -> Done
    ensures { OnOk result (objects.new ≡ objects.old ++ stack_objects node.now.stack
        ++ map (λ l. l.object) node.now.lent ++ map (λ w. w.object) node.now.asked) }
{
    push_stack(objects, &node.stack)?;
    push_lent(objects, &node.lent)?;
    push_asked(objects, &node.asked)
}

/// All objects to which a node refers: in slots, invocations, lends and asks.
pub(crate) fn node_objects(node: &Node) -> Result<Oids, AllocError>
    ensures { IfOk result (λ os. os ≡ node_objects node.now) }
{
    let mut objects = heap_objects(node.heap.get())?;
    let done = push_beside_heap(&mut objects, node);
    given(objects, done)
}
