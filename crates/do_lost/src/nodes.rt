//! The objects that a node names beside the slots of its stored objects.
ghost use Rattle.std.specs.Prelude.{◌≡◌, ◌++◌, OnOk, map};
ghost use Rattle.do_machine.specs.held.Refers.{invocation_objects, objects_in, stack_objects};
ghost use Rattle.do_machine.specs.held.Refers.{state_values};
ghost use Rattle.do_lost.specs.Named.{node_names, root_names};

use do_base::{Items, Oid, Oids};
use do_behave::{Answer, Frame, InvState, Invocation};
use do_leaks::{push_all_objects, push_objects};
use do_machine::{Lends, Node, Wanted};
use std::alloc::AllocError;

/// Appends the objects in locals.
#[tactic(auto, using(do_base::proofs::ObjectsOfLists::object_steps))]
fn push_locals(objects: &mut Oids, locals: &Frame) -> Result<(), AllocError>
    ensures { OnOk result (objects.new ≡ objects.old ++ objects_in locals.now) }
{
    for local in locals.as_slice() {
        push_objects(objects, local.value())?;
    }
    Ok(())
}

/// Appends the objects in an answer that was not used yet.
#[tactic(auto, using(do_base::proofs::ObjectsOfLists::object_steps))]
fn push_state(objects: &mut Oids, state: &InvState) -> Result<(), AllocError>
    ensures { OnOk result (objects.new ≡ objects.old ++ objects_in (state_values state.now)) }
{
    if let InvState::Answered(Answer::Given { result, outs }) = state {
        push_objects(objects, result)?;
        push_all_objects(objects, outs)?;
    }
    Ok(())
}

/// Appends the objects that an invocation names: its own, those in its locals, and those in an
/// answer that it did not use yet.
///
/// If memory runs out, some of them may have been appended.
#[tactic(auto, using(do_base::proofs::ObjectsOfLists::object_steps))]
pub fn push_invocation(objects: &mut Oids, invocation: &Invocation) -> Result<(), AllocError>
    ensures { OnOk result (objects.new ≡ objects.old ++ invocation_objects invocation.now) }
{
    objects.push(invocation.object)?;
    push_locals(objects, &invocation.locals)?;
    push_state(objects, &invocation.state)
}

/// Appends the objects that invocations name.
fn push_stack(objects: &mut Oids, stack: &Items<Invocation>) -> Result<(), AllocError>
    ensures { OnOk result (objects.new ≡ objects.old ++ stack_objects stack.now) }
{
    for invocation in stack.as_slice() {
        push_invocation(objects, invocation)?;
    }
    Ok(())
}

/// Appends the objects that are lent.
fn push_lent(objects: &mut Oids, lent: &Lends) -> Result<(), AllocError>
    ensures { OnOk result (objects.new ≡ objects.old ++ map (λ l. l.object) lent.now) }
{
    for lend in lent.as_slice() {
        objects.push(lend.object)?;
    }
    Ok(())
}

/// Appends the objects that were asked for.
fn push_asked(objects: &mut Oids, asked: &Items<Wanted>) -> Result<(), AllocError>
    ensures { OnOk result (objects.new ≡ objects.old ++ map (λ w. w.object) asked.now) }
{
    for wanted in asked.as_slice() {
        objects.push(wanted.object)?;
    }
    Ok(())
}

/// Appends the root of a node, if it has one.
fn push_root(objects: &mut Oids, node: &Node) -> Result<(), AllocError>
    ensures { OnOk result (objects.new ≡ objects.old ++ root_names node.now) }
{
    match node.root {
        Some(serial) => objects.push(Oid {
            node: node.port,
            serial,
        }),
        None => Ok(()),
    }
}

/// Appends what a node names beside the slots of its stored objects.
#[tactic(auto, using(std::proofs::lemmas::List::append_assoc))]
pub(crate) fn push_node(objects: &mut Oids, node: &Node) -> Result<(), AllocError>
    ensures { OnOk result (objects.new ≡ objects.old ++ node_names node.now) }
{
    push_root(objects, node)?;
    push_stack(objects, &node.stack)?;
    push_lent(objects, &node.lent)?;
    push_asked(objects, &node.asked)
}
