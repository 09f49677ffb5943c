//! What a node names: its root, and what invocations, lends and asks name.
ghost use Rattle.std.specs.Prelude.{◌≡◌, ◌++◌, IfOk, OnOk};
ghost use Rattle.do_base.specs.names.Names.{ObjectName};
ghost use Rattle.do_lost.specs.Named.{node_names, root_names};
ghost use Rattle.do_machine.specs.held.Refers.{stack_objects};
ghost use Rattle.do_packet.specs.Met.{has_object};

use do_base::{Oid, Oids};
use do_lost::push_invocation;
use do_part::Part;
use std::alloc::AllocError;

/// Appends the root, if there is one.
fn push_root(objects: &mut Oids, part: &Part) -> Result<(), AllocError>
    ensures { OnOk result (objects.new ≡ objects.old ++ root_names part.now.own.node) }
{
    let node = part.port();
    match part.root() {
        Some(serial) => objects.push(Oid { node, serial }),
        None => Ok(()),
    }
}

/// Appends the objects that the invocations name, from the top on.
fn push_stack(objects: &mut Oids, part: &Part) -> Result<(), AllocError>
    ensures { OnOk result (objects.new ≡ objects.old ++ stack_objects part.now.own.node.stack) }
{
    let depth = part.depth();
    for below in 0..depth {
        if let Some(invocation) = part.at(depth - 1 - below) {
            push_invocation(objects, invocation)?;
        }
    }
    Ok(())
}

/// The objects that a node names beside the slots of its objects: its root, those that its
/// invocations name, and those that it lends and asks for. One may stand there more than once.
///
/// The one error is that memory ran out.
#[tactic(auto, using(crate::proofs::NodeNames::naming_steps))]
pub fn named(part: &Part) -> Result<Oids, AllocError>
    ensures { IfOk result (λ objects. (o : ObjectName) →
        has_object objects o ≡ has_object (node_names part.now.own.node) o) }
{
    let mut objects = Oids::new(part.allocator());
    push_root(&mut objects, part)?;
    push_stack(&mut objects, part)?;
    objects.append(part.named()?)?;
    Ok(objects)
}
