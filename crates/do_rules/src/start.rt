//! How a node is started.
//!
//! A start asks nothing of other nodes, so the plain machine judges it by a state with no
//! stations.
ghost use Rattle.std.specs.Prelude.{◌≡◌, IfOk};
ghost use Rattle.do_machine.specs.{Effect.only, Start.{begun, start_effect}, run.Fresh.pushed};

use crate::basis::Basis;
use crate::effect::{given, unchanged};
use crate::judged::Context;
use crate::node::methods::method_for;
use crate::run::fresh::fresh;
use crate::take::lines::object_at;
use do_base::{Items, Text, Values};
use do_behave::{Invocation, Reason};
use do_class::ClassTable;
use do_machine::{Effect, Node, State};
use std::alloc::AllocError;

/// The invocation that a start begins: the node is idle, its root has the method, and the values
/// fit.
pub fn begun<N: Basis>(
    basis: &N,
    selector: &Text,
    values: &Values,
) -> Result<Option<Invocation>, AllocError>
    ensures { IfOk result (λ i. i ≡ begun (N.context basis.now).table selector.now values.now
        (N.context basis.now).node) }
{
    if basis.top().is_some() {
        return Ok(None);
    }
    let Some(root) = basis.root() else {
        return Ok(None);
    };
    let Some(method) = method_for(basis.table(), basis.own_class(root), selector) else {
        return Ok(None);
    };
    if !method.signature.args_fit(values) {
        return Ok(None);
    }
    let object = object_at(basis.port(), root);
    Ok(Some(fresh(object, method.id, Reason::Start, values)?))
}

/// An invocation begins at a node that is idle.
fn started(node: &Node, invocation: Invocation) -> Result<Effect, AllocError>
    ensures { IfOk result (λ e. e ≡ only (pushed invocation node.now)) }
{
    let Ok(mut effect) = unchanged(node) else {
        drop(invocation);
        return Err(AllocError);
    };
    let done = effect.node.stack.insert(0, invocation);
    given(effect, done)
}

/// What a start does, where it is enabled: the node is idle, its root has the method, and the
/// values fit.
pub fn start_effect(
    table: &ClassTable,
    selector: &Text,
    values: &Values,
    node: &Node,
) -> Result<Option<Effect>, AllocError>
    ensures { IfOk result (λ e. e ≡ start_effect table.now selector.now values.now node.now) }
{
    // A start asks nothing of the nodes around.
    let stations = Items::new(node.stack.allocator());
    let state = State { stations };
    let context = Context {
        table,
        state: &state,
        node,
    };
    match begun(&context, selector, values)? {
        Some(invocation) => Ok(Some(started(node, invocation)?)),
        None => Ok(None),
    }
}
