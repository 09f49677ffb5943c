//! What each event does to a state.
ghost use Rattle.std.specs.Prelude.{◌≡◌, ◌<◌, IfOk, drop, length};
ghost use Rattle.do_machine.specs.Step.{close, enabled_step, moved_by, run, start, step, take};
ghost use Rattle.do_machine.specs.Step.{timeout};

use crate::commit::{moved, shows_nothing, skipped};
use crate::losing::lose;
use crate::stations::with_queue_of;
use do_base::{Event, Items, NodeId, Text, Values};
use do_behave::Behaviour;
use do_class::ClassTable;
use do_machine::{Effect, Item, Shared, State, Stepped};
use do_rules::{
    Context, can_take, closing, is_open, item_at, node_at, queue, run_effect, start_effect,
    time_out,
};
use std::alloc::AllocError;

/// Where there is an effect, the node moves.
fn moved_by(
    port: NodeId,
    state: &State,
    effect: Option<Effect>,
) -> Result<Option<Stepped>, AllocError>
    ensures { IfOk result (λ s. s ≡ moved_by port state.now effect) }
{
    match effect {
        Some(effect) => Ok(Some(moved(port, state, effect)?)),
        None => Ok(None),
    }
}

/// The node of a port is started.
fn start(
    table: &ClassTable,
    state: &State,
    port: NodeId,
    selector: &Text,
    values: &Values,
) -> Result<Option<Stepped>, AllocError>
    ensures { IfOk result (λ s. s ≡ start table.now state.now port selector.now values.now) }
{
    let Some(node) = node_at(state, port) else {
        return Ok(None);
    };
    moved_by(port, state, start_effect(table, selector, values, node)?)
}

/// The top invocation of a node does one act.
fn run<B: Behaviour>(
    table: &ClassTable,
    behaviour: &B,
    state: &State,
    port: NodeId,
) -> Result<Option<Stepped>, AllocError>
    ensures { IfOk result (λ s. s ≡ run table.now (B.act behaviour.now) state.now port) }
{
    let Some(node) = node_at(state, port) else {
        return Ok(None);
    };
    let context = Context { table, state, node };
    moved_by(port, state, run_effect(context, behaviour)?)
}

/// Items but the oldest.
fn without_oldest(items: &Items<Shared<Item>>) -> Result<Items<Shared<Item>>, AllocError>
    requires { 0 < length items.now }
    ensures { IfOk result (λ is. is ≡ drop 1 items.now) }
{
    let mut rest = items.clone()?;
    rest.remove(0);
    Ok(rest)
}

/// A node takes the oldest item that waits from another.
fn take(
    table: &ClassTable,
    state: &State,
    port: NodeId,
    from: NodeId,
) -> Result<Option<Stepped>, AllocError>
    ensures { IfOk result (λ s. s ≡ take table.now state.now port from) }
{
    let Some(node) = node_at(state, port) else {
        return Ok(None);
    };
    if !can_take(node, from) {
        return Ok(None);
    }
    let Some(waiting) = queue(state, from, port) else {
        return Ok(None);
    };
    if waiting.is_empty() {
        return Ok(None);
    }
    let item = item_at(waiting, 0).get();
    let taken = with_queue_of(from, port, without_oldest(waiting)?, state)?;
    let context = Context {
        table,
        state: &taken,
        node,
    };
    let effect = context.take_effect(from, item)?;
    Ok(Some(moved(port, &taken, effect)?))
}

/// A node closes its end of the connection to a peer.
fn close(state: &State, port: NodeId, peer: NodeId) -> Result<Option<Stepped>, AllocError>
    ensures { IfOk result (λ s. s ≡ close state.now port peer) }
{
    let Some(node) = node_at(state, port) else {
        return Ok(None);
    };
    if !is_open(node, peer) {
        return Ok(None);
    }
    let effect = closing(peer, node)?;
    Ok(Some(moved(port, state, effect)?))
}

/// The top invocation of a node waits no longer for its call.
fn timeout(state: &State, port: NodeId) -> Result<Option<Stepped>, AllocError>
    ensures { IfOk result (λ s. s ≡ timeout state.now port) }
{
    let Some(node) = node_at(state, port) else {
        return Ok(None);
    };
    moved_by(port, state, time_out(node)?)
}

/// What an event does, where it is enabled.
fn enabled_step<B: Behaviour>(
    table: &ClassTable,
    behaviour: &B,
    state: &State,
    event: &Event,
) -> Result<Option<Stepped>, AllocError>
    ensures { IfOk result (λ s.
        s ≡ enabled_step table.now (B.act behaviour.now) state.now event.now) }
{
    match event {
        Event::Start {
            node,
            selector,
            values,
        } => start(table, state, *node, selector, values),
        Event::Run { node } => run(table, behaviour, state, *node),
        Event::Take { node, from } => take(table, state, *node, *from),
        Event::Close { node, peer } => close(state, *node, *peer),
        Event::Lose { from, to, after } => lose(state, *from, *to, *after),
        Event::Timeout { node } => timeout(state, *node),
        Event::Check => Ok(Some(shows_nothing(state.clone()?))),
    }
}

/// What an event does: one that is not enabled changes nothing.
pub(crate) fn step<B: Behaviour>(
    table: &ClassTable,
    behaviour: &B,
    state: &State,
    event: &Event,
) -> Result<Stepped, AllocError>
    ensures { IfOk result (λ s. s ≡ step table.now (B.act behaviour.now) state.now event.now) }
{
    match enabled_step(table, behaviour, state, event)? {
        Some(stepped) => Ok(stepped),
        None => Ok(skipped(state.clone()?)),
    }
}
