//! How a node closes its end of the connection to a peer.
ghost use Rattle.std.specs.Prelude.{◌≡◌, IfOk, OnOk, map};
ghost use Rattle.do_machine.specs.ends.Closing.{asked_of, closing, parted, serials_of};
ghost use Rattle.do_machine.specs.{ends.Closing.without_answer, Effect.queueing};
ghost use Rattle.do_machine.specs.declared.item.Item.TheVariants.{End};
ghost use Rattle.do_rules.specs.Doing.{and_then};

use crate::effect::{Done, given, queue, unchanged};
use crate::ends::peers::BesidePeer;
use crate::lend::asking::settle_all;
use crate::lists::keep;
use crate::run::changes::be_answered;
use do_base::{Exc, Items, NodeId, Oids};
use do_behave::{Answer, InvState, Invocation};
use do_machine::{Effect, Item, Node, Wanted};
use std::alloc::AllocError;

/// The serials of a peer's objects.
fn serials_of(peer: NodeId, objects: &Oids) -> Result<Items<u64>, AllocError>
    ensures { IfOk result (λ ss. ss ≡ serials_of peer objects.now) }
{
    let mut serials = Items::new(objects.allocator());
    for object in objects.as_slice() {
        if object.node == peer {
            serials.push(object.serial)?;
        }
    }
    Ok(serials)
}

/// An invocation loses a peer: if it waits for its answer, it has an exception.
fn lose(peer: NodeId, invocation: &mut Invocation)
    ensures { invocation.new ≡ without_answer peer invocation.old }
{
    let InvState::Waits { peer: asked, .. } = &invocation.state else {
        return;
    };
    if *asked == peer {
        be_answered(invocation, Answer::Raised(Exc::ConnectionDied));
    }
}

/// A copy of an invocation, which loses a peer.
fn without_answer(peer: NodeId, invocation: &Invocation) -> Result<Invocation, AllocError>
    ensures { IfOk result (λ i. i ≡ without_answer peer invocation.now) }
{
    let mut next = invocation.clone()?;
    lose(peer, &mut next);
    Ok(next)
}

/// Invocations that lose a peer.
fn stack_without(peer: NodeId, stack: &Items<Invocation>) -> Result<Items<Invocation>, AllocError>
    ensures { IfOk result (λ is. is ≡ map (without_answer peer) stack.now) }
{
    let mut after = Items::new(stack.allocator());
    for invocation in stack.as_slice() {
        after.push(without_answer(peer, invocation)?)?;
    }
    Ok(after)
}

/// Takes from a node what it had with the peer: objects held, lends, asks, late calls and calls.
fn part(peer: NodeId, node: &mut Node) -> Done
    ensures { OnOk result (node.new ≡ parted peer node.old) }
{
    node.stack = stack_without(peer, &node.stack)?;
    let others = BesidePeer(peer);
    keep(&mut node.open_to, &others);
    keep(&mut node.held, &others);
    keep(&mut node.lent, &others);
    keep(&mut node.asked, &others);
    keep(&mut node.late, &others);
    Ok(())
}

/// The asks that a peer was to answer.
fn asked_of(peer: NodeId, node: &Node) -> Result<Items<Wanted>, AllocError>
    ensures { IfOk result (λ ws. ws ≡ asked_of peer node.now) }
{
    let mut asks = Items::new(node.asked.allocator());
    for wanted in node.asked.as_slice() {
        if wanted.object.node == peer {
            asks.push(wanted.clone()?)?;
        }
    }
    Ok(asks)
}

/// The peer is told which of its objects are no longer held.
fn end(effect: &mut Effect, peer: NodeId) -> Done
    ensures { OnOk result (effect.new ≡ and_then effect.old
        (λ n. queueing peer (End (serials_of peer n.held)) (parted peer n))) }
{
    let serials = serials_of(peer, &effect.node.held)?;
    queue(effect, peer, Item::End { serials })?;
    part(peer, &mut effect.node)
}

/// The peer is told which of its objects are no longer held, and the lenders of those asked for
/// that their lends are over.
pub(crate) fn close(effect: &mut Effect, peer: NodeId) -> Done
    ensures { OnOk result (effect.new ≡ and_then effect.old (closing peer)) }
{
    let asks = asked_of(peer, &effect.node)?;
    end(effect, peer)?;
    settle_all(effect, asks.as_slice())
}

/// The peer is told which of its objects are no longer held, and the lenders of those asked for
/// that their lends are over.
pub fn closing(peer: NodeId, node: &Node) -> Result<Effect, AllocError>
    ensures { IfOk result (λ e. e ≡ closing peer node.now) }
{
    let mut effect = unchanged(node)?;
    let done = close(&mut effect, peer);
    given(effect, done)
}
