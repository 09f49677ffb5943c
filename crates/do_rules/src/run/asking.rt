//! How a peer is asked, and what the invocation that asked then waits for.
ghost use Rattle.std.specs.Prelude.{◌≡◌, OnOk};
ghost use Rattle.do_machine.specs.run.Changes.{uses_number};
ghost use Rattle.do_machine.specs.run.Verdicts.{awaited_after, requesting, waits_for};
ghost use Rattle.do_rules.specs.Doing.{and_then};

use crate::effect::{Done, given, queue};
use crate::lend::lending::lend;
use do_base::{CallId, NodeId};
use do_behave::{InvState, Waited};
use do_machine::{Effect, Item, Node, Request};
use std::alloc::AllocError;

/// What an invocation waits for, having asked so.
fn awaited_after(request: &Request) -> Waited
    ensures { result ≡ awaited_after request.now }
{
    match request {
        Request::Root => Waited::Root,
        Request::Call { method, .. } => Waited::Method(*method),
    }
}

/// The state of an invocation that asked a peer.
pub(crate) fn waits_for(node: &Node, peer: NodeId, request: &Request) -> InvState
    ensures { result ≡ waits_for node.now peer request.now }
{
    InvState::Waits {
        call: CallId {
            node: node.port,
            number: node.next_call,
        },
        peer,
        what: awaited_after(request),
    }
}

/// A request goes to a peer, under a number.
pub(crate) fn request(effect: &mut Effect, peer: NodeId, number: u64, request: Request) -> Done
    ensures { OnOk result (effect.new ≡ and_then effect.old (requesting peer number request)) }
{
    match request {
        Request::Root => queue(effect, peer, Item::RootAsk { number }),
        Request::Call { message, .. } => {
            let done = lend(&mut effect.node, peer, &message.packet);
            let message = given(message, done)?;
            queue(effect, peer, Item::Call { number, message })
        }
    }
}

/// The node's next call number is used up. One past what a number can be is want of memory too.
pub(crate) fn use_number(node: &mut Node) -> Done
    ensures { OnOk result (node.new ≡ uses_number node.old) }
{
    let Some(next) = node.next_call.checked_add(1) else {
        return Err(AllocError);
    };
    node.next_call = next;
    Ok(())
}
