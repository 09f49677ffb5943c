//! What an invocation waits for.
ghost use Rattle.std.specs.Prelude.{◌≡◌, map};
ghost use Rattle.do_machine.specs.ends.Closing.{without_answer};
ghost use Rattle.do_stack.specs.{Waiting.{waits_for, asked_by}, Answered.{answer_of, answer_taken}};
ghost use Rattle.do_stack.specs.Late.{late_of};

use do_base::{CallId, Exc, NodeId};
use do_behave::{Answer, InvState, Invocation, Waited};
use do_machine::LateCall;
use std::collections::VecDeque;
use std::mem;

/// Whether an invocation waits for a call to a peer.
pub fn waits(inv: &Invocation, call: CallId, peer: NodeId) -> bool
    ensures { result ≡ waits_for call peer inv.now.state }
{
    match &inv.state {
        InvState::Waits {
            call: own,
            peer: from,
            what: _,
        } => own.node == call.node && own.number == call.number && *from == peer,
        _ => false,
    }
}

/// What an invocation that waits asked for.
pub fn asked(inv: &Invocation) -> Option<Waited>
    ensures { result ≡ asked_by inv.now.state }
{
    match inv.state {
        InvState::Waits { what, .. } => Some(what),
        _ => None,
    }
}

/// Takes the answer that an invocation has, which then runs.
pub fn take_answer(inv: &mut Invocation) -> Option<Answer>
    ensures which { result ≡ answer_of inv.old.state }
    ensures after { inv.new ≡ answer_taken inv.old }
{
    match mem::replace(&mut inv.state, InvState::Running) {
        InvState::Answered(answer) => Some(answer),
        other => {
            inv.state = other;
            None
        }
    }
}

/// The call that an invocation waits for, as it is kept once it is given up.
pub(crate) fn late_call(inv: &Invocation) -> Option<LateCall>
    ensures { result ≡ late_of inv.now.state }
{
    match inv.state {
        InvState::Waits { call, peer, what } => Some(LateCall {
            number: call.number,
            peer,
            what,
        }),
        _ => None,
    }
}

/// Answers an invocation that waits for the peer with the connection's death.
pub(crate) fn fail_one(inv: &mut Invocation, peer: NodeId)
    ensures { inv.new ≡ without_answer peer inv.old }
{
    if let InvState::Waits {
        call: _,
        peer: from,
        what: _,
    } = &inv.state
    {
        if *from == peer {
            inv.state = InvState::Answered(Answer::Raised(Exc::ConnectionDied));
        }
    }
}

/// Answers all invocations that wait for the peer with the connection's death.
pub(crate) fn fail_all(invs: &mut VecDeque<Invocation>, peer: NodeId)
    ensures { invs.new.items ≡ map (without_answer peer) invs.old.items }
{
    let all = invs.make_contiguous();
    for inv in all.iter_mut() {
        fail_one(inv, peer);
    }
}
