//! What an answer is to the invocation that waits for it.
ghost use Rattle.std.specs.Prelude.{◌≡◌, ◌<◌, IfSome, length, position};
ghost use Rattle.do_machine.specs.{Effect.only, take.Awaiting.{awaits, is_answered, is_for_root}};
ghost use Rattle.do_machine.specs.take.Awaiting.{stack_answered, with_answer};
ghost use Rattle.do_rules.specs.{Answering.{asked_by, awaited_in, call_of}, Ruling.answering_with};

use crate::lists::{Test, keep};
use crate::run::changes::be_answered;
use do_base::{Items, NodeId};
use do_behave::{Answer, InvState, Invocation, Waited};
use do_machine::{LateCall, Node};

/// A call, as its answer names it.
#[derive(Clone, Copy)]
pub struct Answered {
    /// The peer that was asked, and answers.
    pub peer: NodeId,
    /// The number of the call at the node that asked.
    pub number: u64,
    /// Whether the root was asked for, and no method.
    pub root: bool,
}

/// Whether a root was asked for, and no method.
fn is_for_root(what: &Waited) -> bool
    ensures { result ≡ is_for_root what.now }
{
    match what {
        Waited::Root => true,
        Waited::Method(_) => false,
    }
}

/// Whether a call that was asked so is the one that is answered.
fn is_answered(call: &Answered, peer: NodeId, number: u64, what: &Waited) -> bool
    ensures { result ≡ is_answered (call_of call.now) peer number what.now }
{
    let (asked, called) = (call.peer, call.number);
    number == called && peer == asked && is_for_root(what) == call.root
}

/// Whether an invocation of this state waits for the answer.
pub fn awaits(call: &Answered, state: &InvState) -> bool
    ensures { result ≡ awaits (call_of call.now) state.now }
{
    match state {
        InvState::Waits {
            call: waits,
            peer,
            what,
        } => is_answered(call, *peer, waits.number, what),
        InvState::Running => false,
        InvState::Below => false,
        InvState::Answered(_) => false,
    }
}

/// What an invocation of this state asked for.
pub fn asked_by(state: &InvState) -> Option<Waited>
    ensures { result ≡ asked_by state.now }
{
    match state {
        InvState::Waits { what, .. } => Some(*what),
        InvState::Running => None,
        InvState::Below => None,
        InvState::Answered(_) => None,
    }
}

/// What the invocation that waits for an answer asked for.
pub(crate) fn awaited_in(stack: &[Invocation], call: &Answered) -> Option<Waited>
    ensures { result ≡ awaited_in (call_of call.now) stack.now }
{
    let [top, below @ ..] = stack else {
        return None;
    };
    if awaits(call, &top.state) {
        return asked_by(&top.state);
    }
    awaited_in(below, call)
}

/// The invocation, if it waits, has its answer.
fn have_answer(invocation: &mut Invocation, answer: Answer)
    ensures { invocation.new ≡ with_answer (λ what. answer) invocation.old }
{
    if let InvState::Waits { .. } = &invocation.state {
        be_answered(invocation, answer);
    }
}

/// Where the invocation that waits for an answer stands.
fn waiting_at(stack: &Items<Invocation>, call: &Answered) -> Option<usize>
    ensures index { result ≡ position (λ i. awaits (call_of call.now) i.state) stack.now }
    ensures within { IfSome result (λ at. at < length stack.now) }
{
    stack
        .as_slice()
        .iter()
        .position(|invocation| awaits(call, &invocation.state))
}

/// The invocation that waits for the answer has it, wherever it stands.
#[tactic(auto, using(do_machine::proofs::FirstPlace::first_steps))]
fn answer_waiting(stack: &mut Items<Invocation>, call: &Answered, answer: Answer)
    ensures { stack.new
        ≡ stack_answered (call_of call.now) (λ what. answer) stack.old }
{
    if let Some(at) = waiting_at(stack, call) {
        have_answer(stack.at_mut(at), answer);
    }
}

impl Test<LateCall> for Answered {
    ghost use Rattle.std.specs.Prelude.{not};
    ghost use Rattle.do_machine.specs.take.Awaiting.{is_answered};
    ghost use Rattle.do_rules.specs.Answering.{call_of};

    ghost passes = { λ call late.
        not (is_answered (call_of call) late.peer late.number late.what) };

    fn passes(&self, late: &LateCall) -> bool {
        !is_answered(self, late.peer, late.number, &late.what)
    }
}

/// The invocation that waits for a call has its answer; where none waits, a late call is over.
pub(crate) fn give_answer(node: &mut Node, call: &Answered, answer: Option<Answer>)
    ensures { only node.new ≡ answering_with (call_of call.now) answer node.old }
{
    if let Some(answer) = answer {
        answer_waiting(&mut node.stack, call, answer);
    }
    keep(&mut node.late, call);
}
