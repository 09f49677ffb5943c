//! The invocations that wait for calls, and their answers.
ghost use Rattle.std.specs.Prelude.{◌≡◌, ◌+◌, ◌<◌, length, MatchOption, Some, is_some, slice_get};
ghost use Rattle.std.specs.Prelude.{if◌then◌else◌};
ghost use Rattle.do_base.specs.names.Names.{ObjectName};
ghost use Rattle.do_behave.specs.declared.invocation.Invocation.{Invocation};
ghost use Rattle.do_behave.specs.declared.invocation.InvState.TheVariants.{Waits};
ghost use Rattle.do_stack.specs.{Waiting.{waiting, with_answer, with_top}, Uses.{uses, stack_uses}};
ghost use Rattle.do_stack.specs.Places.{NoneWaits, IsPlaceOf};
ghost use Rattle.do_machine.specs.{held.Refers.{answer_values, state_values}, run.Changes.stands};
ghost use Rattle.do_stack.specs.Answered.{answer_taken, top_answer, values_taken};

use super::Stack;
use crate::waits::{asked, take_answer, waits};
use do_base::{CallId, Locals, NodeId};
use do_behave::{Answer, InvState, Waited};

impl Stack {
    /// The place, from the top, of the invocation that waits for a call to a peer.
    fn place(&self, call: CallId, peer: NodeId) -> Option<usize>
        ensures { MatchOption result (NoneWaits call peer self.now.invocations)
            (IsPlaceOf call peer self.now.invocations) }
    {
        for at in 0..self.invs.len() {
            if waits(&self.invs[at], call, peer) {
                return Some(at);
            }
        }
        None
    }

    /// What the invocation that waits for a call to a peer asked for. None exactly where none waits
    /// for it.
    pub fn waiting(&self, call: CallId, peer: NodeId) -> Option<Waited>
        ensures { result ≡ waiting call peer self.now.invocations }
    {
        let Some(at) = self.place(call, peer) else {
            return None;
        };
        asked(&self.invs[at])
    }

    /// Answers the invocation that waits for a call to a peer, wherever it stands. False exactly
    /// where none waits for it.
    #[tactic(auto, using(crate::proofs::UsesKept::kept_uses))]
    pub fn answer(&mut self, call: CallId, peer: NodeId, answer: Answer) -> bool
        ensures which { result ≡ is_some (waiting call peer self.old.invocations) }
        ensures invocations { self.new.invocations
            ≡ with_answer call peer answer self.old.invocations }
        ensures late { self.new.late ≡ self.old.late }
        ensures spare { self.new.spare ≡ self.old.spare }
        ensures uses { (o : ObjectName) → stack_uses o self.new.invocations
            ≡ stack_uses o self.old.invocations
            + (if result then uses o (answer_values answer) else 0) }
    {
        let Some(at) = self.place(call, peer) else {
            return false;
        };
        self.invs[at].state = InvState::Answered(answer);
        true
    }

    /// The top invocation waits for a call to a peer.
    #[tactic(auto, using(crate::proofs::UsesKept::kept_uses))]
    pub fn wait(&mut self, call: CallId, peer: NodeId, what: Waited)
        requires { 0 < length self.old.invocations }
        ensures invocations { self.new.invocations
            ≡ with_top (λ i. record i { state = Waits call peer what }) self.old.invocations }
        ensures late { self.new.late ≡ self.old.late }
        ensures spare { self.new.spare ≡ self.old.spare }
        ensures uses { (top : Invocation) (o : ObjectName)
            → slice_get self.old.invocations 0 ≡ Some top
            → stack_uses o self.new.invocations + uses o (state_values top.state)
            ≡ stack_uses o self.old.invocations }
    {
        self.invs[0].state = InvState::Waits { call, peer, what };
    }

    /// The top invocation stands at a place of its method in a state, and what comes then goes to
    /// these locals.
    pub fn stand(&mut self, pc: u32, into: u8, outs: Locals, state: InvState)
        requires { 0 < length self.old.invocations }
        ensures invocations { self.new.invocations
            ≡ with_top (stands pc into outs state) self.old.invocations }
        ensures late { self.new.late ≡ self.old.late }
        ensures spare { self.new.spare ≡ self.old.spare }
    {
        self.invs[0].stand(pc, into, outs, state);
    }

    /// Takes the answer that the top invocation has, which then runs. None exactly where it has
    /// none, and then nothing changes.
    #[tactic(auto, using(crate::proofs::UsesKept::kept_uses))]
    pub fn take_answer(&mut self) -> Option<Answer>
        ensures which { result ≡ top_answer self.old.invocations }
        ensures invocations { self.new.invocations ≡ with_top answer_taken self.old.invocations }
        ensures late { self.new.late ≡ self.old.late }
        ensures spare { self.new.spare ≡ self.old.spare }
        ensures uses { (o : ObjectName)
            → stack_uses o self.new.invocations + uses o (values_taken result)
            ≡ stack_uses o self.old.invocations }
    {
        if self.invs.is_empty() {
            return None;
        }
        take_answer(&mut self.invs[0])
    }
}
