//! The calls that are given up, with a peer or alone.
ghost use Rattle.std.specs.Prelude.{◌≡◌, ◌+◌, ◌<◌, ◌≤◌, ◌==◌, OnOk, OnErr, IsOk, Some, IsSome, map};
ghost use Rattle.std.specs.{Prelude.{filter, not}, List.list_any};
ghost use Rattle.do_base.specs.names.Names.{ObjectName};
ghost use Rattle.do_base.specs.declared.events.exception.Exc.TheVariants.{TimedOut};
ghost use Rattle.do_behave.specs.declared.invocation.Answer.TheVariants.{Raised};
ghost use Rattle.do_machine.specs.{ends.Closing.without_answer, run.Changes.answered};
ghost use Rattle.do_machine.specs.take.Awaiting.{is_answered, late_answered};
ghost use Rattle.do_machine.specs.declared.node.LateCall.{LateCall};
ghost use Rattle.do_stack.specs.{Waiting.with_top, Late.top_call, LateCalls.kept, Uses.stack_uses};

use super::Stack;
use crate::waits::{fail_all, late_call};
use do_base::{CallId, Exc, NodeId};
use do_behave::{Answer, InvState};
use do_machine::LateCall;
use std::alloc::AllocError;

impl Stack {
    /// Answers all that wait for a peer with the connection's death, and forgets the late calls to
    /// it.
    #[tactic(auto, using(crate::proofs::UsesKept::kept_uses))]
    pub fn fail_peer(&mut self, peer: NodeId)
        ensures invocations { self.new.invocations
            ≡ map (without_answer peer) self.old.invocations }
        ensures late { self.new.late ≡ filter (λ c. not (c.peer == peer)) self.old.late }
        ensures uses { (o : ObjectName) → stack_uses o self.new.invocations
            ≡ stack_uses o self.old.invocations }
    {
        fail_all(&mut self.invs, peer);
        self.late.forget(peer);
    }

    /// The call that the top invocation waits for.
    fn top_call(&self) -> Option<LateCall>
        ensures { result ≡ top_call self.now.invocations }
    {
        let top = self.invs.get(0)?;
        late_call(top)
    }

    /// Answers the top invocation, which waits for a call, with a time-out, and keeps its call as
    /// late, in place of any other of its number. If memory runs out, the stack is unchanged; with
    /// room it cannot fail.
    #[tactic(auto, using(crate::proofs::UsesKept::kept_uses))]
    pub fn abandon(&mut self) -> Result<(), AllocError>
        requires { IsSome (top_call self.old.invocations) }
        ensures invocations { OnOk result (self.new.invocations
            ≡ with_top (answered (Raised TimedOut)) self.old.invocations) }
        ensures late { OnOk result ((call : LateCall)
            → top_call self.old.invocations ≡ Some call
            → self.new.late ≡ kept call self.old.late) }
        ensures err { OnErr result ((self.new.invocations ≡ self.old.invocations)
            × (self.new.late ≡ self.old.late)) }
        ensures room { 0 < self.old.spare → IsOk result }
        ensures spare { self.old.spare ≤ self.new.spare + 1 }
        ensures uses { (o : ObjectName) → stack_uses o self.new.invocations
            ≡ stack_uses o self.old.invocations }
    {
        let Some(call) = self.top_call() else {
            unreachable!();
        };
        self.late.keep(call)?;
        self.invs[0].state = InvState::Answered(Answer::Raised(Exc::TimedOut));
        Ok(())
    }

    /// Whether a call to a peer is late, which was for its root or for a method.
    pub fn is_late(&self, call: CallId, peer: NodeId, root: bool) -> bool
        ensures { result ≡ list_any (λ c. is_answered
            (record { peer = peer; number = call.number; root = root })
            c.peer c.number c.what) self.now.late }
    {
        self.late.has(peer, call.number, root)
    }

    /// Ends a late call to a peer, which was for its root or for a method. False exactly where no
    /// such call is late, and then nothing changes.
    pub fn late(&mut self, call: CallId, peer: NodeId, root: bool) -> bool
        ensures which { result ≡ list_any (λ c. is_answered
            (record { peer = peer; number = call.number; root = root })
            c.peer c.number c.what) self.old.late }
        ensures late { self.new.late ≡ late_answered
            (record { peer = peer; number = call.number; root = root }) self.old.late }
        ensures invocations { self.new.invocations ≡ self.old.invocations }
    {
        self.late.end(peer, call.number, root)
    }
}
