//! Invocations that stand until something comes, and the calls that they wait for.
//!
//! Each call has a number of its own. The calls that invocations wait for and those that were
//! given up are numbered by this node, below the next number and none twice: an invariant of a
//! part. So the invocation that is found by a call's number is the one that the definitions
//! answer, which look at what was asked for as well. A call that is given up replaces no late
//! one.
ghost use Rattle.std.specs.Prelude.{◌≡◌, ◌-◌, ◌+◌, ◌<◌, ◌≤◌, ◌^◌, [], length, Some, slice_get};
ghost use Rattle.do_behave.specs.declared.invocation.Invocation.{Invocation};
ghost use Rattle.do_behave.specs.declared.invocation.InvState.TheVariants.{Below, Waits};
ghost use Rattle.do_machine.specs.{held.Refers.state_values, run.Changes.{stands, uses_number}};
ghost use Rattle.do_machine.specs.run.Fresh.{with_stack};
ghost use Rattle.do_stack.specs.Waiting.{with_top};

use crate::part::Part;
use do_base::{CallId, Locals, NodeId};
use do_behave::{InvState, Waited};

impl Part {
    /// The top invocation stands at a place of its method until the invocation above it has ended.
    ///
    /// Its answer, if it had one, was used before. Room for an invocation was made before.
    pub fn stand(&mut self, pc: u32, into: u8, outs: Locals)
        requires top { 0 < length self.old.own.node.stack }
        requires used { (top : Invocation) → slice_get self.old.own.node.stack 0 ≡ Some top
            → state_values top.state ≡ [] }
        requires room { 0 < self.old.room.invocations }
        ensures own { self.new.own ≡ record self.old.own {
          node = with_stack (with_top (stands pc into outs Below) self.old.own.node.stack)
              self.old.own.node;
        } }
        ensures objects { self.new.room.objects ≡ self.old.room.objects }
        ensures invocations { self.old.room.invocations ≤ self.new.room.invocations + 1 }
        ensures names { self.new.room.names ≡ self.old.room.names }
        ensures entries { self.new.room.entries ≡ self.old.room.entries }
    {
        self.stack.stand(pc, into, outs, InvState::Below);
    }

    /// The top invocation stands at a place of its method and waits for the next call of this node,
    /// which is to a peer. The number of that call is used up, and told.
    ///
    /// Its answer, if it had one, was used before. Room for an invocation was made before.
    pub fn call_peer(&mut self, pc: u32, into: u8, outs: Locals, peer: NodeId, what: Waited) -> u64
        requires top { 0 < length self.old.own.node.stack }
        requires used { (top : Invocation) → slice_get self.old.own.node.stack 0 ≡ Some top
            → state_values top.state ≡ [] }
        requires number { self.old.own.node.next_call < 2 ^ 64 - 1 }
        requires room { 0 < self.old.room.invocations }
        ensures number { result ≡ self.old.own.node.next_call }
        ensures own { self.new.own ≡ record self.old.own {
          node = uses_number (with_stack (with_top (stands pc into outs (Waits (record {
            node = self.old.own.node.port;
            number = self.old.own.node.next_call;
          }) peer what)) self.old.own.node.stack) self.old.own.node);
        } }
        ensures objects { self.new.room.objects ≡ self.old.room.objects }
        ensures invocations { self.old.room.invocations ≤ self.new.room.invocations + 1 }
        ensures names { self.new.room.names ≡ self.old.room.names }
        ensures entries { self.new.room.entries ≡ self.old.room.entries }
    {
        let number = self.next_call;
        let call = CallId {
            node: self.holders.node,
            number,
        };
        let state = InvState::Waits { call, peer, what };
        self.stack.stand(pc, into, outs, state);
        self.next_call = number + 1;
        number
    }
}
