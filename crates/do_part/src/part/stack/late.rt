//! Calls that are given up, with a peer or alone, and their late answers.
ghost use Rattle.std.specs.Prelude.{◌≡◌, ◌<◌, ◌≤◌, ◌+◌, ◌==◌, Some, IsSome, map, filter, not};
ghost use Rattle.std.specs.List.{list_any};
ghost use Rattle.do_machine.specs.{Effect.only, ends.{Closing.without_answer, TimeOut.time_out}};
ghost use Rattle.do_machine.specs.take.Awaiting.{is_answered, late_answered};

use crate::part::Part;
use do_base::{CallId, NodeId};

impl Part {
    /// Answers all invocations that wait for a peer with the connection's death, and forgets the
    /// late calls to it.
    pub fn fail_peer(&mut self, peer: NodeId)
        ensures own { self.new.own ≡ record self.old.own {
          node = record self.old.own.node {
            stack = map (without_answer peer) self.old.own.node.stack;
            late = filter (λ c. not (c.peer == peer)) self.old.own.node.late;
          };
        } }
        ensures objects { self.new.room.objects ≡ self.old.room.objects }
        ensures names { self.new.room.names ≡ self.old.room.names }
        ensures entries { self.new.room.entries ≡ self.old.room.entries }
    {
        self.stack.fail_peer(peer);
    }

    /// Gives up the call that the top invocation waits for: it is answered with a time-out, and the
    /// call is late. Room for an invocation was made before.
    pub fn abandon(&mut self)
        requires waits { IsSome (time_out self.old.own.node) }
        requires room { 0 < self.old.room.invocations }
        ensures node { time_out self.old.own.node ≡ Some (only self.new.own.node) }
        ensures rest { self.new.own ≡ record self.old.own { node = self.new.own.node } }
        ensures objects { self.new.room.objects ≡ self.old.room.objects }
        ensures invocations { self.old.room.invocations ≤ self.new.room.invocations + 1 }
        ensures names { self.new.room.names ≡ self.old.room.names }
        ensures entries { self.new.room.entries ≡ self.old.room.entries }
    {
        let Ok(()) = self.stack.abandon() else {
            unreachable!();
        };
    }

    /// Whether a call to a peer is late, which was for its root or for a method.
    pub fn is_late(&self, peer: NodeId, number: u64, root: bool) -> bool
        ensures { result ≡ list_any (λ c. is_answered
            (record { peer = peer; number = number; root = root })
            c.peer c.number c.what) self.now.own.node.late }
    {
        let call = CallId {
            node: self.holders.node,
            number,
        };
        self.stack.is_late(call, peer, root)
    }

    /// Ends a late call to a peer, which was for its root or for a method, if there is one.
    pub(super) fn end_late(&mut self, peer: NodeId, number: u64, root: bool)
        ensures own { self.new.own ≡ record self.old.own {
          node = record self.old.own.node {
            late = late_answered (record { peer = peer; number = number; root = root })
                self.old.own.node.late;
          };
        } }
        ensures objects { self.new.room.objects ≡ self.old.room.objects }
        ensures names { self.new.room.names ≡ self.old.room.names }
        ensures entries { self.new.room.entries ≡ self.old.room.entries }
    {
        let call = CallId {
            node: self.holders.node,
            number,
        };
        self.stack.late(call, peer, root);
    }
}
