//! Answers: to calls that invocations wait for, and to the top invocation.
//!
//! The top invocation is taken off and put back to change what it waits for. do_stack gives no
//! access to the top in place, and in room for one invocation this takes no memory. What holds
//! objects is told only of names that come or go.
ghost use Rattle.std.specs.{Prelude.{◌≡◌, ◌<◌, ◌≤◌, ◌+◌}, Bool.beq};
ghost use Rattle.do_machine.specs.{Lists.some_passes, held.Refers.answer_values};
ghost use Rattle.do_machine.specs.run.{Changes.answered, Fresh.with_stack};
ghost use Rattle.do_machine.specs.take.Awaiting.{is_for_root, stack_answered};
ghost use Rattle.do_stack.specs.Answered.{answer_taken, top_answer, values_taken};
ghost use Rattle.do_stack.specs.Waiting.{waiting, with_top};
ghost use Rattle.do_part.specs.{Answers.answered_with, Names.{values_of, sizes_of, AreStored}};

use super::standing::set_answer;
use crate::part::Part;
use crate::tally::Tally;
use do_base::{CallId, NodeId};
use do_behave::{Answer, Waited};

impl Part {
    /// Whether an invocation waits for a call to a peer, which was for its root or for a method.
    fn is_awaited(&self, call: CallId, peer: NodeId, root: bool) -> bool
        ensures { result ≡ some_passes (λ what. beq (is_for_root what) root)
            (waiting call peer self.now.own.node.stack) }
    {
        match self.stack.waiting(call, peer) {
            Some(what) => matches!(&what, Waited::Root) == root,
            None => false,
        }
    }

    /// Hands an answer of a peer to the invocation that waits for it, wherever it stands. Where
    /// none waits, nothing changes.
    fn hand_answer(&mut self, peer: NodeId, number: u64, root: bool, answer: Answer)
        requires names { sizes_of (answer_values answer) ≤ self.old.room.names }
        requires stored { AreStored self.old.own.node (values_of (answer_values answer)) }
        ensures own { self.new.own ≡ record self.old.own {
          node = with_stack (stack_answered (record {
            peer = peer;
            number = number;
            root = root;
          }) (λ what. answer) self.old.own.node.stack) self.old.own.node;
        } }
        ensures objects { self.new.room.objects ≡ self.old.room.objects }
        ensures names { self.old.room.names
            ≤ self.new.room.names + sizes_of (answer_values answer) }
        ensures entries { self.new.room.entries ≡ self.old.room.entries }
    {
        let call = CallId {
            node: self.holders.node,
            number,
        };
        let awaited = self.is_awaited(call, peer, root);
        if !awaited {
            return;
        }
        self.holders.tally_answer(Tally::More, &answer);
        self.stack.answer(call, peer, answer);
    }

    /// Takes an answer of a peer to a call, which was for its root or for a method: the invocation
    /// that waits for it has the answer, wherever it stands, and a late call is over. Without an
    /// answer only a late call is over.
    pub fn answer(&mut self, peer: NodeId, number: u64, root: bool, answer: Option<Answer>)
        requires names { sizes_of (values_taken answer) ≤ self.old.room.names }
        requires stored { AreStored self.old.own.node (values_of (values_taken answer)) }
        ensures own { self.new.own ≡ record self.old.own {
          node = answered_with (record { peer = peer; number = number; root = root }) answer
              self.old.own.node;
        } }
        ensures objects { self.new.room.objects ≡ self.old.room.objects }
        ensures names { self.old.room.names
            ≤ self.new.room.names + sizes_of (values_taken answer) }
        ensures entries { self.new.room.entries ≡ self.old.room.entries }
    {
        if let Some(answer) = answer {
            self.hand_answer(peer, number, root, answer);
        }
        self.end_late(peer, number, root);
    }

    /// Answers the top invocation, in room that was made before. Where there is none, nothing
    /// changes.
    pub fn answer_top(&mut self, answer: Answer)
        requires names { sizes_of (answer_values answer) ≤ self.old.room.names }
        requires stored { AreStored self.old.own.node (values_of (answer_values answer)) }
        requires room { 0 < self.old.room.invocations }
        ensures own { self.new.own ≡ record self.old.own {
          node = with_stack (with_top (answered answer) self.old.own.node.stack)
              self.old.own.node;
        } }
        ensures objects { self.new.room.objects ≡ self.old.room.objects }
        ensures invocations { self.old.room.invocations ≤ self.new.room.invocations + 1 }
        ensures names { self.old.room.names
            ≤ self.new.room.names + sizes_of (answer_values answer) }
        ensures entries { self.new.room.entries ≡ self.old.room.entries }
    {
        if self.stack.depth() == 0 {
            return;
        }
        self.holders.tally_answer(Tally::More, &answer);
        let was = set_answer(&mut self.stack, answer);
        self.holders.tally_state(Tally::Less, &was);
    }

    /// Takes the answer that the top invocation has, which then runs. None exactly where it has
    /// none, and then nothing changes.
    pub fn take_answer(&mut self) -> Option<Answer>
        ensures which { result ≡ top_answer self.old.own.node.stack }
        ensures own { self.new.own ≡ record self.old.own {
          node = with_stack (with_top answer_taken self.old.own.node.stack) self.old.own.node;
        } }
        ensures objects { self.new.room.objects ≡ self.old.room.objects }
        ensures invocations { self.new.room.invocations ≡ self.old.room.invocations }
        ensures names { self.old.room.names ≤ self.new.room.names }
        ensures entries { self.new.room.entries ≡ self.old.room.entries }
    {
        let Some(answer) = self.stack.take_answer() else {
            return None;
        };
        self.holders.tally_answer(Tally::Less, &answer);
        Some(answer)
    }
}
