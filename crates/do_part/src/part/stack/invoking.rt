//! Invocations that begin and end.
ghost use Rattle.std.specs.Prelude.{◌≡◌, ◌<◌, ◌≤◌, ◌+◌, ◌∷◌, [], length, MatchOption, false};
ghost use Rattle.do_machine.specs.{run.Fresh.{pushed, with_stack}, take.Take.is_waiting};
ghost use Rattle.do_stack.specs.Uses.{invocation_values};
ghost use Rattle.do_part.specs.Names.{values_of, sizes_of, AreStored};

use crate::part::Part;
use crate::tally::Tally;
use do_behave::Invocation;

impl Part {
    /// Puts an invocation that waits for no call on top, in room that was made before.
    pub fn push(&mut self, inv: Invocation)
        requires depth { length self.old.own.node.stack < 256 }
        requires running { is_waiting inv.state ≡ false }
        requires room { 0 < self.old.room.invocations }
        requires names { sizes_of (invocation_values inv) ≤ self.old.room.names }
        requires stored { AreStored self.old.own.node (values_of (invocation_values inv)) }
        ensures own { self.new.own
            ≡ record self.old.own { node = pushed inv self.old.own.node } }
        ensures objects { self.new.room.objects ≡ self.old.room.objects }
        ensures room { self.old.room.invocations ≤ self.new.room.invocations + 1 }
        ensures names { self.old.room.names
            ≤ self.new.room.names + sizes_of (invocation_values inv) }
        ensures entries { self.new.room.entries ≡ self.old.room.entries }
    {
        self.holders.tally_invocation(Tally::More, &inv);
        let Ok(()) = self.stack.push(inv) else {
            unreachable!();
        };
    }

    /// Takes the top invocation off. None exactly where there is none, and then nothing changes.
    pub fn pop(&mut self) -> Option<Invocation>
        ensures own { MatchOption result
            ((self.old.own.node.stack ≡ []) × (self.new.own ≡ self.old.own))
            (λ top. (self.old.own.node.stack ≡ top ∷ self.new.own.node.stack)
            × (self.new.own ≡ record self.old.own {
              node = with_stack self.new.own.node.stack self.old.own.node;
            })) }
        ensures objects { self.new.room.objects ≡ self.old.room.objects }
        ensures room { self.old.room.invocations ≤ self.new.room.invocations }
        ensures names { self.old.room.names ≤ self.new.room.names }
        ensures entries { self.new.room.entries ≡ self.old.room.entries }
    {
        let Some(top) = self.stack.pop() else {
            return None;
        };
        self.holders.tally_invocation(Tally::Less, &top);
        Some(top)
    }
}
