//! The top invocation changed in place.
ghost use Rattle.std.specs.Prelude.{◌≡◌, ◌<◌, ◌≤◌, ◌+◌, ◌∷◌, [], false, Some, length, slice_get};
ghost use Rattle.do_behave.specs.Changes.{IsFitting, with_set};
ghost use Rattle.do_behave.specs.declared.change.Change.TheVariants.{Goto, Local};
ghost use Rattle.do_behave.specs.declared.invocation.Invocation.{Invocation};
ghost use Rattle.do_machine.specs.run.{Changes.steps_to, Fresh.with_stack};
ghost use Rattle.do_stack.specs.{Exchange.{given, takes_memory}, Waiting.with_top};
ghost use Rattle.do_part.specs.Changed.{set_values, top_turned};
ghost use Rattle.do_part.specs.Names.{values_of, sizes_of, AreStored};

use crate::part::Part;
use do_base::Value;
use do_behave::{Change, Handler, LocalSets};

impl Part {
    /// Makes a change of the top invocation that takes no memory, but for its writes of slots.
    pub(super) fn exchange(&mut self, change: Change)
        requires top { 0 < length self.old.own.node.stack }
        requires fits { (top : Invocation) → slice_get self.old.own.node.stack 0 ≡ Some top
            → IsFitting top change }
        requires memory { takes_memory change ≡ false }
        requires names { sizes_of (given change) ≤ self.old.room.names }
        requires stored { AreStored self.old.own.node (values_of (given change)) }
        ensures own { self.new.own ≡ record self.old.own {
          node = top_turned change self.old.own.node;
        } }
        ensures objects { self.new.room.objects ≡ self.old.room.objects }
        ensures invocations { self.new.room.invocations ≡ self.old.room.invocations }
        ensures names { self.old.room.names ≤ self.new.room.names + sizes_of (given change) }
        ensures entries { self.new.room.entries ≡ self.old.room.entries }
    {
        self.holders.come_given(&change);
        let Ok(done) = self.stack.change(change) else {
            unreachable!();
        };
        self.holders.go_taken(&done.taken);
    }

    /// Sets a local of the top invocation, which then goes on.
    pub fn set_local(&mut self, into: u8, value: Value, pc: u32)
        requires top { 0 < length self.old.own.node.stack }
        requires names { sizes_of (value ∷ []) ≤ self.old.room.names }
        requires stored { AreStored self.old.own.node (values_of (value ∷ [])) }
        ensures own { self.new.own ≡ record self.old.own {
          node = top_turned (Local into value pc) self.old.own.node;
        } }
        ensures objects { self.new.room.objects ≡ self.old.room.objects }
        ensures invocations { self.new.room.invocations ≡ self.old.room.invocations }
        ensures names { self.old.room.names ≤ self.new.room.names + sizes_of (value ∷ []) }
        ensures entries { self.new.room.entries ≡ self.old.room.entries }
    {
        self.holders.come_local(&value);
        let was = self.stack.set_local(into, value, pc);
        self.holders.go_local(&was);
    }

    /// The top invocation goes on.
    pub fn go_to(&mut self, pc: u32)
        requires { 0 < length self.old.own.node.stack }
        ensures own { self.new.own ≡ record self.old.own {
          node = top_turned (Goto pc) self.old.own.node;
        } }
        ensures objects { self.new.room.objects ≡ self.old.room.objects }
        ensures invocations { self.new.room.invocations ≡ self.old.room.invocations }
        ensures names { self.new.room.names ≡ self.old.room.names }
        ensures entries { self.new.room.entries ≡ self.old.room.entries }
    {
        self.stack.go_to(pc);
    }

    /// The serial of the object of the top invocation.
    pub(super) fn top_serial(&self) -> u64
        requires { 0 < length self.now.own.node.stack }
        ensures { (top : Invocation) → slice_get self.now.own.node.stack 0 ≡ Some top
            → result ≡ top.object.serial }
    {
        let Some(top) = self.stack.top() else {
            return 0;
        };
        top.object.serial
    }

    /// Sets locals of the top invocation in order, which then has this handler or none and goes on.
    ///
    /// They are set one after the other, so that what they held takes no memory.
    pub(super) fn set_locals(&mut self, mut sets: LocalSets, handler: Option<Handler>, pc: u32)
        requires top { 0 < length self.old.own.node.stack }
        requires names { sizes_of (set_values sets) ≤ self.old.room.names }
        requires stored { AreStored self.old.own.node (values_of (set_values sets)) }
        ensures own { self.new.own ≡ record self.old.own {
          node = with_stack (with_top (λ i. steps_to pc (with_set i.locals sets) handler i)
              self.old.own.node.stack) self.old.own.node;
        } }
        ensures objects { self.new.room.objects ≡ self.old.room.objects }
        ensures invocations { self.new.room.invocations ≡ self.old.room.invocations }
        ensures names { self.old.room.names ≤ self.new.room.names + sizes_of (set_values sets) }
        ensures entries { self.new.room.entries ≡ self.old.room.entries }
    {
        while !sets.is_empty() {
            let first = sets.remove(0);
            self.exchange(Change::Local {
                into: first.local,
                value: first.value,
                pc,
            });
        }
        self.exchange(Change::Handler { handler, pc });
    }
}
