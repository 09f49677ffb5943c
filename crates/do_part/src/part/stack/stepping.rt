//! Changes of the top invocation that are steps, with their writes of slots.
ghost use Rattle.std.specs.Prelude.{◌≡◌, ◌<◌, ◌≤◌, ◌+◌, [], ◌∷◌, length, false, Some, slice_get};
ghost use Rattle.std.specs.Prelude.{None, OnOk, OnErr, IsOk};
ghost use Rattle.do_behave.specs.{Changes.IsFitting, declared.invocation.Invocation.Invocation};
ghost use Rattle.do_behave.specs.declared.act.Act.TheVariants.{Step};
ghost use Rattle.do_behave.specs.declared.change.Change.TheVariants.{Other, Slot, Slots};
ghost use Rattle.do_stack.specs.Exchange.{given};
ghost use Rattle.do_part.specs.Changed.{written_values, change_writes, changed, act_left_on};
ghost use Rattle.do_part.specs.Changed.{set_values, is_push};
ghost use Rattle.do_part.specs.Names.{value_of, values_of, size_of, sizes_of, AreStored};

use crate::part::Part;
use do_base::{Items, Value};
use do_behave::{Act, Change, Frame, Handler, LocalSets, Writes};
use std::alloc::AllocError;

impl Part {
    /// The top invocation goes on, and a slot of its object is written.
    fn step_slot(&mut self, slot: usize, value: Value, pc: u32)
        requires top { 0 < length self.old.own.node.stack }
        requires names { size_of value ≤ self.old.room.names }
        requires stored { AreStored self.old.own.node (value_of value) }
        ensures own { self.new.own ≡ record self.old.own {
          node = changed (Slot slot value pc) self.old.own.node;
        } }
        ensures objects { self.new.room.objects ≡ self.old.room.objects }
        ensures invocations { self.new.room.invocations ≡ self.old.room.invocations }
        ensures names { self.old.room.names ≤ self.new.room.names + size_of value }
        ensures entries { self.new.room.entries ≡ self.old.room.entries }
    {
        let serial = self.top_serial();
        self.go_to(pc);
        self.write(serial, slot, value);
    }

    /// The top invocation has other locals and another handler, and slots of its object are
    /// written.
    fn step_act(&mut self, pc: u32, locals: Frame, handler: Option<Handler>, writes: Writes)
        requires top { 0 < length self.old.own.node.stack }
        requires names { sizes_of locals + sizes_of (written_values writes)
            ≤ self.old.room.names }
        requires locals { AreStored self.old.own.node (values_of locals) }
        requires stored { AreStored self.old.own.node (values_of (written_values writes)) }
        ensures own { self.new.own ≡ record self.old.own {
          node = changed (Other (Step pc locals handler writes)) self.old.own.node;
        } }
        ensures objects { self.new.room.objects ≡ self.old.room.objects }
        ensures invocations { self.new.room.invocations ≡ self.old.room.invocations }
        ensures names { self.old.room.names
            ≤ self.new.room.names + sizes_of locals + sizes_of (written_values writes) }
        ensures entries { self.new.room.entries ≡ self.old.room.entries }
    {
        let serial = self.top_serial();
        let none = Items::new(writes.allocator());
        self.exchange(Change::Other(Act::Step {
            pc,
            locals,
            handler,
            writes: none,
        }));
        self.write_all(serial, writes);
    }

    /// The top invocation has other locals and another handler, and slots of its object are
    /// written.
    fn step_slots(&mut self, sets: LocalSets, handler: Option<Handler>, writes: Writes, pc: u32)
        requires top { 0 < length self.old.own.node.stack }
        requires names { sizes_of (set_values sets) + sizes_of (written_values writes)
            ≤ self.old.room.names }
        requires locals { AreStored self.old.own.node (values_of (set_values sets)) }
        requires stored { AreStored self.old.own.node (values_of (written_values writes)) }
        ensures own { self.new.own ≡ record self.old.own {
          node = changed (Slots sets handler writes pc) self.old.own.node;
        } }
        ensures objects { self.new.room.objects ≡ self.old.room.objects }
        ensures invocations { self.new.room.invocations ≡ self.old.room.invocations }
        ensures names { self.old.room.names
            ≤ self.new.room.names + sizes_of (set_values sets) + sizes_of (written_values writes) }
        ensures entries { self.new.room.entries ≡ self.old.room.entries }
    {
        let serial = self.top_serial();
        self.set_locals(sets, handler, pc);
        self.write_all(serial, writes);
    }

    /// Makes a change of the top invocation that is a step, with its writes of slots.
    ///
    /// Only a push takes memory. If that runs out, what the part has is unchanged.
    pub fn step(&mut self, change: Change) -> Result<(), AllocError>
        requires top { 0 < length self.old.own.node.stack }
        requires fits { (top : Invocation) → slice_get self.old.own.node.stack 0 ≡ Some top
            → IsFitting top change }
        requires step { act_left_on change self.old.own.node.stack ≡ None }
        requires names { sizes_of (given change)
            + sizes_of (written_values (change_writes change)) ≤ self.old.room.names }
        requires locals { AreStored self.old.own.node (values_of (given change)) }
        requires stored { AreStored self.old.own.node
            (values_of (written_values (change_writes change))) }
        ensures own { OnOk result (self.new.own
            ≡ record self.old.own { node = changed change self.old.own.node }) }
        ensures err { OnErr result (self.new.own ≡ self.old.own) }
        ensures sure { is_push change ≡ false → IsOk result }
        ensures objects { self.new.room.objects ≡ self.old.room.objects }
        ensures invocations { self.new.room.invocations ≡ self.old.room.invocations }
        ensures names { self.old.room.names ≤ self.new.room.names + sizes_of (given change)
            + sizes_of (written_values (change_writes change)) }
        ensures entries { self.new.room.entries ≡ self.old.room.entries }
    {
        match change {
            Change::Local { into, value, pc } => self.set_local(into, value, pc),
            Change::Goto { pc } => self.go_to(pc),
            Change::Slot { slot, value, pc } => self.step_slot(slot, value, pc),
            Change::Push {
                list,
                item,
                weight,
                pc,
            } => self.push_item(list, item, weight, pc)?,
            Change::Slots {
                sets,
                handler,
                writes,
                pc,
            } => self.step_slots(sets, handler, writes, pc),
            Change::Handler { handler, pc } => self.exchange(Change::Handler { handler, pc }),
            Change::Other(
                Act::Step {
                    pc,
                    locals,
                    handler,
                    writes,
                },
            ) => self.step_act(pc, locals, handler, writes),
            Change::Other(_) => unreachable!(),
        }
        Ok(())
    }
}
