//! Objects that may name each other, created together: blank at first, and then filled.
//!
//! Objects that name each other are made blank first. A store wants each own object that a slot
//! names to be stored. So the copies of a message are created with nil in each slot, and then
//! written. The nils are the one thing that takes memory, before anything changes.
ghost use Rattle.std.specs.Prelude.{◌≡◌, ◌<◌, ◌≤◌, ◌+◌, ◌^◌, IfOk, OnOk, OnErr, length, map};
ghost use Rattle.std.specs.Prelude.{replicate};
ghost use Rattle.do_base.specs.declared.values.value.Value.TheVariants.{Nil};
ghost use Rattle.do_machine.specs.run.{Changes.with_slots, Fresh.with_objects};
ghost use Rattle.do_part.specs.Filled.{blank_of, filled, made_values, writes_from};
ghost use Rattle.do_part.specs.Names.{values_of, sizes_of, AreStored};

use crate::part::Part;
use do_base::{Value, Values};
use do_packet::{Made, ObjList};
use std::alloc::{AllocError, Global};

/// So many nils.
fn nils(alloc: Global, count: usize) -> Result<Values, AllocError>
    ensures { IfOk result (λ values. values ≡ replicate count Nil) }
{
    let mut values = Values::new(alloc);
    for _at in 0..count {
        values.push(Value::Nil)?;
    }
    Ok(values)
}

/// Objects of the same classes, with nil in each slot.
fn blanks(copies: &ObjList) -> Result<ObjList, AllocError>
    ensures { IfOk result (λ made. made ≡ map blank_of copies.now) }
{
    let mut made = ObjList::new(copies.allocator());
    for copy in copies.as_slice() {
        made.push(Made {
            class: copy.class,
            slots: nils(copies.allocator(), copy.slots.len())?,
        })?;
    }
    Ok(made)
}

impl Part {
    /// Stores new objects with no name in their slots, in order, in room that was made before.
    fn create_blanks(&mut self, blanks: ObjList)
        requires room { length blanks ≤ self.old.room.objects }
        requires blank { sizes_of (made_values blanks) ≡ 0 }
        ensures own { self.new.own
            ≡ record self.old.own { node = with_objects blanks self.old.own.node } }
        ensures objects { self.old.room.objects ≤ self.new.room.objects + length blanks }
        ensures invocations { self.new.room.invocations ≡ self.old.room.invocations }
        ensures names { self.old.room.names ≤ self.new.room.names }
        ensures entries { self.new.room.entries ≡ self.old.room.entries }
    {
        for blank in blanks.into_vec() {
            self.create(blank.class, blank.slots);
        }
    }

    /// Writes all slots of an own object in order, where there are such slots.
    fn fill(&mut self, serial: u64, slots: Values)
        requires names { sizes_of slots ≤ self.old.room.names }
        requires stored { AreStored self.old.own.node (values_of slots) }
        ensures own { self.new.own ≡ record self.old.own {
          node = with_slots serial (writes_from 0 slots) self.old.own.node;
        } }
        ensures objects { self.new.room.objects ≡ self.old.room.objects }
        ensures invocations { self.new.room.invocations ≡ self.old.room.invocations }
        ensures names { self.old.room.names ≤ self.new.room.names + sizes_of slots }
        ensures entries { self.new.room.entries ≡ self.old.room.entries }
    {
        let _count = slots.len();
        let mut at: usize = 0;
        for value in slots.into_vec() {
            self.write(serial, at, value);
            at += 1;
        }
    }

    /// Writes all slots of own objects whose serials are in a row.
    fn fill_each(&mut self, first: u64, copies: ObjList)
        requires names { sizes_of (made_values copies) ≤ self.old.room.names }
        requires stored { AreStored self.old.own.node (values_of (made_values copies)) }
        requires few { first + length copies < 2 ^ 64 }
        ensures own { self.new.own
            ≡ record self.old.own { node = filled first copies self.old.own.node } }
        ensures objects { self.new.room.objects ≡ self.old.room.objects }
        ensures invocations { self.new.room.invocations ≡ self.old.room.invocations }
        ensures names { self.old.room.names
            ≤ self.new.room.names + sizes_of (made_values copies) }
        ensures entries { self.new.room.entries ≡ self.old.room.entries }
    {
        let mut serial = first;
        for copy in copies.into_vec() {
            self.fill(serial, copy.slots);
            serial += 1;
        }
    }

    /// Stores new objects, which nothing holds, under the next serials, in room that was made
    /// before. Their slots may name each other.
    ///
    /// Memory is taken before anything changes: if it runs out, what the part has is unchanged.
    #[tactic(auto, using(crate::proofs::Filled::none_steps))]
    pub fn create_all(&mut self, copies: ObjList) -> Result<(), AllocError>
        requires room { length copies ≤ self.old.room.objects }
        requires names { sizes_of (made_values copies) ≤ self.old.room.names }
        requires stored { AreStored (with_objects copies self.old.own.node)
            (values_of (made_values copies)) }
        ensures own { OnOk result (self.new.own
            ≡ record self.old.own { node = with_objects copies self.old.own.node }) }
        ensures err { OnErr result (self.new.own ≡ self.old.own) }
        ensures objects { self.old.room.objects ≤ self.new.room.objects + length copies }
        ensures invocations { self.new.room.invocations ≡ self.old.room.invocations }
        ensures names { self.old.room.names
            ≤ self.new.room.names + sizes_of (made_values copies) }
        ensures entries { self.new.room.entries ≡ self.old.room.entries }
    {
        // Most messages copy no object.
        if copies.is_empty() {
            return Ok(());
        }
        let blanks = blanks(&copies)?;
        let first = self.next_serial();
        self.create_blanks(blanks);
        self.fill_each(first, copies);
        Ok(())
    }
}
