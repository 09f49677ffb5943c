//! Slots of own objects, written.
ghost use Rattle.std.specs.Prelude.{◌≡◌, ◌≤◌, ◌+◌, ◌∷◌, []};
ghost use Rattle.do_machine.specs.run.Changes.{with_slots};
ghost use Rattle.do_part.specs.Names.{value_of, values_of, size_of, sizes_of, AreStored};
ghost use Rattle.do_part.specs.Changed.{written_values};

use crate::part::Part;
use crate::tally::Tally;
use do_base::{Oid, Value};
use do_behave::Writes;

impl Part {
    /// Writes a slot of an own object, where there is such a slot.
    pub fn write(&mut self, serial: u64, slot: usize, value: Value)
        requires names { size_of value ≤ self.old.room.names }
        requires stored { AreStored self.old.own.node (value_of value) }
        ensures own { self.new.own ≡ record self.old.own {
          node = with_slots serial (record { slot = slot; value = value } ∷ []) self.old.own.node;
        } }
        ensures objects { self.new.room.objects ≡ self.old.room.objects }
        ensures invocations { self.new.room.invocations ≡ self.old.room.invocations }
        ensures names { self.old.room.names ≤ self.new.room.names + size_of value }
        ensures entries { self.new.room.entries ≡ self.old.room.entries }
    {
        if !self.holders.has_slot(serial, slot) {
            return;
        }
        let oid = Oid {
            node: self.holders.node,
            serial,
        };
        self.holders.tally_value(Tally::More, &value, false);
        let old = self.holders.store.set_slot(oid, slot, value);
        self.holders.tally_value(Tally::Less, &old, false);
    }

    /// Writes slots of an own object, in order, where there are such slots.
    pub fn write_all(&mut self, serial: u64, mut writes: Writes)
        requires names { sizes_of (written_values writes) ≤ self.old.room.names }
        requires stored { AreStored self.old.own.node (values_of (written_values writes)) }
        ensures own { self.new.own
            ≡ record self.old.own { node = with_slots serial writes self.old.own.node } }
        ensures objects { self.new.room.objects ≡ self.old.room.objects }
        ensures invocations { self.new.room.invocations ≡ self.old.room.invocations }
        ensures names { self.old.room.names
            ≤ self.new.room.names + sizes_of (written_values writes) }
        ensures entries { self.new.room.entries ≡ self.old.room.entries }
    {
        while !writes.is_empty() {
            let first = writes.remove(0);
            self.write(serial, first.slot, first.value);
        }
    }
}
