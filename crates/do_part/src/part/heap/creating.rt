//! Objects created, and the root.
ghost use Rattle.std.specs.Prelude.{◌≡◌, ◌<◌, ◌≤◌, ◌+◌, ◌∷◌, []};
ghost use Rattle.do_machine.specs.run.Fresh.{with_objects};
ghost use Rattle.do_part.specs.Names.{values_of, sizes_of, AreStored};

use crate::part::Part;
use crate::tally::Tally;
use do_base::{Oid, Values};
use do_class::ClassId;

impl Part {
    /// Stores a new object, which nothing holds, under the next serial, in room that was made
    /// before.
    pub fn create(&mut self, class: ClassId, slots: Values) -> Oid
        requires room { 0 < self.old.room.objects }
        requires names { sizes_of slots ≤ self.old.room.names }
        requires stored { AreStored self.old.own.node (values_of slots) }
        ensures oid { result ≡ record {
          node = self.old.own.node.port;
          serial = self.old.own.node.next_serial;
        } }
        ensures own { self.new.own ≡ record self.old.own {
          node = with_objects (record { class = class; slots = slots } ∷ []) self.old.own.node;
        } }
        ensures objects { self.old.room.objects ≤ self.new.room.objects + 1 }
        ensures invocations { self.new.room.invocations ≡ self.old.room.invocations }
        ensures names { self.old.room.names ≤ self.new.room.names + sizes_of slots }
        ensures entries { self.new.room.entries ≡ self.old.room.entries }
    {
        self.holders.tally_values(Tally::More, &slots, false);
        let _next = self.holders.store.next_serial();
        let Ok(oid) = self.holders.store.create(class, slots) else {
            unreachable!();
        };
        oid
    }
}
