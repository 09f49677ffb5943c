//! Objects created, and slots written.
ghost use Rattle.std.specs.Prelude.{◌≡◌, ◌≢◌, [], ◌∷◌, ◌++◌, ◌+◌, ◌<◌, ◌^◌, ℕ, length, slice_get};
ghost use Rattle.std.specs.Prelude.{slice_set, IfOk, OnOk, OnErr, IsOk, Some};
ghost use Rattle.do_store.specs.Names.{Stored, named_in, value_names, values_name, find_stored};
ghost use Rattle.do_store.specs.Names.{replaced, AllStored};

use super::Store;
use crate::counting::{lower_value, raise_value, raise_values};
use do_base::{Oid, Value, Values};
use do_class::ClassId;
use std::alloc::AllocError;

impl Store {
    /// How often slots name an own object, each time counted; 0 for any other.
    pub fn names(&self, oid: Oid) -> u64
        ensures own { oid.node ≡ self.now.node
            → result ≡ named_in self.now.node oid.serial self.now.objects }
        ensures foreign { oid.node ≢ self.now.node → result ≡ 0 }
    {
        match self.object(oid) {
            Some(object) => object.named,
            None => 0,
        }
    }

    /// Stores a new object in room that was made before.
    fn create_reserved(&mut self, class: ClassId, slots: Values) -> Oid
        requires spare { 0 < self.old.spare }
        requires next { self.old.next + 1 < 2 ^ 64 }
        requires stored { AllStored self.old.node self.old.objects
            (λ n. values_name self.old.node n slots) }
        requires bound { (n : ℕ) → 0 < values_name self.old.node n slots
            → named_in self.old.node n self.old.objects
            + values_name self.old.node n slots < 2 ^ 64 }
        ensures oid { result ≡ record { node = self.old.node; serial = self.old.next } }
        ensures node { self.new.node ≡ self.old.node }
        ensures objects { self.new.objects ≡ self.old.objects ++ record {
          serial = self.old.next;
          class = class;
          slots = slots;
          held = 0;
        } ∷ [] }
        ensures next { self.new.next ≡ self.old.next + 1 }
        ensures spare { self.new.spare + 1 ≡ self.old.spare }
    {
        let serial = self.table.next();
        let port = self.node.port();
        raise_values(&mut self.table, port, &slots);
        let _bound = self.table.bound();
        self.table.add(class, slots, true);
        self.queue.post(serial);
        Oid {
            node: self.node,
            serial,
        }
    }

    /// Stores a new object, which nothing holds, under the next serial.
    ///
    /// Each own object that the slots name must be stored, and `names` tells how often it is named
    /// already. If memory runs out, nothing changes; where there is room, none is taken.
    pub fn create(&mut self, class: ClassId, slots: Values) -> Result<Oid, AllocError>
        requires next { self.old.next + 1 < 2 ^ 64 }
        requires stored { AllStored self.old.node self.old.objects
            (λ n. values_name self.old.node n slots) }
        requires bound { (n : ℕ) → 0 < values_name self.old.node n slots
            → named_in self.old.node n self.old.objects
            + values_name self.old.node n slots < 2 ^ 64 }
        ensures oid { IfOk result
            (λ oid. oid ≡ record { node = self.old.node; serial = self.old.next }) }
        ensures node { self.new.node ≡ self.old.node }
        ensures objects { OnOk result
            (self.new.objects ≡ self.old.objects ++ record {
              serial = self.old.next;
              class = class;
              slots = slots;
              held = 0;
            } ∷ []) }
        ensures next { OnOk result (self.new.next ≡ self.old.next + 1) }
        ensures room { 0 < self.old.spare → IsOk result }
        ensures spare { 0 < self.old.spare → self.new.spare + 1 ≡ self.old.spare }
        ensures err { OnErr result
            ((self.new.objects ≡ self.old.objects) × (self.new.next ≡ self.old.next)) }
    {
        let _next = self.next_serial();
        if self.spare() == 0 {
            self.reserve(1)?;
            return Ok(self.create_reserved(class, slots));
        }
        Ok(self.create_reserved(class, slots))
    }

    /// Writes a slot, and hands back the old value.
    ///
    /// Each own object that the new value names must be stored.
    pub fn set_slot(&mut self, oid: Oid, at: usize, value: Value) -> Value
        requires there { (o : Stored) × (find_stored self.old.objects oid.serial ≡ Some o)
            × (at < length o.slots) }
        requires stored { AllStored self.old.node self.old.objects
            (λ n. value_names self.old.node n value) }
        requires bound { (n : ℕ) → 0 < value_names self.old.node n value
            → named_in self.old.node n self.old.objects
            + value_names self.old.node n value < 2 ^ 64 }
        ensures old { (o : Stored) → find_stored self.old.objects oid.serial ≡ Some o
            → slice_get o.slots at ≡ Some result }
        ensures objects { self.new.objects
            ≡ replaced oid.serial (λ o. record o { slots = slice_set o.slots at value } ∷ [])
            self.old.objects }
        ensures node { self.new.node ≡ self.old.node }
        ensures next { self.new.next ≡ self.old.next }
        ensures spare { self.new.spare ≡ self.old.spare }
    {
        let port = self.node.port();
        raise_value(&mut self.table, port, &value);
        let _bound = self.table.bound();
        let old = self.table.set_slot(oid.serial, at, value);
        lower_value(&mut self.table, &mut self.queue, port, &old);
        old
    }
}
