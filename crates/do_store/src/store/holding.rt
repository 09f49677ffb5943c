//! Holders of objects outside the slots.
ghost use Rattle.std.specs.Prelude.{◌≡◌, ◌≢◌, [], ◌∷◌, ◌+◌, ◌-◌, ◌<◌, ◌^◌, Some, true, false};
ghost use Rattle.std.specs.Prelude.{if◌then◌else◌};
ghost use Rattle.do_store.specs.Names.{Stored, find_stored, held_of, replaced};

use super::Store;
use crate::counting::settle;
use do_base::Oid;

/// How many holders there are after one came or went.
fn after_holder(held: u64, comes: bool) -> u64
    ensures comes { comes ≡ true → held + 1 < 2 ^ 64 → result ≡ held + 1 }
    ensures goes { comes ≡ false → result ≡ held - 1 }
{
    if comes {
        held.saturating_add(1)
    } else {
        held.saturating_sub(1)
    }
}

impl Store {
    /// How many holders an own object has outside the slots; 0 where it is not stored.
    pub fn holders(&self, oid: Oid) -> u64
        ensures own { oid.node ≡ self.now.node
            → result ≡ held_of (find_stored self.now.objects oid.serial) }
        ensures foreign { oid.node ≢ self.now.node → result ≡ 0 }
    {
        match self.object(oid) {
            Some(object) => object.held,
            None => 0,
        }
    }

    /// Counts one holder of an object that came, or one less that went.
    fn count_holder(&mut self, serial: u64, comes: bool)
        requires { (o : Stored) × (find_stored self.old.objects serial ≡ Some o)
            × (comes ≡ true → o.held + 1 < 2 ^ 64) }
        ensures objects { self.new.objects ≡ replaced serial
            (λ o. record o { held = if comes then o.held + 1 else o.held - 1 } ∷ [])
            self.old.objects }
        ensures node { self.new.node ≡ self.old.node }
        ensures next { self.new.next ≡ self.old.next }
        ensures spare { self.new.spare ≡ self.old.spare }
    {
        let Some(object) = self.table.get(serial) else {
            return;
        };
        let held = after_holder(object.held, comes);
        let named = object.named;
        let waits = object.waiting;
        settle(&mut self.table, &mut self.queue, serial, held, named, waits);
    }

    /// Counts one more holder outside the slots.
    pub fn retain(&mut self, oid: Oid)
        requires { (o : Stored) × (find_stored self.old.objects oid.serial ≡ Some o)
            × (o.held + 1 < 2 ^ 64) }
        ensures objects { self.new.objects
            ≡ replaced oid.serial (λ o. record o { held = o.held + 1 } ∷ []) self.old.objects }
        ensures node { self.new.node ≡ self.old.node }
        ensures next { self.new.next ≡ self.old.next }
        ensures spare { self.new.spare ≡ self.old.spare }
    {
        self.count_holder(oid.serial, true);
    }

    /// Counts one holder outside the slots less.
    pub fn release(&mut self, oid: Oid)
        requires { (o : Stored) × (find_stored self.old.objects oid.serial ≡ Some o)
            × (0 < o.held) }
        ensures objects { self.new.objects
            ≡ replaced oid.serial (λ o. record o { held = o.held - 1 } ∷ []) self.old.objects }
        ensures node { self.new.node ≡ self.old.node }
        ensures next { self.new.next ≡ self.old.next }
        ensures spare { self.new.spare ≡ self.old.spare }
    {
        self.count_holder(oid.serial, false);
    }
}
