//! The foreign objects that a node received and that it uses, and which of them may leave.
mod leaving;

ghost use Rattle.std.specs.FinMap as map;
ghost use Rattle.std.specs.Prelude.{◌≡◌, ◌+◌, ◌-◌, ◌<◌, ◌≤◌, ◌^◌, ◌⊎◌, ◌||◌, IsTrue, length, OnOk};
ghost use Rattle.std.specs.{Prelude.if◌then◌else◌, FinMap.put};
ghost use Rattle.do_export.specs.Counts.{count_of, raised, lowered, entry_cmp, IsPositive};
ghost use Rattle.do_import.specs.ByObject.{taken_off};

use do_base::{NodeId, Oid};
use do_export::Exports;
use do_sorted::Sorted;
use std::alloc::{AllocError, Global};
use std::marker::Model;

/// How often each foreign object was received and not given back, and how often it is used.
///
/// A use is each reason to keep the object: a slot, an invocation, a lend or an ask. Those that may
/// leave stand in a thread of their own, so that no call looks at all objects.
#[derive(Debug, Drop)]
pub struct Holdings {
    received: Exports,
    uses: Exports,
    thread: Sorted<(NodeId, u64), ()>,
}

impl Model for Holdings {
    ghost use Rattle.std.specs.FinMap as map;
    ghost use Rattle.std.specs.Prelude.{min, ◌+◌, ◌-◌, length};
    ghost use Rattle.do_import.specs.Held.{Held, held_code, IsRoomy};

    ghost Value = { Held };

    ghost coded = { held_code };

    ghost view = { λ h. record {
      received = h.received.counts;
      uses = h.uses.counts;
      spare = h.uses.spare;
      places = min h.received.spare
          (length h.thread.rows + h.thread.spare - map.len h.received.counts);
    } };

    ghost invariant = { λ i. IsRoomy i.received.counts i.uses.counts i.thread.rows i.thread.spare };
}

/// Threads an object unless it is kept from leaving.
fn thread_unless(thread: &mut Sorted<(NodeId, u64), ()>, kept: bool, home: NodeId, serial: u64)
    requires room { IsTrue kept ⊎ (0 < thread.old.spare) }
    ensures rows { thread.new.rows
        ≡ (if kept then thread.old.rows else put entry_cmp (home, serial) tt thread.old.rows) }
    ensures capacity { length thread.new.rows + thread.new.spare
        ≡ length thread.old.rows + thread.old.spare }
{
    if kept {
        return;
    }
    thread.put((home, serial), ());
}

impl Holdings {
    /// No object and no room, for which no memory is taken.
    pub fn new(alloc: Global) -> Holdings
        ensures received { result.received ≡ map.empty }
        ensures uses { result.uses ≡ map.empty }
    {
        Holdings {
            received: Exports::new(alloc),
            uses: Exports::new(alloc),
            thread: Sorted::new(alloc),
        }
    }

    /// Makes room to use so many objects more at least, and to receive so many.
    ///
    /// If memory runs out, the counts are unchanged.
    pub fn reserve(&mut self, uses: u64, received: u64) -> Result<(), AllocError>
        ensures received { self.new.received ≡ self.old.received }
        ensures uses { self.new.uses ≡ self.old.uses }
        ensures used { OnOk result (uses ≤ self.new.spare) }
        ensures more { OnOk result (received ≤ self.new.places) }
        ensures spare { self.old.spare ≤ self.new.spare }
        ensures places { self.old.places ≤ self.new.places }
    {
        let Some(threads) = received.checked_add(self.received.len()) else {
            return Err(AllocError);
        };
        self.received.reserve(received)?;
        self.uses.reserve(uses)?;
        self.thread.reserve(threads as usize)
    }

    /// How many more objects can be used with no memory taken.
    pub fn spare(&self) -> u64
        ensures { result ≡ self.now.spare }
    {
        self.uses.spare()
    }

    /// How many more objects can be received with no memory taken.
    pub fn places(&self) -> u64
        ensures { result ≡ self.now.places }
    {
        let threads = self.thread.capacity() as u64 - self.received.len();
        self.received.spare().min(threads)
    }

    /// How many objects were received and not given back. Each was received once at least, and no
    /// object is kept that is used 0 times.
    pub fn len(&self) -> u64
        ensures many { result ≡ map.len self.now.received }
        ensures positive { IsPositive self.now.received }
        ensures used { IsPositive self.now.uses }
    {
        self.received.len()
    }

    /// Whether an object was received and not given back.
    pub fn has(&self, oid: Oid) -> bool
        ensures { result ≡ map.contains_key self.now.received (oid.node, oid.serial) }
    {
        self.received.has(oid.node, oid.serial)
    }

    /// How often an object was received and not given back.
    pub fn received(&self, oid: Oid) -> u64
        ensures { result ≡ count_of self.now.received oid.node oid.serial }
    {
        self.received.count(oid.node, oid.serial)
    }

    /// How often an object is used. No object is kept that is used 0 times.
    pub fn uses(&self, oid: Oid) -> u64
        ensures count { result ≡ count_of self.now.uses oid.node oid.serial }
        ensures positive { IsPositive self.now.uses }
    {
        self.uses.count(oid.node, oid.serial)
    }

    /// Counts an object as received once more, in room that was made before.
    pub fn got(&mut self, oid: Oid)
        requires room { 0 < self.old.places }
        requires small { count_of self.old.received oid.node oid.serial < 2 ^ 64 - 1 }
        ensures received { self.new.received ≡ raised self.old.received oid.node oid.serial }
        ensures uses { self.new.uses ≡ self.old.uses }
        ensures spare { self.new.spare ≡ self.old.spare }
        ensures places { self.old.places ≤ self.new.places + 1 }
    {
        let home = oid.node;
        let serial = oid.serial;
        let kept = self.is_kept(home, serial);
        thread_unless(&mut self.thread, kept, home, serial);
        self.received.name(home, serial);
    }

    /// Counts one more use of an object, in room that was made before.
    pub fn refer(&mut self, oid: Oid)
        requires room { 0 < self.old.spare }
        requires small { count_of self.old.uses oid.node oid.serial < 2 ^ 64 - 1 }
        ensures received { self.new.received ≡ self.old.received }
        ensures uses { self.new.uses ≡ raised self.old.uses oid.node oid.serial }
        ensures spare { self.old.spare ≤ self.new.spare + 1 }
        ensures places { self.new.places ≡ self.old.places }
    {
        let home = oid.node;
        let serial = oid.serial;
        self.thread.remove(&(home, serial));
        self.uses.name(home, serial);
    }

    /// Counts one use of an object less, for which no room is needed.
    pub fn unrefer(&mut self, oid: Oid)
        requires { 0 < count_of self.old.uses oid.node oid.serial }
        ensures received { self.new.received ≡ self.old.received }
        ensures uses { self.new.uses ≡ lowered self.old.uses oid.node oid.serial 1 }
        ensures spare { self.old.spare ≤ self.new.spare }
        ensures places { self.new.places ≡ self.old.places }
    {
        let home = oid.node;
        let serial = oid.serial;
        let Ok(left) = self.uses.give_back(home, serial, 1) else {
            unreachable!();
        };
        if left > 0 {
            return;
        }
        let gone = !self.received.has(home, serial);
        thread_unless(&mut self.thread, gone, home, serial);
    }

    /// Counts one use of an object less, where it is used.
    pub fn take_off(&mut self, oid: Oid)
        ensures received { self.new.received ≡ self.old.received }
        ensures uses { self.new.uses ≡ taken_off self.old.uses oid }
        ensures spare { self.old.spare ≤ self.new.spare }
        ensures places { self.new.places ≡ self.old.places }
    {
        if self.uses(oid) == 0 {
            return;
        }
        self.unrefer(oid);
    }

    /// Whether an object stays as it is in the thread when it is received.
    fn is_kept(&self, home: NodeId, serial: u64) -> bool
        ensures { result ≡ (map.contains_key self.now.uses (home, serial)
            || map.contains_key self.now.received (home, serial)) }
    {
        self.uses.has(home, serial) || self.received.has(home, serial)
    }
}
