//! The stored objects by rising serial, in slots that are used again.
ghost use Rattle.std.specs.Prelude.{◌≡◌, [], ◌∷◌, ◌++◌, ◌+◌, ◌<◌, ◌≤◌, ◌^◌, length, slice_get};
ghost use Rattle.std.specs.{Prelude.{slice_set, IfOk, OnOk, Some, max, map}, Option.option_copied};
ghost use Rattle.do_store.specs.Listing.{Rising, object_serial};
ghost use Rattle.do_store.specs.Objects.{stored_at, edit, name_of};

use crate::object::{Object, Pair, write_counts, write_slot};
use crate::pairs::{close_up, find, leads, push_pair};
use do_base::{Items, NodeId, Oid, Oids, Value, Values};
use do_class::ClassId;
use slab::Slab;
use std::alloc::{AllocError, Global};
use std::marker::Model;

/// Objects in a slab, and by rising serial the keys that lead to them.
///
/// A slot is used again, a serial never: a pair whose slot has another serial leads to nothing.
#[derive(Drop)]
pub struct Table {
    slots: Slab<Object>,
    pairs: Vec<Pair>,
    next: u64,
    spare: u64,
}

impl Model for Table {
    ghost use Rattle.do_base.specs.contracts.values.value.Value as value;
    ghost use Rattle.do_store.specs.Objects.{Stock};
    ghost use Rattle.std.specs.Coded.{codes};

    ghost Value = { Stock };

    ghost coded = { Prim.hlevel (codes, value.the_row.coded) };

    ghost use Rattle.do_store.specs.Listing.{stock_of, Orderly};

    ghost view = { λ t. stock_of t.slots t.pairs.items t.next t.spare };

    ghost invariant = { λ t. Orderly t.slots t.pairs t.next t.spare };
}

impl Table {
    /// No object and no room.
    pub fn new(alloc: Global) -> Table
        ensures { result ≡ record { objects = []; next = 1; spare = 0 } }
    {
        Table {
            slots: Slab::new(alloc),
            pairs: Vec::new(alloc),
            next: 1,
            spare: 0,
        }
    }

    /// Makes room for `more` objects at least.
    pub fn reserve(&mut self, more: u64) -> Result<(), AllocError>
        ensures objects { self.new.objects ≡ self.old.objects }
        ensures next { self.new.next ≡ self.old.next }
        ensures ok { OnOk result (more ≤ self.new.spare) }
        ensures kept { self.old.spare ≤ self.new.spare }
        ensures most { self.new.spare ≤ max self.old.spare more }
    {
        if more <= self.spare {
            return Ok(());
        }
        self.slots.reserve(more as usize)?;
        self.pairs.reserve(more as usize)?;
        self.spare = more;
        Ok(())
    }

    /// How many more objects fit.
    pub fn spare(&self) -> u64
        ensures { result ≡ self.now.spare }
    {
        self.spare
    }

    /// The serial that the next object gets.
    pub fn next(&self) -> u64
        ensures next { result ≡ self.now.next }
        ensures rising { Rising object_serial 0 self.now.objects self.now.next }
    {
        self.next
    }

    /// An upper bound of how many objects there are.
    pub fn bound(&self) -> usize
        ensures bound { length self.now.objects ≤ result }
        ensures rising { Rising object_serial 0 self.now.objects self.now.next }
    {
        self.pairs.len()
    }

    /// Adds an object under the next serial, in room that was made before.
    pub fn add(&mut self, class: ClassId, slots: Values, waiting: bool)
        requires room { 0 < self.old.spare }
        requires next { self.old.next + 1 < 2 ^ 64 }
        ensures objects { self.new.objects ≡ self.old.objects ++ record {
          serial = self.old.next;
          class = class;
          slots = slots;
          held = 0;
          named = 0;
          waiting = waiting;
        } ∷ [] }
        ensures next { self.new.next ≡ self.old.next + 1 }
        ensures spare { self.new.spare + 1 ≡ self.old.spare }
    {
        let serial = self.next;
        let key = self.slots.insert_reserved(Object {
            serial,
            class,
            slots,
            held: 0,
            named: 0,
            waiting,
        });
        push_pair(&mut self.pairs, Pair { serial, key });
        self.next = serial + 1;
        self.spare -= 1;
    }

    /// The object with a serial. None exactly where it is not stored.
    pub fn get(&self, serial: u64) -> Option<&Object>
        ensures value { option_copied result ≡ stored_at self.now.objects serial }
        ensures rising { Rising object_serial 0 self.now.objects self.now.next }
    {
        let key = find(&self.slots, &self.pairs, serial)?;
        self.slots.get(key)
    }

    /// Writes the counts of an object, where it is stored.
    pub(crate) fn set_counts(&mut self, serial: u64, held: u64, named: u64, waiting: bool)
        ensures objects { self.new.objects
            ≡ edit serial (λ o. record o { held = held; named = named; waiting = waiting } ∷ [])
            self.old.objects }
        ensures next { self.new.next ≡ self.old.next }
        ensures spare { self.new.spare ≡ self.old.spare }
    {
        let Some(key) = find(&self.slots, &self.pairs, serial) else {
            return;
        };
        write_counts(&mut self.slots, key, held, named, waiting);
    }

    /// Writes a slot of an object, where it is stored, and hands back what stood there.
    pub fn set_slot(&mut self, serial: u64, at: usize, value: Value) -> Value
        requires { (o : Object) → stored_at self.old.objects serial ≡ Some o → at < length o.slots }
        ensures objects { self.new.objects
            ≡ edit serial (λ o. record o { slots = slice_set o.slots at value } ∷ [])
            self.old.objects }
        ensures old { (o : Object) → stored_at self.old.objects serial ≡ Some o
            → slice_get o.slots at ≡ Some result }
        ensures next { self.new.next ≡ self.old.next }
        ensures spare { self.new.spare ≡ self.old.spare }
    {
        let Some(key) = find(&self.slots, &self.pairs, serial) else {
            return value;
        };
        write_slot(&mut self.slots, key, at, value)
    }

    /// Takes out an object. Pairs that lead to nothing go once they are more than half.
    pub fn remove(&mut self, serial: u64) -> Option<Object>
        ensures objects { self.new.objects ≡ edit serial (λ o. []) self.old.objects }
        ensures taken { result ≡ stored_at self.old.objects serial }
        ensures next { self.new.next ≡ self.old.next }
        ensures spare { self.new.spare ≡ self.old.spare }
    {
        let key = find(&self.slots, &self.pairs, serial)?;
        let object = self.slots.try_remove(key);
        let pairs = self.pairs.len();
        if pairs / 2 <= self.slots.len() {
            return object;
        }
        close_up(&mut self.pairs, &self.slots);
        object
    }

    /// The names of the objects, as objects of a node.
    pub fn list(&self, node: NodeId) -> Result<Oids, AllocError>
        ensures { IfOk result (λ oids. oids ≡ map (name_of node) self.now.objects) }
    {
        let mut oids = Items::new(*self.pairs.allocator());
        for pair in self.pairs.as_slice() {
            let leads = leads(&self.slots, pair);
            if !leads {
                continue;
            }
            oids.push(Oid {
                node,
                serial: pair.serial,
            })?;
        }
        Ok(oids)
    }
}
