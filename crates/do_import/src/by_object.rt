//! A map by foreign objects: counts of them, or their classes.
ghost use Rattle.std.specs.FinMap as map;
ghost use Rattle.std.specs.Prelude.{◌≡◌, ◌+◌, ◌-◌, ◌<◌, ◌≤◌, ◌^◌, OnOk, OnErr, IfOk, IsSome};
ghost use Rattle.std.specs.{Prelude.{map as each, slice_get, length}, Option.option_copied};
ghost use Rattle.do_export.specs.Counts.{count_of};
ghost use Rattle.do_import.specs.ByObject.{object_of, added, taken_off, first_kept, left_of};
ghost use Rattle.do_import.specs.ByObject.{home_ended};

use do_base::{Items, NodeId, Oid, Oids};
use do_class::ClassId;
use do_sorted::Sorted;
use std::alloc::{AllocError, Global};
use std::marker::Model;

/// A value for each of some objects, by port and serial, and the room left.
#[derive(Debug, Drop)]
pub struct ByObject<V> {
    rows: Sorted<(NodeId, u64), V>,
}

impl<V> Model for ByObject<V> {
    ghost use Rattle.std.specs.FinMap as map;
    ghost use Rattle.std.specs.Prelude.{T};
    ghost use Rattle.do_export.specs.Counts.{entry_cmp};
    ghost use Rattle.do_import.specs.ByObject.{Rows, rows_code};

    ghost Value = { Rows V };

    ghost coded = { rows_code V.code };

    ghost view = { λ b. record { rows = map.from_sorted b.rows.rows; spare = b.rows.spare } };

    ghost invariant = { λ b. T (map.is_sorted entry_cmp b.rows.rows) };
}

impl<V: Copy + Drop> ByObject<V> {
    /// No object and no room, for which no memory is taken.
    pub fn new(alloc: Global) -> ByObject<V>
        ensures { result ≡ record { rows = map.empty; spare = 0 } }
    {
        ByObject {
            rows: Sorted::new(alloc),
        }
    }

    /// Makes room for `more` objects at least. If memory runs out, nothing changes.
    pub fn reserve(&mut self, more: u64) -> Result<(), AllocError>
        ensures rows { self.new.rows ≡ self.old.rows }
        ensures ok { OnOk result (more ≤ self.new.spare) }
        ensures kept { self.old.spare ≤ self.new.spare }
        ensures err { OnErr result (self.new ≡ self.old) }
    {
        self.rows.reserve(more as usize)
    }

    /// How many more objects fit with no memory taken.
    pub fn spare(&self) -> u64
        ensures { result ≡ self.now.spare }
    {
        self.rows.spare() as u64
    }

    /// How many objects have a value.
    fn len(&self) -> usize
        ensures { result ≡ length (map.entries self.now.rows) }
    {
        self.rows.len()
    }

    /// The object at a place, by port and serial, with its value. None from their number on.
    fn row(&self, at: usize) -> Option<&((NodeId, u64), V)>
        ensures { option_copied result ≡ slice_get (map.entries self.now.rows) at }
    {
        self.rows.row(at)
    }

    /// The value of an object. None exactly where it has none.
    pub fn get(&self, home: NodeId, serial: u64) -> Option<V>
        ensures { result ≡ map.get self.now.rows (home, serial) }
    {
        self.rows.get(&(home, serial)).copied()
    }

    /// Whether an object has a value.
    pub fn has(&self, home: NodeId, serial: u64) -> bool
        ensures { result ≡ map.contains_key self.now.rows (home, serial) }
    {
        self.get(home, serial).is_some()
    }

    /// Gives an object a value, in room that was made before.
    pub fn put(&mut self, home: NodeId, serial: u64, value: V)
        requires { 0 < self.old.spare }
        ensures rows { self.new.rows ≡ map.insert self.old.rows (home, serial) value }
        ensures spare { self.old.spare ≤ self.new.spare + 1 }
    {
        self.rows.put((home, serial), value);
    }

    /// Gives an object that has a value another one.
    pub fn set(&mut self, home: NodeId, serial: u64, value: V)
        requires { IsSome (map.get self.old.rows (home, serial)) }
        ensures rows { self.new.rows ≡ map.insert self.old.rows (home, serial) value }
        ensures spare { self.old.spare ≤ self.new.spare }
    {
        self.rows.set(&(home, serial), value);
    }

    /// Takes out the value of an object, if it has one.
    pub fn remove(&mut self, home: NodeId, serial: u64)
        ensures rows { self.new.rows ≡ map.remove self.old.rows (home, serial) }
        ensures spare { self.old.spare ≤ self.new.spare }
    {
        self.rows.remove(&(home, serial));
    }
}

impl ByObject<u64> {
    /// How often an object is counted.
    pub fn count(&self, oid: Oid) -> u64
        ensures { result ≡ count_of self.now.rows oid.node oid.serial }
    {
        match self.get(oid.node, oid.serial) {
            Some(count) => count,
            None => 0,
        }
    }

    /// Counts an object once more, in room that was made before.
    pub fn add(&mut self, oid: Oid)
        requires room { 0 < self.old.spare }
        requires small { count_of self.old.rows oid.node oid.serial < 2 ^ 64 - 1 }
        ensures rows { self.new.rows ≡ added self.old.rows oid }
        ensures spare { self.old.spare ≤ self.new.spare + 1 }
    {
        let count = self.count(oid);
        self.put(oid.node, oid.serial, count + 1);
    }

    /// Counts an object once less, where it is counted.
    pub fn take_off(&mut self, oid: Oid)
        ensures rows { self.new.rows ≡ taken_off self.old.rows oid }
        ensures spare { self.old.spare ≤ self.new.spare }
    {
        let count = self.count(oid);
        if count == 0 {
            return;
        }
        if count == 1 {
            self.remove(oid.node, oid.serial);
            return;
        }
        self.set(oid.node, oid.serial, count - 1);
    }

    /// The objects that are counted, by port and serial.
    pub fn objects(&self) -> Result<Oids, AllocError>
        ensures { IfOk result (λ oids. oids ≡ each object_of (map.keys self.now.rows)) }
    {
        let mut oids = Items::new(self.rows.allocator());
        for at in 0..self.len() {
            let Some(row) = self.row(at) else {
                unreachable!();
            };
            let (node, serial) = row.0;
            oids.push(Oid { node, serial })?;
        }
        Ok(oids)
    }
}

impl ByObject<ClassId> {
    /// Keeps the class of an object, in room that was made before. The first class named stays.
    pub fn keep(&mut self, oid: Oid, class: ClassId)
        requires { 0 < self.old.spare }
        ensures rows { self.new.rows ≡ first_kept self.old.rows oid class }
        ensures spare { self.old.spare ≤ self.new.spare + 1 }
    {
        if self.has(oid.node, oid.serial) {
            return;
        }
        self.put(oid.node, oid.serial, class);
    }

    /// Forgets the class of an object, unless it stays for another reason.
    pub fn leave(&mut self, oid: Oid, stays: bool)
        ensures rows { self.new.rows ≡ left_of self.old.rows oid stays }
        ensures spare { self.old.spare ≤ self.new.spare }
    {
        if stays {
            return;
        }
        self.remove(oid.node, oid.serial);
    }

    /// Forgets the classes of a node's objects but of those that are counted, in one go.
    pub(crate) fn end_home(&mut self, home: NodeId, counted: &ByObject<u64>)
        ensures rows { self.new.rows ≡ home_ended self.old.rows home counted.now.rows }
        ensures spare { self.old.spare ≤ self.new.spare }
    {
        self.rows
            .retain(|row| row.0.0 != home || counted.has(row.0.0, row.0.1));
    }
}
