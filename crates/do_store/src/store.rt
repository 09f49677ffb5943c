//! The store of one node: what a caller sees of it, and each change.
//!
//! The count of names in slots counts each occurrence, so that the names of a list add up. It
//! is 0 exactly where no slot names the object. `sweep` promises no order.
//!
//! `create` and `set_slot` ask that each object which the new value names is stored and can be
//! counted once more. `retain` and `release` ask for a count below the highest, and above 0.
//! `names` and `holders` tell these counts, so that a caller which knows nothing of them can
//! test first.
mod holding;
mod sweeping;
mod writing;

ghost use Rattle.std.specs.Prelude.{◌≡◌, ◌≢◌, [], ◌+◌, ◌<◌, ◌≤◌, ◌^◌, length, IfOk, OnOk, IsNone};
ghost use Rattle.std.specs.Prelude.{MatchOption, Some, None, map};
ghost use Rattle.do_store.specs.Names.{Stored, find_stored, named_in, stored_name};
ghost use Rattle.do_store.specs.{Books.{Books, seen}, Listing.Rising};

use crate::object::Object;
use crate::table::Table;
use crate::waiting::Waiting;
use do_base::{NodeId, Oid, Oids, Values};
use do_class::ClassId;
use std::alloc::{AllocError, Global};
use std::marker::Model;

/// The stored objects of a node.
///
/// Contracts see the list of objects by rising serial, each with its class, its slots and how many
/// holders it has outside the slots, with the next serial and the room left. The counts of names in
/// slots are kept beside and not seen: a slot holds each object that it names.
#[derive(Drop)]
pub struct Store {
    node: NodeId,
    table: Table,
    queue: Waiting,
}

/// An object that was taken out of the store.
#[derive(Drop)]
pub struct Freed {
    /// Its name, which is never given again.
    pub oid: Oid,
    /// Its class.
    pub class: ClassId,
    /// What its slots held last.
    pub slots: Values,
}

impl Model for Store {
    ghost use Rattle.do_base.specs.contracts.values.value.Value as value;
    ghost use Rattle.std.specs.Coded.{codes};
    ghost use Rattle.do_store.specs.Names.{Objects};

    ghost Value = { Objects };

    ghost coded = { Prim.hlevel (codes, value.the_row.coded) };

    ghost use Rattle.do_store.specs.Books.{Books, view_of};

    ghost view = { λ s. view_of s.node s.table };

    ghost invariant = { λ s. Books s.node s.table.objects s.table.spare s.queue (λ n. 0) };
}

impl Store {
    /// A store with no object, whose first serial will be 1.
    pub fn new(alloc: Global, node: NodeId) -> Result<Store, AllocError>
        ensures { IfOk result (λ s. s ≡ record { node = node; objects = []; next = 1; spare = 0 }) }
    {
        let queue = Waiting::new(alloc)?;
        Ok(Store {
            node,
            table: Table::new(alloc),
            queue,
        })
    }

    /// Makes room for `more` objects at least.
    ///
    /// If memory runs out, the objects are unchanged.
    pub fn reserve(&mut self, more: u64) -> Result<(), AllocError>
        requires { length self.old.objects + more < 2 ^ 64 }
        ensures node { self.new.node ≡ self.old.node }
        ensures objects { self.new.objects ≡ self.old.objects }
        ensures next { self.new.next ≡ self.old.next }
        ensures ok { OnOk result (more ≤ self.new.spare) }
        ensures kept { self.old.spare ≤ self.new.spare }
    {
        let bound = self.table.bound() as u64;
        self.queue.reserve(bound.saturating_add(more))?;
        self.table.reserve(more)
    }

    /// How many more objects can be created with no memory taken.
    pub fn spare(&self) -> u64
        ensures { result ≡ self.now.spare }
    {
        self.table.spare()
    }

    /// An upper bound of how many objects there are, which is about twice as many at most.
    pub fn bound(&self) -> u64
        ensures many { length self.now.objects ≤ result }
        ensures rising { Rising (λ o. o.serial) 0 self.now.objects self.now.next }
    {
        self.table.bound() as u64
    }

    /// The serial that the next object gets. No more objects are stored than serials were given.
    pub fn next_serial(&self) -> u64
        ensures next { result ≡ self.now.next }
        ensures many { length self.now.objects ≤ self.now.next }
    {
        self.table.next()
    }

    /// An object with its counts. None exactly where it is not stored.
    fn object(&self, oid: Oid) -> Option<&Object>
        ensures own { oid.node ≡ self.now.node → MatchOption result
            ((find_stored self.now.objects oid.serial ≡ None)
            × (named_in self.now.node oid.serial self.now.objects ≡ 0))
            (λ o. (find_stored self.now.objects oid.serial ≡ Some (seen o.now))
            × (o.now.named ≡ named_in self.now.node oid.serial self.now.objects)) }
        ensures foreign { oid.node ≢ self.now.node → IsNone result }
    {
        let home = oid.node.port();
        if home != self.node.port() {
            return None;
        }
        let object = self.table.get(oid.serial)?;
        Some(object)
    }

    /// An object's class and slots. None exactly where it is not stored.
    pub fn get(&self, oid: Oid) -> Option<(ClassId, &Values)>
        ensures own { oid.node ≡ self.now.node
            → MatchOption result (find_stored self.now.objects oid.serial ≡ None)
            (λ p. (o : Stored) × (find_stored self.now.objects oid.serial ≡ Some o)
            × (p.0 ≡ o.class) × (p.1.now ≡ o.slots)) }
        ensures foreign { oid.node ≢ self.now.node → IsNone result }
    {
        let object = self.object(oid)?;
        Some((object.class, &object.slots))
    }

    /// The names of the stored objects, by rising serial.
    pub fn stored(&self) -> Result<Oids, AllocError>
        ensures { IfOk result (λ oids. oids ≡ map (stored_name self.now.node) self.now.objects) }
    {
        self.table.list(self.node)
    }
}
