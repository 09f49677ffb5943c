//! The observers that are suspended.
//!
//! They are kept in a set of the kit's `indexmap`, which finds an observer without a walk and keeps
//! the order in which they came.
//!
//! The suspended observers are kept in the kit's `indexmap`, which finds one without a walk and
//! keeps the order in which they were suspended. Registrations have no key, since two of them
//! may be alike, and both then get what is posted. So they stand in order in a list, and the
//! first of an observer's is found by a walk. There are at most 256, and each act reads all of
//! them from their slot first. So a map of first places, made anew with each act, saved
//! nothing.
ghost use Rattle.std.specs.Prelude.{◌≡◌, ◌++◌, ◌∷◌, [], IfOk, OnOk, OnErr, false, length};
ghost use Rattle.do_center.specs.{Observers.{has_object, without_object}, Seats.read_suspended};

use crate::key::Key;
use do_base::{Oid, Oids};
use indexmap::IndexSet;
use std::alloc::{AllocError, Global};
use std::marker::Model;

/// The most observers that are suspended.
pub(crate) const MAX_SUSPENDED: usize = 256;

/// Observers that are suspended, the longest suspended first; none is there twice.
///
/// Contracts see the list of their names.
#[derive(Drop)]
pub(crate) struct Suspended {
    set: IndexSet<Key>,
}

impl Model for Suspended {
    ghost use Rattle.std.specs.Prelude.{List};
    ghost use Rattle.do_base.specs.names.Names.{ObjectName};

    ghost Value = { List ObjectName };

    ghost view = { λ s. s.set.keys };
}

impl Suspended {
    /// No observers, for which no memory is taken.
    pub(crate) fn new(alloc: Global) -> Suspended
        ensures { result ≡ [] }
    {
        Suspended {
            set: IndexSet::new(alloc),
        }
    }

    /// These observers, in their order; none exactly where there are more than 256, or one is there
    /// twice.
    pub(crate) fn of(observers: &Oids) -> Result<Option<Suspended>, AllocError>
        ensures { IfOk result (λ read. read ≡ read_suspended observers.now) }
    {
        if observers.len() > MAX_SUSPENDED {
            return Ok(None);
        }
        let mut suspended = Suspended::new(observers.allocator());
        for observer in observers.as_slice() {
            if suspended.contains(*observer) {
                return Ok(None);
            }
            suspended.push(*observer)?;
        }
        Ok(Some(suspended))
    }

    /// How many they are.
    pub(crate) fn len(&self) -> usize
        ensures { result ≡ length self.now }
    {
        self.set.len()
    }

    /// Whether an observer is among them.
    pub(crate) fn contains(&self, observer: Oid) -> bool
        ensures { result ≡ has_object self.now observer }
    {
        self.set.contains(&Key::new(observer))
    }

    /// The list of them.
    pub(crate) fn to_list(&self) -> Result<Oids, AllocError>
        ensures { IfOk result (λ observers. observers ≡ self.now) }
    {
        let keys = self.set.as_slice();
        let mut observers = Oids::with_capacity(*self.set.allocator(), keys.len())?;
        for key in keys {
            observers.push(key.observer())?;
        }
        Ok(observers)
    }

    /// Adds an observer behind the others. If memory runs out, they are unchanged.
    #[tactic(auto, using(crate::proofs::SuspendedSet::new_goes_last))]
    pub(crate) fn push(&mut self, observer: Oid) -> Result<(), AllocError>
        requires absent { has_object self.old observer ≡ false }
        ensures ok { OnOk result (self.new ≡ self.old ++ observer ∷ []) }
        ensures err { OnErr result (self.new ≡ self.old) }
    {
        match self.set.insert(Key::new(observer)) {
            Ok(_) => Ok(()),
            Err(_) => Err(AllocError),
        }
    }

    /// Takes an observer out, if it is there. The others keep their order.
    pub(crate) fn remove(&mut self, observer: Oid)
        ensures { self.new ≡ without_object self.old observer }
    {
        self.set.shift_remove(&Key::new(observer));
    }
}
