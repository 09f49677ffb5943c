//! Observers as keys of a set.
ghost use Rattle.std.specs.Prelude.{◌≡◌};

use crate::observers::same;
use do_base::Oid;
use std::hash::{Hash, Hasher};
use std::marker::Model;

/// An observer as a key of a set, which contracts see as its name.
#[derive(Drop)]
pub(crate) struct Key {
    observer: Oid,
}

impl Model for Key {
    ghost use Rattle.do_base.specs.names.Names.{ObjectName};

    ghost Value = { ObjectName };

    ghost view = { λ k. k.observer };
}

impl Key {
    /// The key of an observer.
    pub(crate) fn new(observer: Oid) -> Key
        ensures { result ≡ observer }
    {
        Key { observer }
    }

    /// The observer.
    pub(crate) fn observer(&self) -> Oid
        ensures { result ≡ self.now }
    {
        self.observer
    }
}

impl PartialEq for Key {
    ghost use Rattle.std.{specs.Cmp.Rules.comparing, proofs.Common.rules};
    ghost use Rattle.do_center.specs.Observers.{same_object};

    ghost eq = { same_object };

    ghost laws = { Prim.search (comparing, rules) };

    fn eq(&self, other: &Key) -> bool {
        same(self.observer, other.observer)
    }
}

impl Eq for Key {
    ghost use Rattle.std.{specs.Cmp.Rules.comparing, proofs.Common.rules};

    ghost laws = { Prim.search (comparing, rules) };
}

impl Hash for Key {
    ghost use Rattle.std.specs.Hash as fed;
    ghost use Rattle.std.{specs.{Cmp.Rules.hashing, Prelude.◌++◌}, proofs.Common.rules};

    ghost hash_input = { λ o. fed.u16 o.node ++ fed.u64 o.serial };

    ghost respects_eq = { Prim.search (hashing, rules) };

    fn hash<H: Hasher>(&self, state: &mut H) {
        state.write_u16(self.observer.node.port());
        state.write_u64(self.observer.serial);
    }
}
