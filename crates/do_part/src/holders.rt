//! What holds each object, own or foreign.
mod counting;
mod invocations;
mod moves;
mod names;
mod rooms;
mod values;

ghost use Rattle.std.specs.Prelude.{◌≡◌, ◌<◌, ◌≤◌, true, false, Some, length};
ghost use Rattle.do_store.specs.Names.{Stored, find_stored};

use do_base::{NodeId, Oid};
use do_import::Imports;
use do_store::Store;

/// A node's own objects with their holders, and the foreign objects that it uses.
///
/// A name of an object that stands in an invocation counts once: as a holder of an own object, as a
/// use of a foreign one. Names in slots count as uses of foreign objects; those of own objects the
/// store counts itself.
#[derive(Drop)]
pub(crate) struct Holders {
    /// The node's port.
    pub(crate) node: NodeId,
    /// The own objects, with the number of their holders outside slots.
    pub(crate) store: Store,
    /// The foreign objects: how often each was received, and how often it is used.
    pub(crate) imports: Imports,
    /// How many names were ever counted, at most 2^62: no count is higher.
    pub(crate) names: u64,
}

impl Holders {
    /// Whether an own object is stored and has a slot.
    pub(crate) fn has_slot(&self, serial: u64, slot: usize) -> bool
        requires { self.now.store.node ≡ self.now.node }
        ensures there { result ≡ true → (o : Stored)
            × (find_stored self.now.store.objects serial ≡ Some o) × (slot < length o.slots) }
        ensures not { result ≡ false → (o : Stored)
            → find_stored self.now.store.objects serial ≡ Some o → length o.slots ≤ slot }
    {
        let oid = Oid {
            node: self.node,
            serial,
        };
        match self.store.get(oid) {
            Some((_, slots)) => slot < slots.len(),
            None => false,
        }
    }
}
