//! What is tested before a store is called.
ghost use Rattle.std.specs.Prelude.{◌≡◌, IsTrue, Some};
ghost use Rattle.do_store.specs.Names.{Stored, find_stored};
ghost use Rattle.site_calls.specs.May.{MayHold};
ghost use Rattle.do_base.specs.declared.values.value.Value.TheVariants.{Obj};

use do_base::{NodeId, Oid, Value};
use do_store::Store;

/// Whether an object is one of the store's own, and stored.
pub(crate) fn is_stored(store: &Store, oid: Oid) -> bool
    ensures home { IsTrue result → oid.node ≡ store.now.node }
    ensures stored { IsTrue result
        → (o : Stored) × (find_stored store.now.objects oid.serial ≡ Some o) }
{
    match store.get(oid) {
        Some(_) => true,
        None => false,
    }
}

/// Whether a slot may name an object once more: an own one where it is stored, a foreign one
/// always.
fn may_be_named(store: &Store, node: NodeId, oid: Oid) -> bool
    requires { store.now.node ≡ node }
    ensures { IsTrue result → MayHold store.now (Obj oid) }
{
    let home = oid.node.port();
    if home != node.port() {
        return true;
    }
    if store.names(oid) == u64::MAX {
        return false;
    }
    is_stored(store, oid)
}

/// Whether a slot may hold a value, which is no list.
pub(crate) fn may_hold(store: &Store, node: NodeId, value: &Value) -> bool
    requires { store.now.node ≡ node }
    ensures { IsTrue result → MayHold store.now value.now }
{
    match value {
        Value::Nil => true,
        Value::Num(_) => true,
        Value::Text(_) => true,
        Value::Obj(oid) => may_be_named(store, node, *oid),
        Value::List(_) => false,
    }
}
