//! Calls of a store, each made only where it may be.
ghost use Rattle.std.specs.Prelude.{◌≡◌, [], ◌∷◌, IfOk};
ghost use Rattle.do_base.specs.declared.values.value.Value.TheVariants.{Nil};

use crate::parts::store::may::{is_stored, may_hold};
use do_base::{NodeId, Oid, Value, Values};
use do_class::ClassId;
use do_store::Store;
use std::alloc::{AllocError, Global};

/// Two slots, the first of which holds a value and the second nothing.
fn two_slots(alloc: Global, value: Value) -> Result<Values, AllocError>
    ensures { IfOk result (λ slots. slots ≡ value ∷ Nil ∷ []) }
{
    let mut slots = Values::new(alloc);
    slots.push(value)?;
    slots.push(Value::Nil)?;
    Ok(slots)
}

/// Stores an object of two slots, the first of which holds a value. None where it may not: the
/// value is a list, or names an object that is not stored.
///
/// If memory runs out, nothing changes.
pub(crate) fn create(
    store: &mut Store,
    alloc: Global,
    node: NodeId,
    class: ClassId,
    value: Value,
) -> Result<Option<Oid>, AllocError>
    requires { store.old.node ≡ node }
    ensures { store.new.node ≡ store.old.node }
{
    let may = may_hold(store, node, &value);
    if !may {
        return Ok(None);
    }
    if store.next_serial() == u64::MAX {
        return Ok(None);
    }
    let slots = two_slots(alloc, value)?;
    let oid = store.create(class, slots)?;
    Ok(Some(oid))
}

/// Writes a slot, and hands back what it held. None where that may not be: the object or the slot
/// is not there, the value is a list, or it names an object that is not stored.
pub(crate) fn write_slot(
    store: &mut Store,
    node: NodeId,
    oid: Oid,
    at: usize,
    value: Value,
) -> Option<Value>
    requires { store.old.node ≡ node }
    ensures { store.new.node ≡ store.old.node }
{
    let may = may_hold(store, node, &value);
    if !may {
        return None;
    }
    match store.get(oid) {
        Some((_, slots)) => {
            if at >= slots.len() {
                return None;
            }
        }
        None => return None,
    }
    Some(store.set_slot(oid, at, value))
}

/// Counts one holder more, and tells whether it did: the object is stored.
pub(crate) fn hold(store: &mut Store, oid: Oid) -> bool
    ensures { store.new.node ≡ store.old.node }
{
    let held = store.holders(oid);
    let stored = is_stored(store, oid);
    if !stored {
        return false;
    }
    if held == u64::MAX {
        return false;
    }
    store.retain(oid);
    true
}

/// Counts one holder less, and tells whether it did: the object is stored and has one.
pub(crate) fn let_go(store: &mut Store, oid: Oid) -> bool
    ensures { store.new.node ≡ store.old.node }
{
    let held = store.holders(oid);
    let stored = is_stored(store, oid);
    if !stored {
        return false;
    }
    if held == 0 {
        return false;
    }
    store.release(oid);
    true
}
