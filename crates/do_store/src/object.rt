//! An object as it is kept, and the writes to one.
ghost use Rattle.std.specs.Prelude.{◌≡◌, ◌<◌, Some, Bool, length, slice_get, slice_set};
ghost use Rattle.slab.specs.Slab.{get, slab_len, ContainsKey, Updates};

use do_base::{Value, Values};
use do_class::ClassId;
use slab::Slab;

/// A stored object, with how often it is held from outside and named in slots, and whether it
/// waits to be looked at.
#[derive(Drop)]
pub struct Object {
    pub serial: u64,
    pub class: ClassId,
    pub slots: Values,
    /// How many holders it has outside the slots.
    pub held: u64,
    /// How often slots of stored objects name it, each place in a list counted.
    pub named: u64,
    /// Whether its serial is in the queue.
    pub waiting: bool,
}

/// The key of the object with a serial. It is out of use where another object, or none, is there.
#[derive(Clone, Copy, Drop)]
pub struct Pair {
    pub serial: u64,
    pub key: usize,
}

/// Writes an object's counts.
pub(crate) fn write_counts(
    slots: &mut Slab<Object>,
    key: usize,
    held: u64,
    named: u64,
    waiting: bool,
)
    requires { ContainsKey slots.old key }
    ensures counts { (o : Object) → get slots.old key ≡ Some o
        → Updates slots.old slots.new key
        (Some (record o { held = held; named = named; waiting = waiting })) }
    ensures len { slab_len slots.new ≡ slab_len slots.old }
    ensures capacity { slots.new.capacity ≡ slots.old.capacity }
{
    let object = &mut slots[key];
    object.held = held;
    object.named = named;
    object.waiting = waiting;
}

/// Writes a slot of an object, and hands back what stood there.
pub fn write_slot(slots: &mut Slab<Object>, key: usize, at: usize, value: Value) -> Value
    requires there { ContainsKey slots.old key }
    requires within { (o : Object) → get slots.old key ≡ Some o → at < length o.slots }
    ensures before { (o : Object) → get slots.old key ≡ Some o
        → slice_get o.slots at ≡ Some result }
    ensures after { (o : Object) → get slots.old key ≡ Some o
        → Updates slots.old slots.new key (Some (record o { slots = slice_set o.slots at value })) }
    ensures len { slab_len slots.new ≡ slab_len slots.old }
    ensures capacity { slots.new.capacity ≡ slots.old.capacity }
{
    let object = &mut slots[key];
    object.slots.replace(at, value)
}
