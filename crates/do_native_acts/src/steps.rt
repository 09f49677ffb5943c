//! Steps of native methods, which keep the limits on values.
ghost use Rattle.std.specs.{Prelude.{◌≡◌, IfOk}, List.list_all};
ghost use Rattle.do_behave.specs.Changes.{Means};
ghost use Rattle.do_native_acts.specs.{Limited.is_limited, Steps.{answered, changes, steps}};

use crate::answers::ANSWER;
use crate::limits::is_limited;
use do_base::{Exc, Value, Values, copy_value};
use do_behave::{Act, Change, Handler, Invocation, LocalSet, LocalSets, Write, Writes};
use std::alloc::AllocError;

/// The writes of those slots whose values change. Slots that only one of the lists has stay.
pub fn changes(old: &Values, new: &Values) -> Result<Writes, AllocError>
    ensures { IfOk result (λ writes. writes ≡ changes 0 old.now new.now) }
{
    let mut writes = Writes::new(old.allocator());
    let before = old.as_slice();
    let after = new.as_slice();
    let count = before.len().min(after.len());
    for slot in 0..count {
        if before[slot] != after[slot] {
            let value = copy_value(&after[slot])?;
            writes.push(Write { slot, value })?;
        }
    }
    Ok(writes)
}

/// Whether each new value of a local keeps the limits.
fn are_sets_limited(sets: &LocalSets) -> bool
    ensures { result ≡ list_all (λ s. is_limited s.value) sets.now }
{
    for set in sets.as_slice() {
        if !is_limited(&set.value) {
            return false;
        }
    }
    true
}

/// Whether each new value of a slot keeps the limits.
fn are_writes_limited(writes: &Writes) -> bool
    ensures { result ≡ list_all (λ w. is_limited w.value) writes.now }
{
    for write in writes.as_slice() {
        if !is_limited(&write.value) {
            return false;
        }
    }
    true
}

/// Goes on at place `to` with these locals set, another handler or none, and these slots written.
/// Raises Range where one of the new values is past a limit.
pub fn step(
    inv: &Invocation,
    to: u32,
    sets: LocalSets,
    handler: Option<Handler>,
    writes: Writes,
) -> Change
    ensures { Means inv.now result (steps inv.now to sets handler writes) }
{
    let _pc = inv.pc;
    if are_sets_limited(&sets) && are_writes_limited(&writes) {
        Change::Slots {
            sets,
            handler,
            writes,
            pc: to,
        }
    } else {
        Change::Other(Act::Raise(Exc::Range))
    }
}

/// Goes on at place 1, which returns this value, with these slots written. Raises Range where the
/// answer or a new value of a slot is past a limit.
pub fn answered(inv: &Invocation, value: Value, writes: Writes) -> Result<Change, AllocError>
    ensures { IfOk result (λ change. Means inv.now change (answered inv.now value writes)) }
{
    let mut sets = LocalSets::with_capacity(inv.locals.allocator(), 1)?;
    let local = ANSWER;
    sets.push(LocalSet { local, value })?;
    Ok(step(inv, 1, sets, inv.handler, writes))
}
