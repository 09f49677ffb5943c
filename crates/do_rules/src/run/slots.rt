//! How the slots of an object change.
ghost use Rattle.std.specs.Prelude.{◌≡◌, ◌==◌, ◌<◌, IfOk, IfSome, OnOk, length, position};
ghost use Rattle.do_behave.specs.InPlace.{written};
ghost use Rattle.do_machine.specs.{Lists.change_first, run.Changes.{with_slots, with_writes}};

use crate::effect::{Done, given};
use crate::lists::{item_at, set_item};
use do_base::{Values, copy_value};
use do_behave::{Write, Writes};
use do_machine::{Heap, Node, Shared, Stored};
use std::alloc::AllocError;

/// Writes values into slots, in order.
fn write(slots: &mut Values, writes: &[Write]) -> Done
    ensures { OnOk result (slots.new ≡ written slots.old writes.now) }
{
    let [first, rest @ ..] = writes else {
        return Ok(());
    };
    set_item(slots, first.slot, copy_value(&first.value)?);
    write(slots, rest)
}

/// Where the stored object of a serial stands.
fn stored_at(heap: &Heap, serial: u64) -> Option<usize>
    ensures index { result ≡ position (λ x. x.serial == serial) heap.now }
    ensures within { IfSome result (λ at. at < length heap.now) }
{
    heap.as_slice()
        .iter()
        .position(|stored| stored.get().serial == serial)
}

/// An object with slots written.
fn with_writes(writes: &Writes, stored: &Stored) -> Result<Shared<Stored>, AllocError>
    ensures { IfOk result (λ x. x ≡ with_writes writes.now stored.now) }
{
    let mut slots = stored.slots.clone()?;
    let done = write(&mut slots, writes.as_slice());
    let changed = Stored {
        serial: stored.serial,
        class: stored.class,
        slots: given(slots, done)?,
    };
    Shared::new(stored.slots.allocator(), changed)
}

/// The heap with slots of an object written; of one that is not stored none is.
#[tactic(auto, using(do_machine::proofs::FirstPlace::first_steps))]
fn heap_with_slots(serial: u64, writes: &Writes, heap: Heap) -> Result<Heap, AllocError>
    ensures { IfOk result (λ xs.
        xs ≡ change_first (λ x. x.serial == serial) (with_writes writes.now) heap) }
{
    let mut heap = heap;
    let Some(at) = stored_at(&heap, serial) else {
        return Ok(heap);
    };
    let changed = with_writes(writes, item_at(&heap, at).get())?;
    heap.set(at, changed);
    Ok(heap)
}

/// The same of a heap that is shared.
fn shared_with_slots(serial: u64, writes: &Writes, heap: &Heap) -> Result<Shared<Heap>, AllocError>
    ensures { IfOk result (λ xs.
        xs ≡ change_first (λ x. x.serial == serial) (with_writes writes.now) heap.now) }
{
    let written = heap_with_slots(serial, writes, heap.clone()?)?;
    Shared::new(heap.allocator(), written)
}

/// Slots of an object are written; of one that is not stored none is. Where none is written, the
/// heap stays shared.
#[tactic(auto, using(crate::proofs::Sharing::none_steps))]
pub(crate) fn write_slots(node: &mut Node, serial: u64, writes: &Writes) -> Done
    ensures { OnOk result (node.new ≡ with_slots serial writes.now node.old) }
{
    if writes.is_empty() {
        return Ok(());
    }
    node.heap = shared_with_slots(serial, writes, node.heap.get())?;
    Ok(())
}
