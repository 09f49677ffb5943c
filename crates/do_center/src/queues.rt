//! What waits for observers that are suspended.
ghost use Rattle.std.specs.Prelude.{◌≡◌, IfOk};
ghost use Rattle.do_center.specs.Queues.{coalesced, enqueued, same_kind, same_label};
ghost use Rattle.do_center.specs.Seats.{is_none};

use crate::notes::Note;
use do_base::{ExactClone, Items, Text};
use std::alloc::AllocError;

/// The most notifications that wait for one observer.
pub(crate) const MAX_WAITING: usize = 64;

/// A notification that waits, and the place of the registration that it came by, from 0.
#[derive(Clone, Debug, Drop)]
pub(crate) struct Queued {
    pub(crate) place: u32,
    pub(crate) note: Note,
}

impl ExactClone for Queued {
    ghost use Rattle.std.proofs.Common.{rules};

    ghost exact_clone = { λ x y h. Prim.search rules };
}

/// What waits for one observer, the oldest first.
pub(crate) type Queue = Items<Queued>;

/// Whether nothing waits.
pub(crate) fn is_none(queue: &Queue) -> bool
    ensures { result ≡ is_none queue.now }
{
    match queue.as_slice() {
        [] => true,
        _ => false,
    }
}

/// Whether both are about the same object, or about none.
fn same_label(a: &Option<Text>, b: &Option<Text>) -> bool
    ensures { result ≡ same_label a.now b.now }
{
    match (a, b) {
        (None, None) => true,
        (Some(a), Some(b)) => *a == *b,
        _ => false,
    }
}

/// Whether both came by one registration, and have one name and one object.
fn same_kind(a: &Queued, b: &Queued) -> bool
    ensures { result ≡ same_kind a.now b.now }
{
    a.place == b.place && a.note.name == b.note.name && same_label(&a.note.object, &b.note.object)
}

/// A queue without those that a new notification stands for.
pub(crate) fn coalesced(queue: Queue, entry: &Queued) -> Queue
    ensures { result ≡ coalesced queue entry.now }
{
    let mut waiting = queue.into_vec();
    waiting.retain(|queued| !same_kind(queued, entry));
    Queue::from_vec(waiting)
}

/// A queue with one notification more, the last. Of 64 that wait the oldest goes.
pub(crate) fn enqueued(queue: Queue, entry: Queued) -> Result<Queue, AllocError>
    ensures { IfOk result (λ longer. longer ≡ enqueued queue entry) }
{
    let mut queue = queue;
    if queue.len() >= MAX_WAITING {
        queue.remove(0);
    }
    queue.push(entry)?;
    Ok(queue)
}
