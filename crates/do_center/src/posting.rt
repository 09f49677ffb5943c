//! Posts: to whom a notification is due, and for whom it waits.
ghost use Rattle.std.specs.Prelude.{◌≡◌, ◌<◌, ◌≤◌, [], IfOk, OnOk, length, slice_get};
ghost use Rattle.do_center.specs.Posting.{came_to_all, comes_to, due, flushed, held, waits};
ghost use Rattle.do_center.specs.Queues.{queue_of};

use crate::notes::Note;
use crate::queues::{Queue, Queued, coalesced, enqueued};
use crate::seats::{Seats, replace_queue};
use crate::suspended::Suspended;
use crate::suspension::Suspension;
use do_base::Oid;
use std::alloc::AllocError;

/// A post under way.
#[derive(Drop)]
pub(crate) struct Posting {
    /// The registrations with what waits now.
    pub(crate) seats: Seats,
    /// What is due at once, in order.
    pub(crate) due: Queue,
}

/// One notification more is due.
fn due(posting: &mut Posting, entry: Queued) -> Result<(), AllocError>
    ensures ok { OnOk result (posting.new ≡ due posting.old entry) }
{
    posting.due.push(entry)?;
    Ok(())
}

/// This waits for the observer now.
fn waits(posting: &mut Posting, observer: Oid, queue: Queue)
    ensures { posting.new ≡ waits posting.old observer queue }
{
    replace_queue(&mut posting.seats, observer, queue);
}

/// Takes out all that waits for the observer.
fn taken(posting: &mut Posting, observer: Oid) -> Queue
    ensures left { posting.new ≡ waits posting.old observer [] }
    ensures was { result ≡ queue_of posting.old.seats observer }
{
    let none = Queue::new(posting.seats.allocator());
    replace_queue(&mut posting.seats, observer, none)
}

/// All that waits for the observer is due, and behind it this.
fn flushed(posting: &mut Posting, observer: Oid, entry: Queued) -> Result<(), AllocError>
    ensures ok { OnOk result (posting.new ≡ flushed posting.old observer entry) }
{
    let mut queue = taken(posting, observer);
    queue.push(entry)?;
    posting.due.append(queue)?;
    Ok(())
}

/// Does what the behaviour says of a notification for an observer that is suspended.
#[tactic(auto, using(crate::proofs::SeatsKept::with_again))]
fn held(
    posting: &mut Posting,
    observer: Oid,
    behaviour: Suspension,
    entry: Queued,
) -> Result<(), AllocError>
    ensures ok { OnOk result (posting.new ≡ held posting.old observer behaviour entry) }
{
    match behaviour {
        Suspension::Drop => Ok(()),
        Suspension::Coalesce => {
            let queue = taken(posting, observer);
            let queue = enqueued(coalesced(queue, &entry), entry)?;
            waits(posting, observer, queue);
            Ok(())
        }
        Suspension::Hold => {
            let queue = taken(posting, observer);
            let queue = enqueued(queue, entry)?;
            waits(posting, observer, queue);
            Ok(())
        }
        Suspension::DeliverImmediately => flushed(posting, observer, entry),
    }
}

/// The notification comes to the registration at a place.
fn comes_to(
    posting: &mut Posting,
    at: usize,
    note: &Note,
    immediate: bool,
    suspended: &Suspended,
) -> Result<(), AllocError>
    requires within { at < 256 }
    ensures ok { OnOk result (posting.new ≡ comes_to note.now immediate suspended.now posting.old
        at (slice_get posting.old.seats at)) }
{
    let Some(seat) = posting.seats.get(at) else {
        return Ok(());
    };
    if !seat.registration.matches(note) {
        return Ok(());
    }
    let observer = seat.registration.observer;
    let behaviour = if immediate {
        Suspension::DeliverImmediately
    } else {
        seat.registration.behaviour
    };
    let note = note.copied()?;
    let place = at as u32;
    let entry = Queued { place, note };
    if suspended.contains(observer) {
        held(posting, observer, behaviour, entry)
    } else {
        due(posting, entry)
    }
}

/// The notification comes to each registration, one after the other.
pub(crate) fn came_to_all(
    seats: &Seats,
    note: &Note,
    immediate: bool,
    suspended: &Suspended,
) -> Result<Posting, AllocError>
    requires few { length seats.now ≤ 256 }
    ensures { IfOk result (λ after. after
        ≡ came_to_all note.now immediate suspended.now seats.now) }
{
    let mut posting = Posting {
        seats: seats.clone()?,
        due: Queue::new(seats.allocator()),
    };
    for at in 0..seats.len() {
        comes_to(&mut posting, at, note, immediate, suspended)?;
    }
    Ok(posting)
}
