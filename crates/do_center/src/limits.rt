//! The limits of registrations and of their queues.
ghost use Rattle.std.specs.{Prelude.{◌≡◌, slice_get}, List.list_all};
ghost use Rattle.do_center.specs.Seats.{are_apart, are_seats, has_none, is_of, is_queue, is_queued};
ghost use Rattle.do_center.specs.Seats.{is_seat, registrations};

use crate::notes::is_note;
use crate::observers::same;
use crate::queues::{MAX_WAITING, Queue, Queued, is_none};
use crate::registrations::is_registration;
use crate::seats::{Seat, Seats};
use do_base::Oid;

/// The most registrations of a core.
pub(crate) const MAX_REGISTRATIONS: usize = 256;

/// Whether there is a registration at a place that is the observer's.
fn is_of(seats: &Seats, observer: Oid, place: u32) -> bool
    ensures { result ≡ is_of observer (slice_get (registrations seats.now) place) }
{
    match seats.get(place as usize) {
        Some(seat) => same(seat.registration.observer, observer),
        None => false,
    }
}

/// Whether what waits for an observer is a notification that came by one of its registrations.
fn is_queued(seats: &Seats, observer: Oid, entry: &Queued) -> bool
    ensures { result ≡ is_queued (registrations seats.now) observer entry.now }
{
    is_of(seats, observer, entry.place) && is_note(&entry.note)
}

/// Whether a queue can be the observer's.
fn is_queue(seats: &Seats, observer: Oid, queue: &Queue) -> bool
    ensures { result ≡ is_queue (registrations seats.now) observer queue.now }
{
    if queue.len() > MAX_WAITING {
        return false;
    }
    for entry in queue.as_slice() {
        if !is_queued(seats, observer, entry) {
            return false;
        }
    }
    true
}

/// Whether a registration with its queue keeps the limits.
fn is_seat(seats: &Seats, seat: &Seat) -> bool
    ensures { result ≡ is_seat (registrations seats.now) seat.now }
{
    is_registration(&seat.registration) && is_queue(seats, seat.registration.observer, &seat.queue)
}

/// Whether all of them do.
fn all_seats(seats: &Seats) -> bool
    ensures { result ≡ list_all (is_seat (registrations seats.now)) seats.now }
{
    for seat in seats.as_slice() {
        if !is_seat(seats, seat) {
            return false;
        }
    }
    true
}

/// Whether there is no queue at any registration of an observer.
fn have_none(observer: Oid, seats: &[Seat]) -> bool
    ensures { result ≡ list_all (has_none observer) seats.now }
{
    for seat in seats {
        if same(seat.registration.observer, observer) && !is_none(&seat.queue) {
            return false;
        }
    }
    true
}

/// Whether each queue stands at the first registration of its observer.
fn are_apart(seats: &[Seat]) -> bool
    ensures { result ≡ are_apart seats.now }
{
    match seats {
        [] => true,
        [seat, rest @ ..] => have_none(seat.registration.observer, rest) && are_apart(rest),
    }
}

/// Whether these can be the registrations of a core.
pub(crate) fn are_seats(seats: &Seats) -> bool
    ensures { result ≡ are_seats seats.now }
{
    seats.len() <= MAX_REGISTRATIONS && all_seats(seats) && are_apart(seats.as_slice())
}
