//! Registrations that are taken out, and what waits at those that stay.
ghost use Rattle.std.specs.Prelude.{◌≡◌, ◌<◌, ◌≤◌, length, slice_index_or, None, IfOk};
ghost use Rattle.std.specs.Option.{option_copied};
ghost use Rattle.do_center.specs.Removing.{count_left, goes, left_of, moved, new_places};
ghost use Rattle.do_center.specs.Removing.{place_left, seats_left};

use crate::observers::same;
use crate::queues::{Queue, Queued};
use crate::registrations::{Registration, fits_label};
use crate::seats::{Seats, queue_of, replace_queue, seat_of};
use do_base::{Items, Oid, Text};
use std::alloc::AllocError;

/// Which registrations go: those of an observer that have this name and this object, where none
/// stands for any.
#[derive(Debug, Drop)]
pub(crate) struct Gone {
    pub(crate) observer: Oid,
    pub(crate) name: Option<Text>,
    pub(crate) object: Option<Text>,
}

impl Gone {
    /// Whether a registration is among them.
    fn has(&self, registration: &Registration) -> bool
        ensures { result ≡ goes self.now.observer self.now.name self.now.object registration.now }
    {
        same(registration.observer, self.observer)
            && fits_label(&self.name, registration.name.as_ref())
            && fits_label(&self.object, registration.object.as_ref())
    }
}

/// The place of a registration that stays, behind as many that do.
fn place_left(out: bool, count: u32) -> Option<u32>
    ensures { result ≡ place_left out count }
{
    if out { None } else { Some(count) }
}

/// How many stay, with one more that may.
fn count_left(out: bool, count: u32) -> u32
    requires { count < 4294967295 }
    ensures { result ≡ count_left out count }
{
    if out { count } else { count + 1 }
}

/// The place that each registration then has, unless it goes.
fn new_places(seats: &Seats, gone: &Gone) -> Result<Items<Option<u32>>, AllocError>
    requires few { length seats.now ≤ 256 }
    ensures { IfOk result (λ places. places
        ≡ new_places (goes gone.now.observer gone.now.name gone.now.object) 0 seats.now) }
{
    let mut places = Items::with_capacity(seats.allocator(), seats.len())?;
    let mut count = 0;
    for seat in seats.as_slice() {
        let out = gone.has(&seat.registration);
        places.push(place_left(out, count))?;
        count = count_left(out, count);
    }
    Ok(places)
}

/// The place of the registration at a place.
fn place_at(places: &Items<Option<u32>>, at: u32) -> Option<u32>
    ensures { result ≡ slice_index_or places.now at None }
{
    match places.get(at as usize) {
        Some(place) => *place,
        None => None,
    }
}

/// What waits at registrations that stay.
fn moved(queue: &Queue, places: &Items<Option<u32>>) -> Result<Queue, AllocError>
    ensures { IfOk result (λ rest. rest ≡ moved places.now queue.now) }
{
    let mut rest = Queue::new(queue.allocator());
    for entry in queue.as_slice() {
        if let Some(place) = place_at(places, entry.place) {
            let note = entry.note.copied()?;
            rest.push(Queued { place, note })?;
        }
    }
    Ok(rest)
}

/// The registrations that stay, with what waits at those.
fn seats_left(seats: &Seats, gone: &Gone, places: &Items<Option<u32>>) -> Result<Seats, AllocError>
    ensures { IfOk result (λ left. left ≡ seats_left
        (goes gone.now.observer gone.now.name gone.now.object) places.now seats.now) }
{
    let mut left = Seats::new(seats.allocator());
    for seat in seats.as_slice() {
        if !gone.has(&seat.registration) {
            let queue = moved(&seat.queue, places)?;
            left.push(seat_of(&seat.registration, queue)?)?;
        }
    }
    Ok(left)
}

/// What is left once some registrations of an observer are gone.
pub(crate) fn left_of(seats: &Seats, gone: &Gone) -> Result<Seats, AllocError>
    requires few { length seats.now ≤ 256 }
    ensures { IfOk result (λ left. left ≡ left_of
        (goes gone.now.observer gone.now.name gone.now.object) gone.now.observer seats.now) }
{
    let places = new_places(seats, gone)?;
    let mut left = seats_left(seats, gone, &places)?;
    let queue = moved(&queue_of(seats, gone.observer)?, &places)?;
    replace_queue(&mut left, gone.observer, queue);
    Ok(left)
}
