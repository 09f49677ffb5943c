//! Registrations with the queues of their observers.
ghost use Rattle.std.specs.Prelude.{◌≡◌, IfOk};
ghost use Rattle.do_center.specs.{Queues.{deliveries, queue_of, with_queue}, Seats.registrations};

use crate::notes::Deliveries;
use crate::observers::{Observed, first_of};
use crate::queues::Queue;
use crate::registrations::Registration;
use do_base::{ExactClone, Items, Oid};
use std::alloc::AllocError;
use std::mem;

/// A registration, with the queue of its observer where it is the first of the observer's.
#[derive(Clone, Debug, Drop)]
pub(crate) struct Seat {
    pub(crate) registration: Registration,
    pub(crate) queue: Queue,
}

impl ExactClone for Seat {
    ghost use Rattle.std.proofs.Common.{rules};

    ghost exact_clone = { λ x y h. Prim.search rules };
}

impl Observed for Seat {
    ghost observer = { λ s. s.registration.observer };

    fn observer(&self) -> Oid {
        self.registration.observer
    }
}

/// Registrations, the oldest first. Those of one observer have one queue, at the first of them.
///
/// They stand in a list, since two may be alike. The first of an observer's is found by a walk: it
/// costs less than the one in which each act reads the registrations from their slot.
pub(crate) type Seats = Items<Seat>;

/// A registration with a queue.
pub(crate) fn seat_of(registration: &Registration, queue: Queue) -> Result<Seat, AllocError>
    ensures { IfOk result (λ seat. seat
        ≡ record { registration = registration.now; queue = queue }) }
{
    let registration = registration.clone()?;
    Ok(Seat {
        registration,
        queue,
    })
}

/// Puts a queue in the place of that of an observer, and hands back the one that stood there. An
/// observer without registration has none.
pub(crate) fn replace_queue(seats: &mut Seats, observer: Oid, queue: Queue) -> Queue
    ensures was { result ≡ queue_of seats.old observer }
    ensures left { seats.new ≡ with_queue seats.old observer queue }
{
    match first_of(seats.as_slice(), observer) {
        Some(at) => mem::replace(&mut seats.at_mut(at).queue, queue),
        None => Queue::new(seats.allocator()),
    }
}

/// A copy of the queue of an observer.
pub(crate) fn queue_of(seats: &Seats, observer: Oid) -> Result<Queue, AllocError>
    ensures { IfOk result (λ queue. queue ≡ queue_of seats.now observer) }
{
    let all = seats.as_slice();
    match first_of(all, observer) {
        Some(at) => {
            let queue = all[at].queue.clone()?;
            Ok(queue)
        }
        None => Ok(Queue::new(seats.allocator())),
    }
}

/// The registrations alone.
pub(crate) fn registrations_of(seats: &Seats) -> Result<Items<Registration>, AllocError>
    ensures { IfOk result (λ all. all ≡ registrations seats.now) }
{
    let mut all = Items::with_capacity(seats.allocator(), seats.len())?;
    for seat in seats.as_slice() {
        all.push(seat.registration.clone()?)?;
    }
    Ok(all)
}

/// All of these, on their way to the observers of their registrations.
pub(crate) fn deliveries(seats: &Seats, queue: &Queue) -> Result<Deliveries, AllocError>
    ensures { IfOk result (λ sent. sent ≡ deliveries seats.now queue.now) }
{
    let mut sent = Deliveries::with_capacity(queue.allocator(), queue.len())?;
    for entry in queue.as_slice() {
        if let Some(seat) = seats.get(entry.place as usize) {
            sent.push(seat.registration.delivered(&entry.note)?)?;
        }
    }
    Ok(sent)
}
