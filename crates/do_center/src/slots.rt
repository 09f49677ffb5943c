//! Cores as slots keep them.
ghost use Rattle.std.specs.Prelude.{◌≡◌, ◌++◌, ◌∷◌, [], IfOk, map};
ghost use Rattle.do_center.specs.{Seats.{Core, registrations}, Slots.{place_in, queue_among}};
ghost use Rattle.do_center.specs.Slots.{queued_of, seated, waiting, waiting_of, waiting_value};
ghost use Rattle.do_center.specs.Registrations.{registration_value};
ghost use Rattle.do_native_acts.specs.Rows.{listed};
ghost use Rattle.do_center.specs.Observers.{without_first};

use crate::labels::label_value;
use crate::notes::note_in;
use crate::observers::{Observed, first_of};
use crate::queues::{Queue, Queued, is_none};
use crate::registrations::Registration;
use crate::seats::{Seat, Seats, seat_of};
use do_base::{Items, Oid, Value, Values, copy_value};
use do_native_acts::{Row, read_rows, show_rows};
use std::alloc::AllocError;

/// An observer with its queue, as a slot keeps them.
#[derive(Debug, Drop)]
pub(crate) struct Waiting {
    pub(crate) observer: Oid,
    pub(crate) queue: Queue,
}

/// Observers with their queues, in order.
pub(crate) type AllWaiting = Items<Waiting>;

/// The place that a value is: a number from 0 that has 32 bits.
fn place_in(value: &Value) -> Option<u32>
    ensures { result ≡ place_in value.now }
{
    u32::try_from(value.number()?).ok()
}

/// What four values say that waits.
fn queued_of(values: &[Value]) -> Result<Option<Queued>, AllocError>
    ensures { IfOk result (λ read. read ≡ queued_of values.now) }
{
    let [place, name, object, info] = values else {
        return Ok(None);
    };
    let Some(place) = place_in(place) else {
        return Ok(None);
    };
    match note_in(name, object, info)? {
        Some(note) => Ok(Some(Queued { place, note })),
        None => Ok(None),
    }
}

impl Row for Queued {
    ghost use Rattle.do_center.specs.Slots.{queued_in, queued_value};

    ghost read = { queued_in };

    ghost shown = { queued_value };

    fn read(value: &Value) -> Result<Option<Queued>, AllocError> {
        match value.items() {
            Some(items) => queued_of(items.as_slice()),
            None => Ok(None),
        }
    }

    fn shown(&self) -> Result<Value, AllocError> {
        let mut items = Values::with_capacity(self.note.name.allocator(), 4)?;
        items.push(Value::Num(self.place as i64))?;
        items.push(Value::Text(self.note.name.clone()?))?;
        items.push(label_value(&self.note.object)?)?;
        items.push(copy_value(&self.note.info)?)?;
        Ok(Value::List(items))
    }
}

/// The observer with its queue that two values are.
fn waiting_of(values: &Values) -> Result<Option<Waiting>, AllocError>
    ensures { IfOk result (λ read. read ≡ waiting_of values.now) }
{
    let [observer, queue] = values.as_slice() else {
        return Ok(None);
    };
    let Some(observer) = observer.object() else {
        return Ok(None);
    };
    match read_rows::<Queued>(values.allocator(), queue)? {
        Some(queue) => Ok(Some(Waiting { observer, queue })),
        None => Ok(None),
    }
}

/// An observer with its queue as a value.
fn waiting_value(observer: Oid, queue: &Queue) -> Result<Value, AllocError>
    ensures { IfOk result (λ value. value ≡ Rattle.do_center.specs.Slots.waiting_value (record {
      observer = observer;
      queue = queue.now;
    })) }
{
    let mut items = Values::with_capacity(queue.allocator(), 2)?;
    items.push(Value::Obj(observer))?;
    items.push(show_rows(queue)?)?;
    Ok(Value::List(items))
}

impl Row for Waiting {
    ghost use Rattle.do_center.specs.Slots.{waiting_in, waiting_value};

    ghost read = { waiting_in };

    ghost shown = { waiting_value };

    fn read(value: &Value) -> Result<Option<Waiting>, AllocError> {
        match value.items() {
            Some(items) => waiting_of(items),
            None => Ok(None),
        }
    }

    fn shown(&self) -> Result<Value, AllocError> {
        waiting_value(self.observer, &self.queue)
    }
}

impl Observed for Waiting {
    ghost observer = { λ w. w.observer };

    fn observer(&self) -> Oid {
        self.observer
    }
}

/// Takes the queue of an observer out of these.
fn take_queue(waiting: &mut AllWaiting, observer: Oid) -> Queue
    ensures was { result ≡ queue_among waiting.old observer }
    ensures left { waiting.new ≡ without_first (λ w. w.observer) waiting.old observer }
{
    match first_of(waiting.as_slice(), observer) {
        Some(at) => waiting.remove(at).queue,
        None => Queue::new(waiting.allocator()),
    }
}

/// Each queue at the first registration of its observer.
pub(crate) fn seated(
    registrations: &Items<Registration>,
    waiting: AllWaiting,
) -> Result<Seats, AllocError>
    ensures { IfOk result (λ seats. seats ≡ seated registrations.now waiting) }
{
    let mut waiting = waiting;
    let mut seats = Seats::new(registrations.allocator());
    for registration in registrations.as_slice() {
        let queue = take_queue(&mut waiting, registration.observer);
        seats.push(seat_of(registration, queue)?)?;
    }
    Ok(seats)
}

/// The registrations as a slot keeps them.
pub(crate) fn registrations_slot(seats: &Seats) -> Result<Value, AllocError>
    ensures { IfOk result (λ value. value
        ≡ listed (map registration_value (registrations seats.now))) }
{
    if seats.is_empty() {
        return Ok(Value::Nil);
    }
    let mut rows = Values::with_capacity(seats.allocator(), seats.len())?;
    for seat in seats.as_slice() {
        rows.push(seat.registration.shown()?)?;
    }
    Ok(Value::List(rows))
}

/// The rows of queues with one more, unless the queue is empty.
fn with_row(rows: Values, seat: &Seat) -> Result<Values, AllocError>
    ensures { IfOk result (λ more. more ≡ rows ++ map waiting_value (waiting (seat.now ∷ []))) }
{
    let mut rows = rows;
    if is_none(&seat.queue) {
        return Ok(rows);
    }
    rows.push(waiting_value(seat.registration.observer, &seat.queue)?)?;
    Ok(rows)
}

/// The queues as a slot keeps them: those that are not empty, by the first registrations of their
/// observers.
pub(crate) fn queues_slot(seats: &Seats) -> Result<Value, AllocError>
    ensures { IfOk result (λ value. value ≡ listed (map waiting_value (waiting seats.now))) }
{
    let mut rows = Values::new(seats.allocator());
    for seat in seats.as_slice() {
        rows = with_row(rows, seat)?;
    }
    if rows.is_empty() {
        return Ok(Value::Nil);
    }
    Ok(Value::List(rows))
}
