ghost use Rattle.std.specs.Prelude.{◌≡◌, ◌∷◌, [], IsTrue, List, IfOk, IfErr, IfSome, OnErr, OnOk};
ghost use Rattle.std.specs.Prelude.{Some, true};
ghost use Rattle.do_base.specs.values.Kinds.{object};
ghost use Rattle.do_grammar.specs.Words.{◌>>?◌};
ghost use Rattle.do_native_acts.specs.{Faults.FaultOf, Rows.rows_in};
ghost use Rattle.do_center.specs.Calls.{Refused, added, suspended};
ghost use Rattle.do_center.specs.{History.{after, is_suspended, registered}, Notes.is_note};
ghost use Rattle.do_center.specs.{Posting.posted, Registrations.is_registration, Removing.removed};
ghost use Rattle.do_center.specs.Seats.{registrations};
ghost use Rattle.do_center.specs.Slots.{from_slots, of_core, seated, to_slots, waiting_in};
ghost use Rattle.do_center.specs.{Observers.has_object, declared.calls.Call.Call};

use crate::limits::{MAX_REGISTRATIONS, are_seats};
use crate::notes::{Deliveries, Note};
use crate::posting::came_to_all;
use crate::queues::Queue;
use crate::registrations::Registration;
use crate::removing::{Gone, left_of};
use crate::seats::{Seat, Seats, deliveries, queue_of, registrations_of, replace_queue};
use crate::slots::{AllWaiting, Waiting, queues_slot, registrations_slot, seated};
use crate::suspended::{MAX_SUSPENDED, Suspended};
use do_base::{Items, Oid, Oids, Text, Value, Values};
use do_native_acts::{CoreFault, read_rows, show_rows};
use std::alloc::{AllocError, Global};
use std::marker::Model;

/// The most deliveries of one call.
pub(crate) const MAX_DELIVERIES: usize = 1024;

/// The core of a centre: registrations of observers, the oldest first, with what waits for each
/// observer, and the observers that are suspended, the longest suspended first.
///
/// There are at most 256 registrations and 256 suspended observers, and at most 64 notifications
/// wait for one observer. Contracts see the list of the registrations, each with the queue of its
/// observer where it is the observer's first, and the list of suspended observers.
#[derive(Drop)]
pub struct Center {
    seats: Seats,
    suspended: Suspended,
}

impl Model for Center {
    ghost use Rattle.do_base.specs.contracts.values.value.Value as v;
    ghost use Rattle.std.specs.{Prelude.IsTrue, Coded.codes};
    ghost use Rattle.do_center.specs.Seats.{Core, is_core};

    ghost Value = { Core };

    ghost coded = { Prim.hlevel (codes, v.the_row.coded) };

    ghost view = { λ c. (c.seats, c.suspended) };

    ghost invariant = { λ c. IsTrue (is_core (c.seats, c.suspended)) };
}

/// A core with these parts, if it is one and has these slots.
fn of_core(slots: &Values, seats: Seats, suspended: Oids) -> Result<Option<Center>, AllocError>
    ensures { IfOk result (λ read. read ≡ of_core slots.now (seats, suspended)) }
{
    if !are_seats(&seats) {
        return Ok(None);
    }
    let Some(suspended) = Suspended::of(&suspended)? else {
        return Ok(None);
    };
    let center = Center { seats, suspended };
    let shown = center.to_slots()?;
    if shown == *slots {
        Ok(Some(center))
    } else {
        Ok(None)
    }
}

/// The core of these registrations, suspended observers and queues, if it is one and has these
/// slots.
fn of_rows(
    slots: &Values,
    registrations: &Items<Registration>,
    suspended: Oids,
    waiting: AllWaiting,
) -> Result<Option<Center>, AllocError>
    ensures { IfOk result (λ read. read
        ≡ of_core slots.now (seated registrations.now waiting, suspended)) }
{
    let seats = seated(registrations, waiting)?;
    of_core(slots, seats, suspended)
}

/// The core of these registrations, and of the suspended observers and the queues that two slots
/// hold, if it is one and has these slots.
fn of_slots(
    slots: &Values,
    registrations: &Items<Registration>,
    suspended: &Value,
    queues: &Value,
) -> Result<Option<Center>, AllocError>
    ensures { IfOk result (λ read. read ≡ (rows_in object suspended.now >>? λ os.
        rows_in waiting_in queues.now >>? λ ws.
        of_core slots.now (seated registrations.now ws, os))) }
{
    let alloc = slots.allocator();
    let Some(suspended) = read_rows::<Oid>(alloc, suspended)? else {
        return Ok(None);
    };
    match read_rows::<Waiting>(alloc, queues)? {
        Some(waiting) => of_rows(slots, registrations, suspended, waiting),
        None => Ok(None),
    }
}

/// A list of three values.
fn three(alloc: Global, first: Value, second: Value, third: Value) -> Result<Values, AllocError>
    ensures { IfOk result (λ values. values ≡ first ∷ second ∷ third ∷ []) }
{
    let mut values = Values::with_capacity(alloc, 3)?;
    values.push(first)?;
    values.push(second)?;
    values.push(third)?;
    Ok(values)
}

impl Center {
    /// A centre without registrations.
    pub fn new(alloc: Global) -> Center
        ensures { result ≡ ([], []) }
    {
        Center {
            seats: Seats::new(alloc),
            suspended: Suspended::new(alloc),
        }
    }

    /// The allocator that the core was made with.
    pub fn allocator(&self) -> Global {
        self.seats.allocator()
    }

    /// The core whose slots these are.
    // That it shows the same slots is proved once, at the one return of `from_slots`.
    fn read(slots: &Values) -> Result<Option<Center>, AllocError>
        ensures { IfOk result (λ read. read ≡ from_slots slots.now) }
    {
        let [registrations, suspended, queues] = slots.as_slice() else {
            return Ok(None);
        };
        match read_rows::<Registration>(slots.allocator(), registrations)? {
            Some(registrations) => of_slots(slots, &registrations, suspended, queues),
            None => Ok(None),
        }
    }

    /// The core whose slots these are; none exactly where no core has these slots.
    pub fn from_slots(slots: &Values) -> Result<Option<Center>, AllocError>
        ensures value { IfOk result (λ read. read ≡ from_slots slots.now) }
        ensures exact { IfOk result (λ read. IfSome read (λ core. to_slots core ≡ slots.now)) }
    {
        Center::read(slots)
    }

    /// The slots of the core: its registrations, the suspended observers, and the queues with their
    /// observers, each nil where it would be empty.
    pub fn to_slots(&self) -> Result<Values, AllocError>
        ensures value { IfOk result (λ slots. slots ≡ to_slots self.now) }
        ensures exact { IfOk result (λ slots. from_slots slots ≡ Some self.now) }
    {
        let registrations = registrations_slot(&self.seats)?;
        let suspended = show_rows(&self.suspended.to_list()?)?;
        let queues = queues_slot(&self.seats)?;
        let slots = three(self.seats.allocator(), registrations, suspended, queues)?;
        Ok(slots)
    }

    /// The registrations, the oldest first: those that the calls made so far added and did not take
    /// out.
    pub fn registrations(&self) -> Result<Items<Registration>, AllocError>
        ensures value { IfOk result (λ all. all ≡ registrations self.now.0) }
        ensures meaning { (h : List Call) → self.now ≡ after h
            → IfOk result (λ all. all ≡ registered h) }
    {
        registrations_of(&self.seats)
    }

    /// Whether an observer is suspended: whether the last call that suspended or resumed it, of
    /// those that were not refused, suspended it.
    pub fn is_suspended(&self, observer: Oid) -> bool
        ensures value { result ≡ has_object self.now.1 observer }
        ensures meaning { (h : List Call) → self.now ≡ after h
            → result ≡ is_suspended h observer }
    {
        self.suspended.contains(observer)
    }

    /// Adds a registration behind the others.
    ///
    /// Where there are 256 it is refused as `Full(256)`. On any error the core is unchanged.
    pub fn add(&mut self, registration: Registration) -> Result<(), CoreFault>
        requires { IsTrue (is_registration registration) }
        ensures done { OnOk result (added self.old registration ≡ Some self.new) }
        ensures fault { IfErr result (FaultOf 256 (added self.old registration)) }
        ensures err { OnErr result (self.new ≡ self.old) }
    {
        let alloc = self.seats.allocator();
        if self.seats.len() >= MAX_REGISTRATIONS {
            return Err(CoreFault::Full(MAX_REGISTRATIONS as u64));
        }
        let queue = Queue::new(alloc);
        self.seats.push(Seat {
            registration,
            queue,
        })?;
        Ok(())
    }

    /// Takes out the registrations of an observer that have this name and this object, where none
    /// stands for any. What they queued goes too. If memory runs out, the core is unchanged.
    pub fn remove(
        &mut self,
        observer: Oid,
        name: Option<Text>,
        object: Option<Text>,
    ) -> Result<(), AllocError>
        ensures ok { OnOk result (self.new ≡ removed self.old observer name object) }
        ensures err { OnErr result (self.new ≡ self.old) }
    {
        let gone = Gone {
            observer,
            name,
            object,
        };
        let left = left_of(&self.seats, &gone)?;
        self.seats = left;
        Ok(())
    }

    /// Suspends an observer, or resumes it and gives what waited for it, the oldest first. An
    /// observer that is suspended already keeps its place.
    ///
    /// Where 256 observers are suspended another one is refused as `Full(256)`. On any error the
    /// core is unchanged.
    pub fn suspend(&mut self, observer: Oid, on: bool) -> Result<Deliveries, CoreFault>
        ensures done { IfOk result (λ sent.
            suspended self.old observer on ≡ Some (self.new, sent)) }
        ensures fault { IfErr result (FaultOf 256 (suspended self.old observer on)) }
        ensures err { OnErr result (self.new ≡ self.old) }
    {
        if on {
            self.hold(observer)?;
            return Ok(Deliveries::new(self.seats.allocator()));
        }
        let queue = queue_of(&self.seats, observer)?;
        let sent = deliveries(&self.seats, &queue)?;
        let none = Queue::new(self.seats.allocator());
        replace_queue(&mut self.seats, observer, none);
        self.suspended.remove(observer);
        Ok(sent)
    }

    /// Posts a notification: it is delivered to each registration that it is for, or waits as the
    /// registration says where the observer is suspended.
    ///
    /// Where more than 1,024 deliveries would come of it, it is refused as `Full(1024)`. On any
    /// error the core is unchanged.
    pub fn post(&mut self, note: &Note, immediate: bool) -> Result<Deliveries, CoreFault>
        requires { IsTrue (is_note note.now) }
        ensures done { IfOk result (λ sent.
            posted self.old note.now immediate ≡ Some (self.new, sent)) }
        ensures fault { IfErr result (Refused 1024 (posted self.old note.now immediate)) }
        ensures err { OnErr result (self.new ≡ self.old) }
    {
        let after = came_to_all(&self.seats, note, immediate, &self.suspended)?;
        if after.due.len() > MAX_DELIVERIES {
            return Err(CoreFault::Full(MAX_DELIVERIES as u64));
        }
        let sent = deliveries(&self.seats, &after.due)?;
        self.seats = after.seats;
        Ok(sent)
    }

    /// Has an observer among those that are suspended.
    fn hold(&mut self, observer: Oid) -> Result<(), CoreFault>
        ensures done { OnOk result (suspended self.old observer true ≡ Some (self.new, [])) }
        ensures fault { IfErr result (FaultOf 256 (suspended self.old observer true)) }
        ensures err { OnErr result (self.new ≡ self.old) }
    {
        if self.suspended.contains(observer) {
            return Ok(());
        }
        if self.suspended.len() >= MAX_SUSPENDED {
            return Err(CoreFault::Full(MAX_SUSPENDED as u64));
        }
        self.suspended.push(observer)?;
        Ok(())
    }
}
