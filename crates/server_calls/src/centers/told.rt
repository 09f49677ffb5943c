//! What is told of a notification centre: what it has, and the last deliveries.

use crate::centers::CenterCalls;
use crate::centers::parts::{delivery_value, note_of, registration_of};
use call_rows::{call_of, count_at, count_value, no_call, object_at};
use do_base::{Value, Values, copy_value};
use do_center::{Deliveries, Registration, is_note, is_registration};
use do_native_acts::{as_number, show_list};
use std::alloc::AllocError;
use std::test::Fail;

/// What is told of a centre.
#[derive(Clone, Copy)]
enum Call {
    IsSuspended,
    Registrations,
    CountRegistrations,
    IsRegistration,
    IsNote,
    Delivery,
    Infos,
    Observers,
}

/// The words of the calls.
const CALLS: [(&[u8], Call); 8] = [
    (b"is_suspended", Call::IsSuspended),
    (b"registrations", Call::Registrations),
    (b"count_registrations", Call::CountRegistrations),
    (b"is_registration", Call::IsRegistration),
    (b"is_note", Call::IsNote),
    (b"delivery", Call::Delivery),
    (b"infos", Call::Infos),
    (b"observers", Call::Observers),
];

/// Adds the observers of deliveries, in order.
fn push_observers(values: &mut Values, sent: &Deliveries) -> Result<(), AllocError> {
    for delivery in sent.as_slice() {
        values.push(Value::Obj(delivery.observer))?;
    }
    Ok(())
}

/// The observers of deliveries, in order.
fn observers(sent: &Deliveries) -> Result<Value, AllocError> {
    let mut values = Values::new(sent.allocator());
    push_observers(&mut values, sent)?;
    Ok(Value::List(values))
}

/// Adds the information of deliveries, in order.
fn push_infos(values: &mut Values, sent: &Deliveries) -> Result<(), AllocError> {
    for delivery in sent.as_slice() {
        values.push(copy_value(&delivery.note.info)?)?;
    }
    Ok(())
}

/// The information of deliveries, in order.
fn infos(sent: &Deliveries) -> Result<Value, AllocError> {
    let mut values = Values::new(sent.allocator());
    push_infos(&mut values, sent)?;
    Ok(Value::List(values))
}

/// Whether parts are a registration.
fn tells_registration(args: &Values) -> Result<Value, Fail> {
    let registration = registration_of(object_at(args, 0)?, args)?;
    Ok(as_number(is_registration(&registration)))
}

/// Whether parts are a notification.
fn tells_note(args: &Values) -> Result<Value, Fail> {
    let note = note_of(args)?;
    Ok(as_number(is_note(&note)))
}

impl CenterCalls {
    /// Whether an observer is suspended.
    fn is_suspended(&self, args: &Values) -> Result<Value, Fail> {
        let observer = object_at(args, 0)?;
        Ok(as_number(self.center.is_suspended(observer)))
    }

    /// The registrations in order.
    fn registrations(&self) -> Result<Value, Fail> {
        Ok(show_list::<Registration>(&self.center.registrations()?)?)
    }

    /// How many registrations there are.
    fn count_registrations(&self) -> Result<Value, Fail> {
        count_value(self.center.registrations()?.len())
    }

    /// The delivery at a place.
    fn delivery(&self, args: &Values) -> Result<Value, Fail> {
        let at = usize::from(count_at(args, 0)?);
        delivery_value(self.alloc, self.sent.get(at).ok_or("no delivery")?)
    }

    /// Tells what the centre has, what it delivered last, or whether a part keeps the limits.
    pub(crate) fn tell(&self, word: &[u8], args: &Values) -> Result<Value, Fail> {
        match call_of(&CALLS, word) {
            Some(Call::IsSuspended) => self.is_suspended(args),
            Some(Call::Registrations) => self.registrations(),
            Some(Call::CountRegistrations) => self.count_registrations(),
            Some(Call::IsRegistration) => tells_registration(args),
            Some(Call::IsNote) => tells_note(args),
            Some(Call::Delivery) => self.delivery(args),
            Some(Call::Infos) => Ok(infos(&self.sent)?),
            Some(Call::Observers) => Ok(observers(&self.sent)?),
            None => no_call(),
        }
    }
}
