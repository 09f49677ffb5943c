//! Registrations, notifications and deliveries as rows write them.
ghost use Rattle.std.specs.Prelude.{IfOk, IsTrue};
ghost use Rattle.do_center.specs.{Notes.is_note, Registrations.is_registration};

use call_rows::{copy_at, list_value, number_at, text_at, value_at};
use do_base::{Oid, Text, Value, Values, copy_value};
use do_center::{Delivery, Note, Registration, Suspension, is_note, is_registration};
use std::alloc::{AllocError, Global};
use std::test::Fail;

/// The text at a place, or none where another value stands.
pub(crate) fn label_at(args: &Values, at: usize) -> Result<Option<Text>, Fail> {
    match value_at(args, at)?.text() {
        Some(text) => Ok(Some(text.clone()?)),
        None => Ok(None),
    }
}

/// The registration of an observer that stands behind the first argument: selector, name, object
/// and the number of the behaviour.
pub(crate) fn registration_of(observer: Oid, args: &Values) -> Result<Registration, Fail> {
    let number = u8::try_from(number_at(args, 4)?)?;
    let behaviour = Suspension::of(number).ok_or("no behaviour")?;
    Ok(Registration {
        observer,
        selector: text_at(args, 1)?.clone()?,
        name: label_at(args, 2)?,
        object: label_at(args, 3)?,
        behaviour,
    })
}

/// The same, where it keeps the limits.
pub(crate) fn good_registration(observer: Oid, args: &Values) -> Result<Registration, Fail>
    ensures { IfOk result (λ registration. IsTrue (is_registration registration)) }
{
    let registration = registration_of(observer, args)?;
    if is_registration(&registration) {
        Ok(registration)
    } else {
        Err(Fail::from("no registration"))
    }
}

/// The notification of the first arguments: name, object and information.
pub(crate) fn note_of(args: &Values) -> Result<Note, Fail> {
    Ok(Note {
        name: text_at(args, 0)?.clone()?,
        object: label_at(args, 1)?,
        info: copy_at(args, 2)?,
    })
}

/// A notification, where it keeps the limits.
pub(crate) fn good_note(note: Note) -> Result<Note, Fail>
    ensures { IfOk result (λ note. IsTrue (is_note note)) }
{
    if is_note(&note) {
        Ok(note)
    } else {
        Err(Fail::from("no notification"))
    }
}

/// The notification of the name `N`, about nothing, with a number.
pub(crate) fn numbered_note(alloc: Global, number: u16) -> Result<Note, Fail> {
    Ok(Note {
        name: Text::from_slice(alloc, b"N")?,
        object: None,
        info: Value::Num(i64::from(number)),
    })
}

/// A text, or nil for none.
fn label_value(label: &Option<Text>) -> Result<Value, AllocError> {
    match label {
        Some(text) => Ok(Value::Text(text.clone()?)),
        None => Ok(Value::Nil),
    }
}

/// A delivery as a list: observer, selector, name, object and information.
pub(crate) fn delivery_value(alloc: Global, delivery: &Delivery) -> Result<Value, Fail> {
    let observer = Value::Obj(delivery.observer);
    let selector = Value::Text(delivery.selector.clone()?);
    let name = Value::Text(delivery.note.name.clone()?);
    let object = label_value(&delivery.note.object)?;
    let info = copy_value(&delivery.note.info)?;
    Ok(list_value(vec![in alloc; observer, selector, name, object, info]?))
}
