//! Registrations of observers.
ghost use Rattle.std.specs.{Prelude.{◌≡◌, IfOk}, Option.option_copied};
ghost use Rattle.do_center.specs.Registrations.{delivered, fits_label, is_registration, matches};
ghost use Rattle.do_center.specs.Registrations.{registration_value, registration_from};
ghost use Rattle.do_center.specs.Registrations.{registration_of, selector_in};

use crate::labels::{is_label, label_in, label_value};
use crate::notes::{Delivery, Note};
use crate::suspension::{Suspension, behaviour_in};
use do_base::{ExactClone, Oid, Text, Value, Values};
use do_grammar::{colons_in, is_selector};
use do_native_acts::Row;
use std::alloc::AllocError;

/// The colons of a selector that notifications are sent by.
const COLONS: usize = 3;

/// What an observer asked for: to be sent the selector at each notification with this name and
/// about this object, where none means any, and what is done while the observer is suspended.
///
/// The selector has three colons, and a name or an object at most 255 bytes.
#[derive(Clone, Debug, Drop)]
pub struct Registration {
    /// The observer.
    pub observer: Oid,
    /// The selector that the observer is sent.
    pub selector: Text,
    /// The name of the notifications that it wants; none for every name.
    pub name: Option<Text>,
    /// The object that these are about; none for every object.
    pub object: Option<Text>,
    /// What becomes of notifications while the observer is suspended.
    pub behaviour: Suspension,
}

impl ExactClone for Registration {
    ghost use Rattle.std.proofs.Common.{rules};

    ghost exact_clone = { λ x y h. Prim.search rules };
}

/// Whether a text is a selector of three colons.
fn takes_three(text: &Text) -> bool
    ensures { result ≡ Rattle.do_center.specs.Registrations.takes_three text.now }
{
    is_selector(text.as_slice()) && colons_in(text.as_slice()) == COLONS
}

/// Whether a registration keeps the limits: a selector of three colons, and a name and an object of
/// at most 255 bytes.
pub fn is_registration(registration: &Registration) -> bool
    ensures { result ≡ is_registration registration.now }
{
    takes_three(&registration.selector)
        && is_label(&registration.name)
        && is_label(&registration.object)
}

/// The selector of three colons that a value is.
pub(crate) fn selector_in(value: &Value) -> Option<&Text>
    ensures { option_copied result ≡ selector_in value.now }
{
    value.text().filter(|text| takes_three(text))
}

/// Whether a registration's label stands for this one: none stands for any.
pub(crate) fn fits_label(wanted: &Option<Text>, other: Option<&Text>) -> bool
    ensures { result ≡ fits_label wanted.now (option_copied other.entry) }
{
    match (wanted, other) {
        (None, _) => true,
        (Some(text), Some(other)) => *text == *other,
        (Some(_), None) => false,
    }
}

impl Registration {
    /// Whether a notification is one that the observer asked for.
    pub(crate) fn matches(&self, note: &Note) -> bool
        ensures { result ≡ matches self.now note.now }
    {
        fits_label(&self.name, Some(&note.name)) && fits_label(&self.object, note.object.as_ref())
    }

    /// A notification on its way to the observer.
    pub(crate) fn delivered(&self, note: &Note) -> Result<Delivery, AllocError>
        ensures { IfOk result (λ delivery. delivery ≡ delivered self.now note.now) }
    {
        Ok(Delivery {
            observer: self.observer,
            selector: self.selector.clone()?,
            note: note.copied()?,
        })
    }
}

/// The registration that five values are.
pub(crate) fn registration_from(
    observer: &Value,
    selector: &Value,
    name: &Value,
    object: &Value,
    behaviour: &Value,
) -> Result<Option<Registration>, AllocError>
    ensures { IfOk result (λ read. read
        ≡ registration_from observer.now selector.now name.now object.now behaviour.now) }
{
    let Some(observer) = observer.object() else {
        return Ok(None);
    };
    let Some(selector) = selector_in(selector) else {
        return Ok(None);
    };
    let Some(name) = label_in(name)? else {
        return Ok(None);
    };
    let Some(object) = label_in(object)? else {
        return Ok(None);
    };
    let Some(behaviour) = behaviour_in(behaviour) else {
        return Ok(None);
    };
    let selector = selector.clone()?;
    Ok(Some(Registration {
        observer,
        selector,
        name,
        object,
        behaviour,
    }))
}

/// The registration that a list of five values is.
fn registration_of(values: &[Value]) -> Result<Option<Registration>, AllocError>
    ensures { IfOk result (λ read. read ≡ registration_of values.now) }
{
    let [observer, selector, name, object, behaviour] = values else {
        return Ok(None);
    };
    registration_from(observer, selector, name, object, behaviour)
}

impl Row for Registration {
    ghost use Rattle.do_center.specs.Registrations.{registration_in, registration_value};

    ghost read = { registration_in };

    ghost shown = { registration_value };

    fn read(value: &Value) -> Result<Option<Registration>, AllocError> {
        match value.items() {
            Some(items) => registration_of(items.as_slice()),
            None => Ok(None),
        }
    }

    fn shown(&self) -> Result<Value, AllocError> {
        let mut items = Values::with_capacity(self.selector.allocator(), 5)?;
        items.push(Value::Obj(self.observer))?;
        items.push(Value::Text(self.selector.clone()?))?;
        items.push(label_value(&self.name)?)?;
        items.push(label_value(&self.object)?)?;
        items.push(Value::Num(self.behaviour.number() as i64))?;
        Ok(Value::List(items))
    }
}
