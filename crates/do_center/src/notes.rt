//! Notifications, and what is sent of them.
ghost use Rattle.std.specs.{Prelude.{◌≡◌, IfOk}, List.list_all, Option.option_copied};
ghost use Rattle.do_center.specs.Notes.{delivery_value, info_within, is_note, note_in, posted_name};

use crate::labels::{is_label, is_short, label_in, label_value};
use do_base::{ExactClone, Items, Oid, Text, Value, Values, copy_value};
use std::alloc::AllocError;

/// The most lists of user information that stand inside one another.
const MAX_NESTING: u32 = 4;

/// A notification: its name, the object that it is about, and user information. The name and the
/// object have at most 255 bytes; the information names no objects, and at most four of its lists
/// stand inside one another.
#[derive(Clone, Debug, Drop)]
pub struct Note {
    /// The name.
    pub name: Text,
    /// The object that it is about, if any.
    pub object: Option<Text>,
    /// The user information.
    pub info: Value,
}

impl ExactClone for Note {
    ghost use Rattle.std.proofs.Common.{rules};

    ghost exact_clone = { λ x y h. Prim.search rules };
}

/// A notification on its way to an observer, who is sent this selector with the name, the object
/// and the information.
#[derive(Debug, Drop)]
pub struct Delivery {
    /// The object that is sent it.
    pub observer: Oid,
    /// The selector that is sent.
    pub selector: Text,
    /// The notification.
    pub note: Note,
}

impl Note {
    /// The same notification once more.
    pub(crate) fn copied(&self) -> Result<Note, AllocError>
        ensures { IfOk result (λ note. note ≡ self.now) }
    {
        self.clone()
    }
}

/// Deliveries, in order.
pub type Deliveries = Items<Delivery>;

/// Whether a value names no object, and no more than `depth` lists stand inside one another.
#[cycle(info)]
fn info_within(value: &Value, depth: u32) -> bool
    ensures { result ≡ info_within value.now depth }
{
    match value {
        Value::Obj(_) => false,
        Value::List(items) => depth > 0 && all_info_within(items, depth - 1),
        _ => true,
    }
}

#[cycle(info)]
fn all_info_within(items: &Values, depth: u32) -> bool
    ensures { result ≡ list_all (λ v. info_within v depth) items.now }
{
    for item in items.as_slice() {
        if !info_within(item, depth) {
            return false;
        }
    }
    true
}

/// The name of a notification that a value is.
fn posted_name(value: &Value) -> Option<&Text>
    ensures { option_copied result ≡ posted_name value.now }
{
    value.text().filter(|name| is_short(name))
}

/// Whether a notification keeps the limits: a name and an object of at most 255 bytes, and
/// information that names no objects and nests at most four lists.
pub fn is_note(note: &Note) -> bool
    ensures { result ≡ is_note note.now }
{
    is_short(&note.name) && is_label(&note.object) && info_within(&note.info, MAX_NESTING)
}

/// The notification that three values are.
pub(crate) fn note_in(
    name: &Value,
    object: &Value,
    info: &Value,
) -> Result<Option<Note>, AllocError>
    ensures { IfOk result (λ note. note ≡ note_in name.now object.now info.now) }
{
    let Some(name) = posted_name(name) else {
        return Ok(None);
    };
    let Some(object) = label_in(object)? else {
        return Ok(None);
    };
    if !info_within(info, MAX_NESTING) {
        return Ok(None);
    }
    let name = name.clone()?;
    let info = copy_value(info)?;
    Ok(Some(Note { name, object, info }))
}

/// A delivery as a value: the observer, the selector, and the three parts of the notification.
pub(crate) fn delivery_value(delivery: &Delivery) -> Result<Value, AllocError>
    ensures { IfOk result (λ value. value ≡ delivery_value delivery.now) }
{
    let mut items = Values::with_capacity(delivery.selector.allocator(), 5)?;
    items.push(Value::Obj(delivery.observer))?;
    items.push(Value::Text(delivery.selector.clone()?))?;
    items.push(Value::Text(delivery.note.name.clone()?))?;
    items.push(label_value(&delivery.note.object)?)?;
    items.push(copy_value(&delivery.note.info)?)?;
    Ok(Value::List(items))
}
