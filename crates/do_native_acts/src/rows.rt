//! Lists as slots keep them: nil where there is nothing.
ghost use Rattle.std.specs.Prelude.{◌≡◌, IfOk, Option, map};
ghost use Rattle.do_base.specs.declared.values.value.Value.{Value, List};
ghost use Rattle.do_native_acts.specs.Rows.{list_in, rows_in, read_all, listed};

use do_base::{Items, Oid, Text, Value, Values};
use std::alloc::{AllocError, Global};

/// An item of a list that a slot keeps.
pub trait Row: Drop {
    ghost read: { Value → Option Self };

    ghost shown: { Self → Value };

    /// The row that a value is; none where it has another form.
    fn read(value: &Value) -> Result<Option<Self>, AllocError>
        ensures { IfOk result (λ row. row ≡ read value.now) };

    /// The row as a value.
    fn shown(&self) -> Result<Value, AllocError>
        ensures { IfOk result (λ value. value ≡ shown self.now) };
}

impl Row for Text {
    ghost use Rattle.do_base.specs.values.Kinds.{text};
    ghost use Rattle.do_base.specs.declared.values.value.Value.TheVariants.{Text};

    ghost read = { text };

    ghost shown = { Text };

    fn read(value: &Value) -> Result<Option<Text>, AllocError> {
        match value.text() {
            Some(text) => Ok(Some(text.clone()?)),
            None => Ok(None),
        }
    }

    fn shown(&self) -> Result<Value, AllocError> {
        Ok(Value::Text(self.clone()?))
    }
}

impl Row for Oid {
    ghost use Rattle.do_base.specs.values.Kinds.{object};
    ghost use Rattle.do_base.specs.declared.values.value.Value.TheVariants.{Obj};

    ghost read = { object };

    ghost shown = { Obj };

    fn read(value: &Value) -> Result<Option<Oid>, AllocError> {
        Ok(value.object())
    }

    fn shown(&self) -> Result<Value, AllocError> {
        Ok(Value::Obj(*self))
    }
}

/// The rows that values are; none where one of them has another form.
fn read_each<T: Row>(values: &Values) -> Result<Option<Items<T>>, AllocError>
    ensures { IfOk result (λ rows. rows ≡ read_all T.read values.now) }
{
    let mut list = Items::new(values.allocator());
    for value in values.as_slice() {
        match T::read(value)? {
            Some(row) => list.push(row)?,
            None => return Ok(None),
        }
    }
    Ok(Some(list))
}

/// The rows that a list holds; none where the value is no list, or one of its items has another
/// form.
pub fn read_list<T: Row>(value: &Value) -> Result<Option<Items<T>>, AllocError>
    ensures { IfOk result (λ rows. rows ≡ list_in T.read value.now) }
{
    match value.items() {
        Some(values) => read_each(values),
        None => Ok(None),
    }
}

/// The rows that a slot holds, none of them where it is nil; no list where it has another form.
pub fn read_rows<T: Row>(alloc: Global, slot: &Value) -> Result<Option<Items<T>>, AllocError>
    ensures { IfOk result (λ rows. rows ≡ rows_in T.read slot.now) }
{
    match slot {
        Value::Nil => Ok(Some(Items::new(alloc))),
        Value::List(values) if !values.is_empty() => read_each(values),
        _ => Ok(None),
    }
}

/// A list of rows as a value.
pub fn show_list<T: Row>(list: &Items<T>) -> Result<Value, AllocError>
    ensures { IfOk result (λ value. value ≡ List (map T.shown list.now)) }
{
    let mut values = Values::with_capacity(list.allocator(), list.len())?;
    for row in list.as_slice() {
        values.push(row.shown()?)?;
    }
    Ok(Value::List(values))
}

/// A list of rows as a slot keeps it: nil where it is empty.
pub fn show_rows<T: Row>(list: &Items<T>) -> Result<Value, AllocError>
    ensures { IfOk result (λ value. value ≡ listed (map T.shown list.now)) }
{
    if list.is_empty() {
        return Ok(Value::Nil);
    }
    show_list(list)
}
