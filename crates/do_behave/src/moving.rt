//! Copies, moves and drops of values, in forms that are fast where acts are done.
//!
//! Two forms serve speed alone and are in no clause. What is put nowhere is dropped by a call
//! of its own, since a value that may be dropped where it is moved is moved in many small
//! parts. A number or a text is copied without a call.
ghost use Rattle.std.specs.Prelude.{◌≡◌, [], ◌∷◌, ◌++◌, IfOk, OnOk, OnErr};

use do_base::{Value, Values, copy_value};
use std::alloc::{AllocError, AllocFailed};

/// A copy of a value, without a call where it is a number or a text.
#[inline(always)]
pub(crate) fn copied(value: &Value) -> Result<Value, AllocError>
    ensures { IfOk result (λ v. v ≡ value.now) }
{
    match value {
        Value::Num(number) => Ok(Value::Num(*number)),
        Value::Text(text) => Ok(Value::Text(text.clone()?)),
        _ => Ok(copy_value(value)?),
    }
}

/// Appends a value. If memory runs out, the value is dropped, and the list is unchanged.
#[inline(always)]
pub(crate) fn append(values: &mut Values, value: Value) -> Result<(), AllocError>
    ensures ok { OnOk result (values.new ≡ values.old ++ value ∷ []) }
    ensures err { OnErr result (values.new ≡ values.old) }
{
    match values.try_push(value) {
        Ok(()) => Ok(()),
        Err(lost) => Err(without(lost)),
    }
}

/// Appends a copy of a value. If memory runs out, the list is unchanged.
pub(crate) fn append_copy(values: &mut Values, value: &Value) -> Result<(), AllocError>
    ensures ok { OnOk result (values.new ≡ values.old ++ value.now ∷ []) }
    ensures err { OnErr result (values.new ≡ values.old) }
{
    match value {
        Value::Num(number) => append(values, Value::Num(*number)),
        Value::Text(text) => append(values, Value::Text(text.clone()?)),
        value => append(values, copy_value(value)?),
    }
}

/// Drops what is put nowhere. It is a call of its own, since a value whose drop stands where it is
/// moved is moved in many small parts.
#[cold]
#[inline(never)]
pub(crate) fn discard<T: Drop>(_item: T) {}

/// The error of a value that found no memory.
#[cold]
#[inline(never)]
fn without(_lost: AllocFailed<Value>) -> AllocError {
    AllocError
}
