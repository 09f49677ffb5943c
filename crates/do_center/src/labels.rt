//! Names and objects of notifications: texts of at most 255 bytes, or nil for none.
ghost use Rattle.std.specs.Prelude.{◌≡◌, IfOk};
ghost use Rattle.do_center.specs.Notes.{is_label, label_in, label_value};

use do_base::{Text, Value};
use std::alloc::AllocError;

/// The most bytes of a name or an object.
const LONGEST_LABEL: usize = 255;

/// Whether a text has at most 255 bytes.
pub(crate) fn is_short(text: &Text) -> bool
    ensures { result ≡ Rattle.do_center.specs.Notes.is_short text.now }
{
    text.len() <= LONGEST_LABEL
}

/// Whether there is no text, or one of at most 255 bytes.
pub(crate) fn is_label(label: &Option<Text>) -> bool
    ensures { result ≡ is_label label.now }
{
    match label {
        Some(text) => is_short(text),
        None => true,
    }
}

/// The label that a value is: nil for none, or a text of at most 255 bytes.
pub(crate) fn label_in(value: &Value) -> Result<Option<Option<Text>>, AllocError>
    ensures { IfOk result (λ label. label ≡ label_in value.now) }
{
    match value {
        Value::Nil => Ok(Some(None)),
        Value::Text(text) if is_short(text) => Ok(Some(Some(text.clone()?))),
        _ => Ok(None),
    }
}

/// A label as a value.
pub(crate) fn label_value(label: &Option<Text>) -> Result<Value, AllocError>
    ensures { IfOk result (λ value. value ≡ label_value label.now) }
{
    match label {
        Some(text) => Ok(Value::Text(text.clone()?)),
        None => Ok(Value::Nil),
    }
}
