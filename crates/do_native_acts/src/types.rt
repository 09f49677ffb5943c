//! The types of pasteboards, in which services are asked for too.
ghost use Rattle.std.specs.{Prelude.{◌≡◌, IfOk}, List.{list_all, list_any}, Str.bytes_eq};
ghost use Rattle.do_native_acts.specs.Types.{are_distinct, are_types, is_type, types_in};

use crate::rows::read_list;
use do_base::{Text, Texts, Value};
use std::alloc::AllocError;

/// The most types of a pasteboard.
pub const MAX_TYPES: usize = 64;

/// The most bytes of a type.
const LONGEST_TYPE: usize = 255;

/// Whether a text can be a type: it has 1 to 255 bytes.
pub(crate) fn is_type(text: &Text) -> bool
    ensures { result ≡ is_type text.now }
{
    !text.is_empty() && text.len() <= LONGEST_TYPE
}

/// Whether each text can be a type.
fn are_kinds(types: &Texts) -> bool
    ensures { result ≡ list_all is_type types.now }
{
    for kind in types.as_slice() {
        if !is_type(kind) {
            return false;
        }
    }
    true
}

/// Whether a text is among others.
fn is_among(text: &Text, others: &[Text]) -> bool
    ensures { result ≡ list_any (bytes_eq text.now) others.now }
{
    for other in others {
        if *text == *other {
            return true;
        }
    }
    false
}

/// Whether no text is there twice.
fn are_distinct(texts: &[Text]) -> bool
    ensures { result ≡ are_distinct texts.now }
{
    match texts {
        [] => true,
        [text, rest @ ..] => !is_among(text, rest) && are_distinct(rest),
    }
}

/// Whether these can be the types of a pasteboard: at most 64, none of them twice, each of 1 to 255
/// bytes.
pub fn are_types(types: &Texts) -> bool
    ensures { result ≡ are_types types.now }
{
    types.len() <= MAX_TYPES && are_kinds(types) && are_distinct(types.as_slice())
}

/// The types that a value is: a list of them.
pub fn types_in(value: &Value) -> Result<Option<Texts>, AllocError>
    ensures { IfOk result (λ types. types ≡ types_in value.now) }
{
    match read_list::<Text>(value)? {
        Some(types) if are_types(&types) => Ok(Some(types)),
        _ => Ok(None),
    }
}
