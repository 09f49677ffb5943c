ghost use Rattle.std.specs.{Prelude.{◌≡◌, map}, List.list_all};
ghost use Rattle.do_sig.specs.Fits.{within, takes_number, is_not_zero, takes_text, simple_fits};
ghost use Rattle.do_sig.specs.Fits.{fits, each_takes};

use crate::value_type::{Scalar, ValueType};
use do_base::{Items, Text, Value, Values};
use do_grammar::{is_name, is_selector};
use memchr::memchr;

/// Whether a number lies between two others, both included.
fn is_within(n: i64, least: i64, greatest: i64) -> bool
    ensures { result ≡ within least greatest n }
{
    least <= n && n <= greatest
}

/// Whether a number fits.
fn number_fits(scalar: Scalar, n: i64) -> bool
    ensures { result ≡ takes_number scalar n }
{
    match scalar {
        Scalar::SignedChar => is_within(n, -128, 127),
        Scalar::Short => is_within(n, -32_768, 32_767),
        Scalar::Int => is_within(n, -2_147_483_648, 2_147_483_647),
        Scalar::Long | Scalar::LongLong | Scalar::Object => true,
        Scalar::UnsignedChar => is_within(n, 0, 255),
        Scalar::UnsignedShort => is_within(n, 0, 65_535),
        Scalar::UnsignedInt => is_within(n, 0, 4_294_967_295),
        Scalar::UnsignedLong | Scalar::UnsignedLongLong => 0 <= n,
        Scalar::Boolean => is_within(n, 0, 1),
        Scalar::CString | Scalar::Class | Scalar::Selector => false,
    }
}

/// Whether no byte is zero.
#[tactic(auto, using(crate::proofs::ZeroBytes::search_tells))]
fn has_no_zero(bytes: &[u8]) -> bool
    ensures { result ≡ list_all is_not_zero bytes.now }
{
    match memchr(0, bytes) {
        None => true,
        Some(_) => false,
    }
}

/// Whether a text fits.
fn text_fits(scalar: Scalar, text: &Text) -> bool
    ensures { result ≡ takes_text scalar text.now }
{
    match scalar {
        Scalar::CString => has_no_zero(text.as_slice()),
        Scalar::Object => true,
        Scalar::Class => is_name(text.as_slice()),
        Scalar::Selector => is_selector(text.as_slice()),
        _ => false,
    }
}

/// Whether a value fits a type that is made of no other types.
pub(crate) fn scalar_fits(scalar: Scalar, value: &Value) -> bool
    ensures { result ≡ simple_fits scalar value.now }
{
    match value {
        Value::Nil => matches!(
            scalar,
            Scalar::CString | Scalar::Object | Scalar::Class | Scalar::Selector
        ),
        Value::Num(n) => number_fits(scalar, *n),
        Value::Text(text) => text_fits(scalar, text),
        Value::Obj(_) | Value::List(_) => matches!(scalar, Scalar::Object),
    }
}

/// Whether a value fits a type.
#[cycle(fits)]
pub(crate) fn type_fits(value_type: &ValueType, value: &Value) -> bool
    ensures { result ≡ fits value_type.now value.now }
{
    match (value_type, value) {
        (ValueType::Simple(scalar), _) => scalar_fits(*scalar, value),
        (ValueType::Array(count, item), Value::List(values)) => {
            values.len() == *count as usize && all_fit(item.get(), values)
        }
        (ValueType::Structure(_, members), Value::List(values)) => members_fit(members, values),
        _ => false,
    }
}

/// Whether each value fits one type.
#[cycle(fits)]
fn all_fit(item: &ValueType, values: &Values) -> bool
    ensures { result ≡ list_all (fits item.now) values.now }
{
    for value in values.as_slice() {
        if !type_fits(item, value) {
            return false;
        }
    }
    true
}

/// Whether there is one fitting value for each type.
#[tactic(auto, using(crate::proofs::SideBySide::pair_steps))]
#[cycle(fits)]
fn members_fit(members: &Items<ValueType>, values: &Values) -> bool
    ensures { result ≡ each_takes (map fits members.now) values.now }
{
    let types = members.as_slice();
    let values = values.as_slice();
    if types.len() != values.len() {
        return false;
    }
    for i in 0..types.len() {
        if !type_fits(&types[i], &values[i]) {
            return false;
        }
    }
    true
}
