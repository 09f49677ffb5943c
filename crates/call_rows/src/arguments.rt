//! The arguments of a call.

use do_base::{Oid, Text, Texts, Value, Values, copy_value};
use do_native_acts::{port_in, read_list};
use std::test::Fail;

/// The argument at a place.
pub fn value_at(args: &Values, at: usize) -> Result<&Value, Fail> {
    Ok(args.get(at).ok_or("no argument")?)
}

/// A copy of the argument at a place.
pub fn copy_at(args: &Values, at: usize) -> Result<Value, Fail> {
    Ok(copy_value(value_at(args, at)?)?)
}

/// The text at a place.
pub fn text_at(args: &Values, at: usize) -> Result<&Text, Fail> {
    Ok(value_at(args, at)?.text().ok_or("no text")?)
}

/// The number at a place.
pub fn number_at(args: &Values, at: usize) -> Result<i64, Fail> {
    Ok(value_at(args, at)?.number().ok_or("no number")?)
}

/// The port at a place.
pub fn port_at(args: &Values, at: usize) -> Result<u16, Fail> {
    Ok(port_in(value_at(args, at)?).ok_or("no port")?)
}

/// The count or place at a place: a number from 0 to 65,535.
pub fn count_at(args: &Values, at: usize) -> Result<u16, Fail> {
    Ok(u16::try_from(number_at(args, at)?)?)
}

/// The number of a local at a place.
pub fn local_at(args: &Values, at: usize) -> Result<u8, Fail> {
    Ok(u8::try_from(number_at(args, at)?)?)
}

/// The object at a place.
pub fn object_at(args: &Values, at: usize) -> Result<Oid, Fail> {
    Ok(value_at(args, at)?.object().ok_or("no object")?)
}

/// The list at a place.
pub fn list_at(args: &Values, at: usize) -> Result<&Values, Fail> {
    Ok(value_at(args, at)?.items().ok_or("no list")?)
}

/// The texts at a place.
pub fn texts_at(args: &Values, at: usize) -> Result<Texts, Fail> {
    Ok(read_list::<Text>(value_at(args, at)?)?.ok_or("no texts")?)
}
