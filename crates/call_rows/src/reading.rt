//! Lists of values, read from the left to the right.

use crate::values::value_of;
use do_base::{Items, Value, Values};
use std::alloc::Global;
use std::test::Fail;

/// The lists that are open, the innermost last.
type OpenLists = Items<Values>;

/// Opens a list.
fn open(lists: &mut OpenLists) -> Result<(), Fail> {
    let list = Values::new(lists.allocator());
    lists.push(list)?;
    Ok(())
}

/// Adds a value to the innermost list.
fn add(lists: &mut OpenLists, value: Value) -> Result<(), Fail> {
    let inner = lists.last_mut().ok_or("a bracket too many")?;
    inner.push(value)?;
    Ok(())
}

/// Closes the innermost list, and adds it to the one around it.
fn close(lists: &mut OpenLists) -> Result<(), Fail> {
    let list = lists.pop().ok_or("a bracket too many")?;
    add(lists, Value::List(list))
}

/// Reads a value, a bracket or a space, and gives what stands behind it.
fn read_one<'a>(lists: &mut OpenLists, bytes: &'a [u8]) -> Result<&'a [u8], Fail> {
    match bytes {
        [b' ', behind @ ..] => Ok(behind),
        [b'[', behind @ ..] => {
            open(lists)?;
            Ok(behind)
        }
        [b']', behind @ ..] => {
            close(lists)?;
            Ok(behind)
        }
        _ => {
            let (value, behind) = value_of(lists.allocator(), bytes)?;
            add(lists, value)?;
            Ok(behind)
        }
    }
}

/// Values, a space between two.
pub(crate) fn values_of(alloc: Global, bytes: &[u8]) -> Result<Values, Fail> {
    let mut lists = OpenLists::new(alloc);
    open(&mut lists)?;
    let mut rest = bytes;
    for _part in 0..bytes.len() {
        if rest.is_empty() {
            break;
        }
        rest = read_one(&mut lists, rest)?;
    }
    Ok(lists.pop().ok_or("no list")?)
}
