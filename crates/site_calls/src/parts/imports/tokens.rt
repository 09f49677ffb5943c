//! Calls of imports about lends and asks. A token is written as an object: the lender's port, and
//! its number.

use crate::parts::answers::{done_or_nil, token_value};
use crate::parts::arguments::{class_at, node_at, token_at};
use crate::parts::imports::counts::{end_granted, keep_ask, lend as lend_object};
use call_rows::{object_at, object_or_nil};
use do_base::{Value, Values};
use do_import::Imports;
use do_native_acts::as_number;
use std::test::Fail;

/// Lends an object to a borrower, and tells the token; nil where there is no room.
pub(crate) fn lend(imports: &mut Imports, args: &Values) -> Result<Value, Fail> {
    let oid = object_at(args, 0)?;
    let borrower = node_at(args, 1)?;
    match lend_object(imports, oid, borrower) {
        Some(token) => Ok(token_value(token)),
        None => Ok(Value::Nil),
    }
}

/// Settles a lend to a borrower, and tells its object, or nil.
pub(crate) fn settle(imports: &mut Imports, args: &Values) -> Result<Value, Fail> {
    let token = token_at(args, 0)?;
    let borrower = node_at(args, 1)?;
    Ok(object_or_nil(imports.settle(token, borrower)))
}

/// Keeps an ask for an object, and tells whether it is new; nil where there is no room.
pub(crate) fn ask(imports: &mut Imports, args: &Values) -> Result<Value, Fail> {
    let (oid, token) = (object_at(args, 0)?, token_at(args, 1)?);
    let class = class_at(args, 2)?;
    Ok(done_or_nil(keep_ask(imports, oid, class, token)))
}

/// Ends an ask that was granted, and tells whether it was kept; nil where there is no room.
pub(crate) fn granted(imports: &mut Imports, args: &Values) -> Result<Value, Fail> {
    let (oid, token) = (object_at(args, 0)?, token_at(args, 1)?);
    Ok(done_or_nil(end_granted(imports, oid, token)))
}

/// Ends an ask whose object is gone, and tells whether it was kept.
pub(crate) fn gone(imports: &mut Imports, args: &Values) -> Result<Value, Fail> {
    let (oid, token) = (object_at(args, 0)?, token_at(args, 1)?);
    Ok(as_number(imports.gone(oid, token)))
}
