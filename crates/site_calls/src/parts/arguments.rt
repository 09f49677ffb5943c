//! Arguments that name nodes, classes, tokens and calls.

use call_rows::{count_at, object_at, port_at};
use do_base::{CallId, NodeId, Oid, Token, Values};
use do_class::ClassId;
use std::test::Fail;

/// The node of the port at a place.
pub(crate) fn node_at(args: &Values, at: usize) -> Result<NodeId, Fail> {
    Ok(NodeId::new(port_at(args, at)?).ok_or("no node")?)
}

/// The number at a place, from 0 to 65,535.
pub(crate) fn amount_at(args: &Values, at: usize) -> Result<u64, Fail> {
    Ok(u64::from(count_at(args, at)?))
}

/// The class at a place.
pub(crate) fn class_at(args: &Values, at: usize) -> Result<ClassId, Fail> {
    Ok(ClassId(u32::from(count_at(args, at)?)))
}

/// The token at a place, written as an object: the lender's port, and the number.
pub(crate) fn token_at(args: &Values, at: usize) -> Result<Token, Fail> {
    let Oid { node, serial } = object_at(args, at)?;
    Ok(Token {
        lender: node,
        number: serial,
    })
}

/// The call at a place, written as an object: the caller's port, and the number.
pub(crate) fn call_at(args: &Values, at: usize) -> Result<CallId, Fail> {
    let Oid { node, serial } = object_at(args, at)?;
    Ok(CallId {
        node,
        number: serial,
    })
}
