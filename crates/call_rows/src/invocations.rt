//! Invocations at the beginning of a method.

use do_base::{Locals, NodeId, Oid, Value};
use do_behave::{Frame, Held, InvState, Invocation, Reason};
use do_class::{ClassId, MethodId};
use std::alloc::{AllocError, Global};
use std::test::Fail;

/// The most locals of a method, of which the first hold two values.
fn frame(alloc: Global, first: Value, second: Value) -> Result<Frame, AllocError> {
    let mut locals = Frame::new(alloc);
    locals.push(Held::new(first))?;
    locals.push(Held::new(second))?;
    for _local in 2..16u8 {
        locals.push(Held::new(Value::Nil))?;
    }
    Ok(locals)
}

/// An invocation of object 1 of node 7001 at the beginning of its method, with 16 locals, of which
/// the first two hold these values.
pub fn begun(alloc: Global, first: Value, second: Value) -> Result<Invocation, Fail> {
    let node = NodeId::new(7001).ok_or("no node")?;
    let class = ClassId(0);
    Ok(Invocation {
        object: Oid { node, serial: 1 },
        method: MethodId { class, index: 0 },
        pc: 0,
        locals: frame(alloc, first, second)?,
        handler: None,
        reason: Reason::Start,
        into: 0,
        outs: Locals::new(alloc),
        state: InvState::Running,
    })
}
