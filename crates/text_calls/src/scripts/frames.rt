//! Invocations before their acts, and the slots of their objects.

use call_rows::text_value;
use do_base::{Locals, NodeId, Oid, Value, Values, copy_value};
use do_behave::{Frame, Handler, Held, InvState, Invocation, Reason};
use do_class::{ClassId, MethodId};
use std::alloc::{AllocError, Global};
use std::test::Fail;

/// The handler of each invocation.
const HANDLER: Handler = Handler { into: 14, pc: 2 };

/// Adds sixteen locals, which hold the numbers from 100 on.
fn push_locals(locals: &mut Frame) -> Result<(), AllocError> {
    for number in 100..116i64 {
        locals.push(Held::new(Value::Num(number)))?;
    }
    Ok(())
}

/// Sixteen locals: the one at place k holds 100 + k.
fn locals(alloc: Global) -> Result<Frame, AllocError> {
    let mut locals = Frame::new(alloc);
    push_locals(&mut locals)?;
    Ok(locals)
}

/// An invocation of the first method of the first class, by the object `#7001.1`, at a place.
pub(crate) fn invocation(alloc: Global, pc: u32) -> Result<Invocation, Fail> {
    let node = NodeId::new(7001).ok_or("no node")?;
    let class = ClassId(0);
    let locals = locals(alloc)?;
    Ok(Invocation {
        object: Oid { node, serial: 1 },
        method: MethodId { class, index: 0 },
        pc,
        locals,
        handler: Some(HANDLER),
        reason: Reason::Start,
        into: 0,
        outs: Locals::new(alloc),
        state: InvState::Running,
    })
}

/// Sets the first two locals.
pub(crate) fn set_first(
    inv: &mut Invocation,
    first: &Value,
    second: &Value,
) -> Result<(), AllocError> {
    let pc = inv.pc;
    inv.set_local(0, copy_value(first)?, pc);
    inv.set_local(1, copy_value(second)?, pc);
    Ok(())
}

/// The slots of the object: 900, a text and nil.
pub(crate) fn slots(alloc: Global) -> Result<Values, Fail> {
    let text = text_value(alloc, b"slot")?;
    Ok(Values::from_vec(vec![in alloc; Value::Num(900), text, Value::Nil]?))
}
