//! Calls of a stack about the calls that its invocations wait for, and their answers.
ghost use Rattle.std.specs.Prelude.{IsTrue, IsSome};
ghost use Rattle.do_stack.specs.Late.{top_call};

use crate::parts::arguments::{call_at, node_at};
use crate::parts::stack::invocations::{answer_value, asked_at, asked_value};
use call_rows::{copy_at, number_at};
use do_base::{Exc, Value, Values};
use do_behave::{Answer, InvState};
use do_native_acts::as_number;
use do_stack::Stack;
use std::alloc::Global;
use std::test::Fail;

/// Lets the top wait for a call to a peer, and tells whether there is a top.
pub(crate) fn wait(stack: &mut Stack, args: &Values) -> Result<Value, Fail> {
    let (call, peer) = (call_at(args, 0)?, node_at(args, 1)?);
    let what = asked_at(args, 2)?;
    if stack.depth() == 0 {
        return Ok(as_number(false));
    }
    stack.wait(call, peer, what);
    Ok(as_number(true))
}

/// What the invocation that waits for a call to a peer asked for, or nil.
pub(crate) fn waiting(alloc: Global, stack: &Stack, args: &Values) -> Result<Value, Fail> {
    let (call, peer) = (call_at(args, 0)?, node_at(args, 1)?);
    match stack.waiting(call, peer) {
        Some(what) => asked_value(alloc, what),
        None => Ok(Value::Nil),
    }
}

/// Answers the invocation that waits for a call to a peer with a value, and tells whether one did.
pub(crate) fn give(stack: &mut Stack, args: &Values) -> Result<Value, Fail> {
    let (call, peer) = (call_at(args, 0)?, node_at(args, 1)?);
    let result = copy_at(args, 2)?;
    let outs = Values::new(args.allocator());
    let answer = Answer::Given { result, outs };
    Ok(as_number(stack.answer(call, peer, answer)))
}

/// Answers the invocation that waits for a call to a peer with an exception, and tells whether one
/// did.
pub(crate) fn raise(stack: &mut Stack, args: &Values) -> Result<Value, Fail> {
    let (call, peer) = (call_at(args, 0)?, node_at(args, 1)?);
    Ok(as_number(stack.answer(call, peer, Answer::Raised(Exc::Deep))))
}

/// Whether an answer of a peer to a call, or to an ask for a root, comes late.
pub(crate) fn late(stack: &mut Stack, args: &Values) -> Result<Value, Fail> {
    let (call, peer) = (call_at(args, 0)?, node_at(args, 1)?);
    let root = number_at(args, 2)? == 1;
    Ok(as_number(stack.late(call, peer, root)))
}

/// Whether the top waits for a call.
fn top_waits(stack: &Stack) -> bool
    ensures { IsTrue result → IsSome (top_call stack.now.invocations) }
{
    match stack.top() {
        Some(inv) => match &inv.state {
            InvState::Waits { .. } => true,
            _ => false,
        },
        None => false,
    }
}

/// Gives up the call of the top, and tells whether it waited for one.
pub(crate) fn abandon(stack: &mut Stack) -> Result<Value, Fail> {
    let waits = top_waits(stack);
    if !waits {
        return Ok(as_number(false));
    }
    stack.abandon()?;
    Ok(as_number(true))
}

/// The answer that the top takes, or nil.
pub(crate) fn take_answer(alloc: Global, stack: &mut Stack) -> Result<Value, Fail> {
    match stack.take_answer() {
        Some(answer) => answer_value(alloc, &answer),
        None => Ok(Value::Nil),
    }
}
