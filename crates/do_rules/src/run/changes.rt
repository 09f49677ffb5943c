//! How an invocation changes.
//!
//! A change of an invocation is made by do_behave alone: do_rules makes it on a copy, and reads
//! the step off that.
ghost use Rattle.std.specs.Prelude.{◌≡◌, OnOk};
ghost use Rattle.do_machine.specs.run.Changes.{answered, goes_on, uses, with_outs};

use crate::effect::Done;
use do_base::{Value, Values, copy_value};
use do_behave::{Answer, Frame, InvState, Invocation, put_local};

/// Values go to locals in order, so that a later one wins.
fn set_outs(locals: &mut Frame, outs: &[u8], values: &[Value]) -> Done
    ensures { OnOk result (locals.new ≡ with_outs outs.now values.now locals.old) }
{
    let [local, outs @ ..] = outs else {
        return Ok(());
    };
    let [value, values @ ..] = values else {
        return Ok(());
    };
    drop(put_local(locals, *local, copy_value(value)?));
    set_outs(locals, outs, values)
}

/// The invocation uses its answer: the result first, and then what came out.
pub(crate) fn use_answer(top: &mut Invocation, value: Value, outs: &Values) -> Done
    ensures { OnOk result (top.new ≡ uses value outs.now top.old) }
{
    drop(put_local(&mut top.locals, top.into, value));
    set_outs(&mut top.locals, top.outs.as_slice(), outs.as_slice())?;
    top.state = InvState::Running;
    Ok(())
}

/// The invocation goes on with a value in a local.
pub(crate) fn go_on(top: &mut Invocation, into: u8, value: Value, pc: u32)
    ensures { top.new ≡ goes_on into value pc top.old }
{
    drop(top.set_local(into, value, pc));
    top.state = InvState::Running;
}

/// An answer came.
pub(crate) fn be_answered(invocation: &mut Invocation, answer: Answer)
    ensures { invocation.new ≡ answered answer invocation.old }
{
    invocation.state = InvState::Answered(answer);
}
