//! The top invocation of a stack, changed with no memory taken: it is taken off and put back.
ghost use Rattle.std.specs.Prelude.{◌≡◌, ◌+◌, ◌<◌, ◌≤◌, Some, length, slice_get};
ghost use Rattle.do_behave.specs.declared.invocation.Invocation.{Invocation};
ghost use Rattle.do_machine.specs.run.Changes.{answered};
ghost use Rattle.do_stack.specs.Waiting.{with_top};

use do_behave::{Answer, InvState};
use do_stack::Stack;
use std::mem;

/// The top invocation has an answer, in room that was made before. The state that it had is handed
/// back.
pub(super) fn set_answer(stack: &mut Stack, answer: Answer) -> InvState
    requires top { 0 < length stack.old.invocations }
    requires room { 0 < stack.old.spare }
    ensures was { (top : Invocation) → slice_get stack.old.invocations 0 ≡ Some top
        → result ≡ top.state }
    ensures invocations { stack.new.invocations
        ≡ with_top (answered answer) stack.old.invocations }
    ensures late { stack.new.late ≡ stack.old.late }
    ensures spare { stack.old.spare ≤ stack.new.spare + 1 }
{
    let _depth = stack.depth();
    let Some(mut top) = stack.pop() else {
        unreachable!();
    };
    let was = mem::replace(&mut top.state, InvState::Answered(answer));
    let Ok(()) = stack.push(top) else {
        unreachable!();
    };
    was
}
