//! How a call is given up.
ghost use Rattle.std.specs.Prelude.{◌≡◌, ◌∷◌, IfOk, OnOk};
ghost use Rattle.do_behave.specs.declared.invocation.Answer.TheVariants.{Raised};
ghost use Rattle.do_base.specs.declared.events.exception.Exc.TheVariants.{TimedOut};
ghost use Rattle.do_machine.specs.{Effect.only, ends.TimeOut.{time_out, with_late}};
ghost use Rattle.do_machine.specs.run.{Changes.answered, Fresh.with_stack};

use crate::effect::{Done, given, unchanged};
use crate::lists::{Ordered, insert};
use crate::run::changes::be_answered;
use do_base::Exc;
use do_behave::{Answer, InvState, Invocation};
use do_machine::{Effect, LateCall, Node};
use std::alloc::AllocError;

impl Ordered for LateCall {
    ghost use Rattle.do_machine.specs.ends.TimeOut.{late_lt};

    ghost before = { late_lt };

    fn is_before(&self, other: &LateCall) -> bool {
        self.number < other.number
    }
}

/// The top invocation is answered, and its call is late.
fn give_up(node: &mut Node, late: LateCall, top: &Invocation, below: &[Invocation]) -> Done
    requires { node.old.stack ≡ top.now ∷ below.now }
    ensures { OnOk result (node.new ≡ with_late late
        (with_stack (answered (Raised TimedOut) top.now ∷ below.now) node.old)) }
{
    be_answered(node.stack.at_mut(0), Answer::Raised(Exc::TimedOut));
    insert(&mut node.late, late)
}

/// The top invocation of a node is answered, and its call is late.
fn given_up(
    node: &Node,
    late: LateCall,
    top: &Invocation,
    below: &[Invocation],
) -> Result<Effect, AllocError>
    requires { node.now.stack ≡ top.now ∷ below.now }
    ensures { IfOk result (λ e. e ≡ only (with_late late
        (with_stack (answered (Raised TimedOut) top.now ∷ below.now) node.now))) }
{
    let mut effect = unchanged(node)?;
    let done = give_up(&mut effect.node, late, top, below);
    given(effect, done)
}

/// What a time-out does: the top invocation waits no longer. None where it does not wait.
pub fn time_out(node: &Node) -> Result<Option<Effect>, AllocError>
    ensures { IfOk result (λ e. e ≡ time_out node.now) }
{
    let [top, below @ ..] = node.stack.as_slice() else {
        return Ok(None);
    };
    let InvState::Waits { call, peer, what } = &top.state else {
        return Ok(None);
    };
    let late = LateCall {
        number: call.number,
        peer: *peer,
        what: *what,
    };
    Ok(Some(given_up(node, late, top, below)?))
}
