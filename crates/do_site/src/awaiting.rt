//! Whether a node awaits an answer.
ghost use Rattle.std.specs.Prelude.{◌≡◌, ◌-◌, ◌≤◌, drop, is_some, length};
ghost use Rattle.do_network.specs.Faults.{is_awaited};
ghost use Rattle.do_rules.specs.Answering.{awaited_in, call_of};

use do_behave::Waited;
use do_part::Part;
use do_rules::{Answered, asked_by, awaits};

/// What the invocation asked for that waits for an answer, of those that have so many below them.
#[tactic(auto, using(crate::proofs::AwaitedBelow::walk_steps))]
fn awaited_below(part: &Part, height: usize, call: &Answered) -> Option<Waited>
    requires { height ≤ length part.now.own.node.stack }
    ensures { result ≡ awaited_in (call_of call.now)
        (drop (length part.now.own.node.stack - height) part.now.own.node.stack) }
{
    if height == 0 {
        return None;
    }
    let Some(top) = part.at(height - 1) else {
        return None;
    };
    if awaits(call, &top.state) {
        return asked_by(&top.state);
    }
    awaited_below(part, height - 1, call)
}

/// What the invocation asked for that waits for an answer, wherever it stands. None where none
/// waits for it.
pub fn awaited(part: &Part, call: &Answered) -> Option<Waited>
    ensures { result ≡ awaited_in (call_of call.now) part.now.own.node.stack }
{
    awaited_below(part, part.depth(), call)
}
