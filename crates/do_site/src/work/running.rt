//! Runs: the top invocation does one act, or uses its answer.
ghost use Rattle.std.specs.Prelude.{◌≡◌, IfOk, OnErr};
ghost use Rattle.do_machine.specs.run.Run.{run_effect};
ghost use Rattle.do_network.specs.Own.{site_context};
ghost use Rattle.do_site.specs.{Kept.IsKept, Room.CanSettle, Running.next_of, Steps.{Does, IsSame}};

use crate::work::Work;
use do_behave::{Answer, Behaviour, InvState};
use do_class::ClassTable;
use do_part::Part;
use std::alloc::AllocError;

/// What a run goes on with.
pub enum Next {
    /// Nothing can be done.
    Nothing,
    /// The next act of the top invocation.
    Act,
    /// What the call of the top invocation gave.
    Given,
    /// The exception with which the call of the top invocation ended.
    Raised,
}

/// What a run of a node goes on with.
fn next_of(part: &Part) -> Next
    ensures { result ≡ next_of part.now.own.node.stack }
{
    let Some(top) = part.top() else {
        return Next::Nothing;
    };
    match &top.state {
        InvState::Running => Next::Act,
        InvState::Answered(Answer::Given { .. }) => Next::Given,
        InvState::Answered(Answer::Raised(_)) => Next::Raised,
        InvState::Below | InvState::Waits { .. } => Next::Nothing,
    }
}

impl Work {
    /// The top invocation does one act, or uses its answer. False exactly where it can do neither,
    /// or there is none, and then nothing changes.
    ///
    /// An error means that memory ran out, or that a number would pass what a node can count;
    /// nothing but room changed then.
    pub fn run<B: Behaviour>(&mut self, table: &ClassTable, acts: &B) -> Result<bool, AllocError>
        requires kept { IsKept table.now self.old }
        requires places { CanSettle self.old }
        ensures done { IfOk result (λ told. Does self.old.core self.new.core told
            (run_effect (B.act acts.now) (site_context table.now self.old.core.part.own))) }
        ensures err { OnErr result (IsSame self.old.core self.new.core) }
        ensures kept { IsKept table.now self.new }
        ensures places { CanSettle self.new }
    {
        match next_of(&self.core.part) {
            Next::Nothing => Ok(false),
            Next::Act => {
                self.act(table, acts)?;
                Ok(true)
            }
            Next::Given => {
                self.use_given()?;
                Ok(true)
            }
            Next::Raised => {
                self.use_raised(table)?;
                Ok(true)
            }
        }
    }
}
