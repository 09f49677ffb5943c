//! Answers: the top invocation uses what its call came to.
ghost use Rattle.std.specs.Prelude.{◌≡◌, IfOk, List, OnErr, OnOk};
ghost use Rattle.do_class.specs.Class.{Class};
ghost use Rattle.do_stack.specs.Answered.{top_answer};
ghost use Rattle.do_effects.specs.Tidy.{IsTidy};
ghost use Rattle.do_site.specs.{Kept.{IsKept, StaysKept}, Room.CanSettle};
ghost use Rattle.do_site.specs.Running.{AnswerUsed, IsOver, PlansAnswer, next_of, raised_in};
ghost use Rattle.do_site.specs.{Steps.IsSame, Taken.IsTaken};

use crate::ground::judged_by;
use crate::needs::Needs;
use crate::planning::failing;
use crate::tally::Reach;
use crate::work::Work;
use crate::work::running::Next;
use do_base::Exc;
use do_behave::{Answer, InvState};
use do_class::ClassTable;
use do_effects::Plan;
use do_part::Part;
use std::alloc::AllocError;

/// Takes the answer that the top invocation has, which then runs. None exactly where it has none.
fn take_answer(part: &mut Part) -> Option<Answer>
    ensures which { result ≡ top_answer part.old.own.node.stack }
    ensures taken { IsTaken part.old part.new }
{
    part.take_answer()
}

/// The exception that an invocation of this state got. None where it got none.
fn raised(state: &InvState) -> Result<Option<Exc>, AllocError>
    ensures { IfOk result (λ exc. exc ≡ raised_in state.now) }
{
    match state {
        InvState::Answered(Answer::Raised(exc)) => Ok(Some(exc.clone()?)),
        _ => Ok(None),
    }
}

impl Work {
    /// The top invocation uses what its call gave.
    ///
    /// An error means that memory ran out, or that an own object that was given is not stored;
    /// nothing but room changed then.
    pub(super) fn use_given(&mut self) -> Result<(), AllocError>
        requires tidy { IsTidy self.old.core.part.own }
        requires places { CanSettle self.old }
        requires given { next_of self.old.core.part.own.node.stack ≡ Next.Given }
        ensures ok { OnOk result ((table : List Class)
            → AnswerUsed table self.old.core self.new.core) }
        ensures err { OnErr result (IsSame self.old.core self.new.core) }
        ensures kept { StaysKept self.old self.new }
        ensures places { CanSettle self.new }
    {
        let part = &self.core.part;
        let Some(names) = (Reach { part, more: 0 }).of_top() else {
            return Err(AllocError);
        };
        let needs = Needs::to_keep(names);
        self.make_room(&needs)?;
        let Some(
            Answer::Given {
                result: value,
                outs,
            },
        ) = take_answer(&mut self.core.part)
        else {
            unreachable!();
        };
        self.finish(Plan::Uses { value, outs }, &needs);
        Ok(())
    }

    /// What becomes of the exception with which the call of the top invocation ended, with all that
    /// carrying it out needs.
    fn plan_of_raised(&self, table: &ClassTable) -> Result<Plan, AllocError>
        ensures effect { IfOk result (PlansAnswer table.now self.now.core.part.own) }
        ensures over { IfOk result IsOver }
    {
        let part = &self.core.part;
        let Some(top) = part.top() else {
            return Err(AllocError);
        };
        let Some(exc) = raised(&top.state)? else {
            return Err(AllocError);
        };
        let ground = judged_by(table, part);
        failing(&ground, top, exc)
    }

    /// The exception with which the call of the top invocation ended goes to its handler, or ends
    /// it.
    ///
    /// An error means that memory ran out, or that a number would pass what a node can count;
    /// nothing but room changed then.
    pub(super) fn use_raised(&mut self, table: &ClassTable) -> Result<(), AllocError>
        requires kept { IsKept table.now self.old }
        requires places { CanSettle self.old }
        requires raised { next_of self.old.core.part.own.node.stack ≡ Next.Raised }
        ensures ok { OnOk result (AnswerUsed table.now self.old.core self.new.core) }
        ensures err { OnErr result (IsSame self.old.core self.new.core) }
        ensures kept { IsKept table.now self.new }
        ensures places { CanSettle self.new }
    {
        let plan = self.plan_of_raised(table)?;
        let Ok(needs) = self.make_room_for(&plan) else {
            drop(plan);
            return Err(AllocError);
        };
        drop(take_answer(&mut self.core.part));
        self.finish(plan, &needs);
        Ok(())
    }
}
