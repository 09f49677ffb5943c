//! Acts: the top invocation does its next act.
ghost use Rattle.std.specs.Prelude.{◌≡◌, ◌&&◌, IfOk, None, OnErr, OnOk, Some, ◌<◌, length};
ghost use Rattle.std.specs.Prelude.{slice_get};
ghost use Rattle.do_behave.specs.Changes.{IsFitting, Means};
ghost use Rattle.do_behave.specs.declared.invocation.Invocation.{Invocation};
ghost use Rattle.do_machine.specs.{Context.RunContext, run.{Acts.act_rule, Run.next_act}};
ghost use Rattle.do_machine.specs.run.Verdicts.{effect_of};
ghost use Rattle.do_part.specs.Changed.{act_left_on, changed};
ghost use Rattle.do_effects.specs.{Doing.doing, Plans.{CanCarryOut, IsRun, IsRunning, plan_effect}};
ghost use Rattle.do_effects.specs.{Plans.plan_needs, Room.HasRoom, Tidy.IsTidy};
ghost use Rattle.do_site.specs.{Kept.{IsKept, StaysBut}, Plans.{Allows, IsEnough}};
ghost use Rattle.do_site.specs.Room.{CanSettle, HasPlace, HasPlaceToLeave, to_keep};
ghost use Rattle.do_site.specs.{Running.{IsRunOf, is_step}, Steps.{IsSame, Moves}};

use crate::allowing::allowed;
use crate::ground::judged_by;
use crate::needs::Needs;
use crate::planning::planned;
use crate::tally::Reach;
use crate::work::Work;
use do_behave::{Act, Behaviour, Change};
use do_class::ClassTable;
use do_effects::Plan;
use do_rules::Turn;
use std::alloc::AllocError;

/// Whether an act is a step, which is done in place.
fn is_step(act: &Act) -> bool
    ensures { result ≡ is_step act.now }
{
    matches!(act, Act::Step { .. })
}

impl Work {
    /// A plan is carried out, in room that was made for it, and then what nothing holds is left.
    pub(super) fn finish(&mut self, plan: Plan, needs: &Needs)
        requires can { CanCarryOut plan self.old.core }
        requires enough { IsEnough (plan_needs plan) needs.now }
        requires place { HasPlace needs.now self.old.core self.old.told }
        ensures done { (r : RunContext) → IsRun self.old.core.part.own.node r
            → Moves self.old.core self.new.core (plan_effect r plan) }
        ensures tidy { IsTidy self.new.core.part.own }
        ensures stays { StaysBut self.old self.new }
        ensures places { CanSettle self.new }
    {
        self.core.carry_out(plan);
        self.has_few();
        self.leave();
    }

    /// Makes room for a plan, and tells what it takes.
    ///
    /// An error means that memory ran out, or that a number would pass what a node can count;
    /// nothing but room changed then.
    pub(super) fn make_room_for(&mut self, plan: &Plan) -> Result<Needs, AllocError>
        ensures same { IsSame self.old.core self.new.core }
        ensures stays { StaysBut self.old self.new }
        ensures places { CanSettle self.old → CanSettle self.new }
        ensures allowed { IfOk result (λ needs.
            Allows self.old.core.part.own.node plan.now needs) }
        ensures room { IfOk result (λ needs. HasPlace needs self.new.core self.new.told) }
    {
        let Some(needs) = allowed(&self.core.part, plan) else {
            return Err(AllocError);
        };
        self.make_room(&needs)?;
        Ok(needs)
    }

    /// What the top invocation, which runs, was planned to do is done.
    ///
    /// An error means that memory ran out, or that a number would pass what a node can count;
    /// nothing but room changed then.
    fn carry_out(&mut self, table: &ClassTable, plan: Plan) -> Result<(), AllocError>
        requires kept { IsKept table.now self.old }
        requires places { CanSettle self.old }
        requires runs { IsRunning self.old.core.part.own.node.stack }
        ensures ok { OnOk result ((r : RunContext) → IsRunOf table.now self.old.core.part.own r
            → Moves self.old.core self.new.core (plan_effect r plan)) }
        ensures err { OnErr result (IsSame self.old.core self.new.core) }
        ensures kept { IsKept table.now self.new }
        ensures places { CanSettle self.new }
    {
        let Ok(needs) = self.make_room_for(&plan) else {
            drop(plan);
            return Err(AllocError);
        };
        self.finish(plan, &needs);
        Ok(())
    }

    /// What the rules decide of an act of the top invocation, with all that carrying it out needs.
    fn plan_of(&self, table: &ClassTable, act: Act) -> Result<Plan, AllocError>
        ensures { IfOk result (λ plan. (r : RunContext)
            → IsRunOf table.now self.now.core.part.own r
            → plan_effect r plan ≡ effect_of r (act_rule r act)) }
    {
        let part = &self.core.part;
        let Some(top) = part.top() else {
            return Err(AllocError);
        };
        let ground = judged_by(table, part);
        let turn = Turn {
            basis: &ground,
            top,
        };
        let Ok(verdict) = turn.act_rule(act) else {
            return Err(AllocError);
        };
        planned(&ground, top, verdict)
    }

    /// What the rules decide of an act of the top invocation, which runs, is done.
    ///
    /// An error means that memory ran out, or that a number would pass what a node can count;
    /// nothing but room changed then.
    fn decide(&mut self, table: &ClassTable, act: Act) -> Result<(), AllocError>
        requires kept { IsKept table.now self.old }
        requires places { CanSettle self.old }
        requires runs { IsRunning self.old.core.part.own.node.stack }
        ensures ok { OnOk result ((r : RunContext) → IsRunOf table.now self.old.core.part.own r
            → Moves self.old.core self.new.core (effect_of r (act_rule r act))) }
        ensures err { OnErr result (IsSame self.old.core self.new.core) }
        ensures kept { IsKept table.now self.new }
        ensures places { CanSettle self.new }
    {
        let Ok(plan) = self.plan_of(table, act) else {
            return Err(AllocError);
        };
        self.carry_out(table, plan)
    }

    /// The next act of the top invocation, which runs, as the one change that it makes.
    fn next_change<B: Behaviour>(&self, table: &ClassTable, acts: &B) -> Result<Change, AllocError>
        ensures { IfOk result (λ change. (r : RunContext)
            → IsRunOf table.now self.now.core.part.own r
            → Means r.top change (next_act (B.act acts.now) r)) }
    {
        let part = &self.core.part;
        let Some(top) = part.top() else {
            return Err(AllocError);
        };
        let ground = judged_by(table, part);
        let turn = Turn {
            basis: &ground,
            top,
        };
        turn.next_change(acts)
    }

    /// Makes room for so many more names to keep. Most steps keep none, and find their room where
    /// no line waits.
    ///
    /// An error means that memory ran out; nothing but room changed then.
    fn make_room_to_keep(&mut self, names: u64) -> Result<(), AllocError>
        requires { CanSettle self.old }
        ensures same { IsSame self.old.core self.new.core }
        ensures stays { StaysBut self.old self.new }
        ensures places { CanSettle self.new }
        ensures room { OnOk result (HasRoom (to_keep names) self.new.core) }
        ensures place { OnOk result (HasPlaceToLeave self.new.core self.new.told) }
    {
        if names == 0 && self.core.streams.is_told() {
            return Ok(());
        }
        self.make_room(&Needs::to_keep(names))
    }

    /// The top invocation is changed by a step, in room that is made for that.
    ///
    /// An error means that memory ran out; nothing but room changed then.
    fn make_change(&mut self, change: Change) -> Result<(), AllocError>
        requires places { CanSettle self.old }
        requires top { 0 < length self.old.core.part.own.node.stack }
        requires fits { (top : Invocation)
            → slice_get self.old.core.part.own.node.stack 0 ≡ Some top → IsFitting top change }
        requires step { act_left_on change self.old.core.part.own.node.stack ≡ None }
        ensures own { OnOk result (doing self.new.core ≡ record (doing self.old.core) {
          own = record self.old.core.part.own {
            node = changed change self.old.core.part.own.node;
          };
        }) }
        ensures err { OnErr result (IsSame self.old.core self.new.core) }
        ensures stays { StaysBut self.old self.new }
        ensures places { CanSettle self.new }
        ensures room { OnOk result (HasPlaceToLeave self.new.core self.new.told) }
    {
        let part = &self.core.part;
        let Some(names) = (Reach { part, more: 0 }).of_change(&change) else {
            return Err(AllocError);
        };
        self.make_room_to_keep(names)?;
        self.core.part.step(change)
    }

    /// The top invocation goes on by a change that is a step.
    ///
    /// An error means that memory ran out; nothing but room changed then.
    fn go_on(&mut self, table: &ClassTable, change: Change) -> Result<(), AllocError>
        requires kept { IsKept table.now self.old }
        requires places { CanSettle self.old }
        requires top { 0 < length self.old.core.part.own.node.stack }
        requires fits { (top : Invocation)
            → slice_get self.old.core.part.own.node.stack 0 ≡ Some top → IsFitting top change }
        requires step { act_left_on change self.old.core.part.own.node.stack ≡ None }
        ensures ok { OnOk result ((r : RunContext) (act : Act)
            → IsRunOf table.now self.old.core.part.own r → Means r.top change act
            → Moves self.old.core self.new.core (effect_of r (act_rule r act))) }
        ensures err { OnErr result (IsSame self.old.core self.new.core) }
        ensures kept { IsKept table.now self.new }
        ensures places { CanSettle self.new }
    {
        self.make_change(change)?;
        self.leave();
        Ok(())
    }

    /// An act of the top invocation, which runs, is done: a step in place, and any other as the
    /// rules decide.
    ///
    /// An error means that memory ran out, or that a number would pass what a node can count;
    /// nothing but room changed then.
    fn do_act(&mut self, table: &ClassTable, act: Act) -> Result<(), AllocError>
        requires kept { IsKept table.now self.old }
        requires places { CanSettle self.old }
        requires runs { IsRunning self.old.core.part.own.node.stack }
        ensures ok { OnOk result ((r : RunContext) → IsRunOf table.now self.old.core.part.own r
            → Moves self.old.core self.new.core (effect_of r (act_rule r act))) }
        ensures err { OnErr result (IsSame self.old.core self.new.core) }
        ensures kept { IsKept table.now self.new }
        ensures places { CanSettle self.new }
    {
        if is_step(&act) {
            self.go_on(table, Change::Other(act))
        } else {
            self.decide(table, act)
        }
    }

    /// The top invocation, which runs, does its next act: a step is done in place, and of any other
    /// the rules decide.
    ///
    /// An error means that memory ran out, or that a number would pass what a node can count;
    /// nothing but room changed then.
    pub(super) fn act<B: Behaviour>(
        &mut self,
        table: &ClassTable,
        acts: &B,
    ) -> Result<(), AllocError>
        requires kept { IsKept table.now self.old }
        requires places { CanSettle self.old }
        requires runs { IsRunning self.old.core.part.own.node.stack }
        ensures ok { OnOk result ((r : RunContext) → IsRunOf table.now self.old.core.part.own r
            → Moves self.old.core self.new.core
            (effect_of r (act_rule r (next_act (B.act acts.now) r)))) }
        ensures err { OnErr result (IsSame self.old.core self.new.core) }
        ensures kept { IsKept table.now self.new }
        ensures places { CanSettle self.new }
    {
        let Ok(change) = self.next_change(table, acts) else {
            return Err(AllocError);
        };
        match change {
            Change::Other(act) => self.do_act(table, act),
            step => self.go_on(table, step),
        }
    }
}
