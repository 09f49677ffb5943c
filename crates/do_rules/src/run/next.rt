//! The next act of the top invocation, and what a run does.
ghost use Rattle.std.specs.Prelude.{◌≡◌, IfOk, option_map};
ghost use Rattle.do_behave.specs.Changes.{IsFitting, Means, meaning};
ghost use Rattle.do_machine.specs.run.Run.{answer_rule, next_act, run_effect, state_rule};
ghost use Rattle.do_machine.specs.run.Verdicts.{effect_of};
ghost use Rattle.do_rules.specs.Judged.{IsOfNode, run_of, step_of, turn_in};
ghost use Rattle.do_rules.specs.Writing.{done_by, writing};

use crate::basis::Basis;
use crate::judged::{Context, Run, Turn};
use do_base::{Value, Values};
use do_behave::{Act, Answer, Behaviour, Change, InvState, Invocation, Write, Writes, make_change};
use do_machine::{Effect, Verdict};
use std::alloc::AllocError;

/// The act that was done to an invocation, by the one after it and what is left to do: where
/// nothing is left it was a step, which writes these slots.
fn done_by(after: Invocation, left: Option<Act>, writes: Writes) -> Act
    ensures { result ≡ done_by writes after left }
{
    match left {
        Some(act) => act,
        None => {
            let Invocation {
                pc,
                locals,
                handler,
                ..
            } = after;
            Act::Step {
                pc,
                locals,
                handler,
                writes,
            }
        }
    }
}

/// The step that a change of an invocation is, but that it writes these slots: what the change
/// makes of a copy.
fn step_by(inv: &Invocation, change: Change, writes: Writes) -> Result<Act, AllocError>
    requires { IsFitting inv.now change }
    ensures { IfOk result (λ act. act ≡ writing writes (meaning inv.now change)) }
{
    let Ok(mut next) = inv.clone() else {
        drop(change);
        drop(writes);
        return Err(AllocError);
    };
    let mut no_slots = Values::new(inv.locals.allocator());
    let Ok(left) = make_change(&mut next, &mut no_slots, change) else {
        drop(writes);
        return Err(AllocError);
    };
    Ok(done_by(next, left, writes))
}

/// A step to a place, which sets no local, keeps the handler and writes one slot.
fn slot_step(inv: &Invocation, slot: usize, value: Value, pc: u32) -> Result<Act, AllocError>
    ensures { IfOk result (λ act. act ≡ meaning inv.now (Change.Slot slot value pc)) }
{
    let mut writes = Writes::new(inv.locals.allocator());
    writes.push(Write { slot, value })?;
    step_by(inv, Change::Goto { pc }, writes)
}

/// The act that a change of an invocation is.
fn act_of(inv: &Invocation, change: Change) -> Result<Act, AllocError>
    requires { IsFitting inv.now change }
    ensures { IfOk result (λ act. act ≡ meaning inv.now change) }
{
    let none = Writes::new(inv.locals.allocator());
    match change {
        Change::Local { into, value, pc } => step_by(inv, Change::Local { into, value, pc }, none),
        Change::Push {
            list,
            item,
            weight,
            pc,
        } => {
            let push = Change::Push {
                list,
                item,
                weight,
                pc,
            };
            step_by(inv, push, none)
        }
        Change::Goto { pc } => step_by(inv, Change::Goto { pc }, none),
        Change::Slot { slot, value, pc } => slot_step(inv, slot, value, pc),
        Change::Slots {
            sets,
            handler,
            writes,
            pc,
        } => {
            let sets = Change::Slots {
                sets,
                handler,
                writes: none,
                pc,
            };
            step_by(inv, sets, writes)
        }
        Change::Handler { handler, pc } => step_by(inv, Change::Handler { handler, pc }, none),
        Change::Other(act) => Ok(act),
    }
}

/// What an answer that came is to the one that waits: it is used, and an exception is raised.
fn answer_rule(answer: &Answer) -> Result<Verdict, AllocError>
    ensures { IfOk result (λ v. v ≡ answer_rule answer.now) }
{
    match answer.clone()? {
        Answer::Given { result, outs } => Ok(Verdict::Uses {
            value: result,
            outs,
        }),
        Answer::Raised(exc) => Ok(Verdict::Fails(exc)),
    }
}

impl<'a, N: Basis> Turn<'a, N> {
    /// The next act of the invocation, as the one change that it makes. One whose object is not
    /// stored is shown no slots.
    pub fn next_change<B: Behaviour>(&self, behaviour: &B) -> Result<Change, AllocError>
        ensures { IfOk result (λ change. Means self.now.top.now change
            (next_act (B.act behaviour.now)
            (turn_in (N.context self.now.basis.now) self.now.top.now))) }
    {
        let basis = self.basis;
        let object = &self.top.object;
        match basis.own_slots(object.serial) {
            Some(slots) => behaviour.act(basis.table(), self.top, slots),
            None => {
                let none = Values::new(basis.allocator());
                behaviour.act(basis.table(), self.top, &none)
            }
        }
    }

    /// The next act of the invocation.
    fn next_act<B: Behaviour>(&self, behaviour: &B) -> Result<Act, AllocError>
        ensures { IfOk result (λ a. a ≡ next_act (B.act behaviour.now)
            (turn_in (N.context self.now.basis.now) self.now.top.now)) }
    {
        let change = self.next_change(behaviour)?;
        act_of(self.top, change)
    }

    /// What becomes of the invocation, where it can act.
    pub fn verdict<B: Behaviour>(&self, behaviour: &B) -> Result<Option<Verdict>, AllocError>
        ensures { IfOk result (λ v. v ≡ state_rule (B.act behaviour.now)
            (turn_in (N.context self.now.basis.now) self.now.top.now) self.now.top.now.state) }
    {
        match &self.top.state {
            InvState::Running => {
                let act = self.next_act(behaviour)?;
                Ok(Some(self.act_rule(act)?))
            }
            InvState::Answered(answer) => Ok(Some(answer_rule(answer)?)),
            InvState::Below | InvState::Waits { .. } => Ok(None),
        }
    }
}

impl<'a> Run<'a> {
    /// What the top invocation does, where it can act.
    fn effect<B: Behaviour>(&self, behaviour: &B) -> Result<Option<Effect>, AllocError>
        requires { IsOfNode self.now }
        ensures { IfOk result (λ e. e ≡ option_map (effect_of (run_of self.now))
            (state_rule (B.act behaviour.now) (run_of self.now) (run_of self.now).top.state)) }
    {
        let turn = Turn {
            basis: &self.context,
            top: self.top,
        };
        match turn.verdict(behaviour)? {
            Some(verdict) => Ok(Some(self.effect_of(verdict)?)),
            None => Ok(None),
        }
    }
}

/// What a run of a node does, where it has an invocation that can act.
pub fn run_effect<B: Behaviour>(
    context: Context<'_>,
    behaviour: &B,
) -> Result<Option<Effect>, AllocError>
    ensures { IfOk result (λ e. e ≡ run_effect (B.act behaviour.now) (step_of context.entry)) }
{
    let [top, below @ ..] = context.node.stack.as_slice() else {
        return Ok(None);
    };
    let run = Run {
        context,
        top,
        below,
    };
    run.effect(behaviour)
}
