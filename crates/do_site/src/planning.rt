//! Verdicts as plans.
ghost use Rattle.std.specs.Prelude.{◌≡◌, IfOk};
ghost use Rattle.do_machine.specs.{Context.RunContext, run.{Delivery.delivery, Verdicts.effect_of}};
ghost use Rattle.do_network.specs.Own.{site_context};
ghost use Rattle.do_effects.specs.Plans.{plan_effect};
ghost use Rattle.do_site.specs.{Plans.IsTurnOf, Running.IsOver};

use crate::ground::Ground;
use do_base::{Exc, Locals, Oid, Value, Values};
use do_behave::{Answer, Invocation, Reason};
use do_class::{ClassId, MethodId};
use do_effects::Plan;
use do_machine::Verdict;
use do_rules::{Basis, Turn, blank, deliveries_are_made, exc_name, fresh};
use std::alloc::AllocError;

/// An object that is made has nil slots.
fn making(ground: &Ground<'_>, class: ClassId, into: u8, pc: u32) -> Result<Plan, AllocError>
    ensures { IfOk result (λ plan. (r : RunContext) → r.context.table ≡ ground.now.table.now
        → plan_effect r plan ≡ effect_of r (Verdict.Makes class into pc)) }
{
    let made = blank(ground.allocator(), ground.table, class)?;
    Ok(Plan::Makes {
        class,
        slots: made.slots,
        into,
        pc,
    })
}

/// A method of an own object begins.
fn beginning(
    object: Oid,
    method: MethodId,
    values: &Values,
    into: u8,
    outs: Locals,
    pc: u32,
) -> Result<Plan, AllocError>
    ensures { IfOk result (λ plan. (r : RunContext) → plan_effect r plan
        ≡ effect_of r (Verdict.Begins object method values.now into outs pc)) }
{
    match fresh(object, method, Reason::Local, values) {
        Ok(invocation) => Ok(Plan::Begins {
            invocation,
            into,
            outs,
            pc,
        }),
        Err(error) => {
            drop(outs);
            Err(error)
        }
    }
}

/// An answer goes where it is waited for.
fn delivering(ground: &Ground<'_>, top: &Invocation, answer: Answer) -> Result<Plan, AllocError>
    ensures effect { IfOk result (λ plan. (r : RunContext)
        → IsTurnOf r (site_context ground.now.table.now ground.now.part.now.own) top.now
        → plan_effect r plan ≡ delivery r answer r.top.reason) }
    ensures over { IfOk result IsOver }
{
    deliveries_are_made();
    let turn = Turn { basis: ground, top };
    let Ok(delivery) = turn.delivery(answer) else {
        return Err(AllocError);
    };
    Ok(Plan::Delivers { delivery })
}

/// An exception goes to the handler of the invocation, which stays, or ends it.
pub fn failing(ground: &Ground<'_>, top: &Invocation, exc: Exc) -> Result<Plan, AllocError>
    ensures effect { IfOk result (λ plan. (r : RunContext)
        → IsTurnOf r (site_context ground.now.table.now ground.now.part.now.own) top.now
        → plan_effect r plan ≡ effect_of r (Verdict.Fails exc)) }
    ensures over { IfOk result IsOver }
{
    match top.handler {
        None => delivering(ground, top, Answer::Raised(exc)),
        Some(handler) => Ok(Plan::Goes {
            into: handler.into,
            value: Value::Text(exc_name(ground.allocator(), &exc)?),
            pc: handler.pc,
        }),
    }
}

/// A verdict with all that carrying it out needs. A step is none: it is done in place.
pub fn planned(ground: &Ground<'_>, top: &Invocation, verdict: Verdict) -> Result<Plan, AllocError>
    ensures { IfOk result (λ plan. (r : RunContext)
        → IsTurnOf r (site_context ground.now.table.now ground.now.part.now.own) top.now
        → plan_effect r plan ≡ effect_of r verdict) }
{
    match verdict {
        Verdict::Goes { into, value, pc } => Ok(Plan::Goes { into, value, pc }),
        Verdict::Uses { value, outs } => Ok(Plan::Uses { value, outs }),
        Verdict::Steps { .. } => {
            drop(verdict);
            Err(AllocError)
        }
        Verdict::Makes { class, into, pc } => making(ground, class, into, pc),
        Verdict::Vends { root, pc } => Ok(Plan::Vends { root, pc }),
        Verdict::Says { value, pc } => Ok(Plan::Says { value, pc }),
        Verdict::Asks {
            peer,
            request,
            into,
            outs,
            pc,
        } => Ok(Plan::Asks {
            peer,
            request,
            into,
            outs,
            pc,
        }),
        Verdict::Begins {
            object,
            method,
            values,
            into,
            outs,
            pc,
        } => beginning(object, method, &values, into, outs, pc),
        Verdict::Tells {
            peer,
            message,
            into,
            pc,
        } => Ok(Plan::Tells {
            peer,
            message,
            into,
            pc,
        }),
        Verdict::Returns { value, outs } => {
            let answer = Answer::Given {
                result: value,
                outs,
            };
            delivering(ground, top, answer)
        }
        Verdict::Fails(exc) => failing(ground, top, exc),
    }
}
