//! A change of an invocation in place, which hands back what it took out.
//!
//! A change of an invocation has one body, `exchange`, which hands back what the locals held
//! and what is left to do in the slots. `make_change` does both, and lets go of what came back;
//! a site's stack counts it. So a change of several locals takes memory for the values that it
//! takes out, also where nobody counts them.
ghost use Rattle.std.specs.Prelude.{◌≡◌, List, false, IfOk, OnOk, OnErr, IsOk};
ghost use Rattle.do_base.specs.declared.values.value.Value.{Value};
ghost use Rattle.do_behave.specs.Changes.{IsFitting, meaning, with_set};
ghost use Rattle.do_behave.specs.Exchange.{taken, slots_after, act_left, set_out, act_taken};
ghost use Rattle.do_behave.specs.{Exchange.{taken_by, takes_memory}, InPlace.after_act};
ghost use Rattle.do_behave.specs.declared.exchanged.Taken.TheVariants.{Nothing};

use crate::act::Act;
use crate::change::{Change, LocalSet, LocalSets};
use crate::exchanged::{Exchanged, Left, Taken};
use crate::held::Frame;
use crate::invocation::Invocation;
use crate::setting::put_local;
use do_base::Values;
use std::alloc::AllocError;

/// Sets locals in order, and takes what each held before it was set.
///
/// If memory runs out, no local is set: room for all values is made first.
fn put_all(locals: &mut Frame, mut sets: LocalSets) -> Result<Values, AllocError>
    ensures locals { OnOk result (locals.new ≡ with_set locals.old sets) }
    ensures taken { IfOk result (λ was. was ≡ set_out locals.old sets) }
    ensures err { OnErr result (locals.new ≡ locals.old) }
{
    let mut was = Vec::with_capacity(sets.allocator(), sets.len())?;
    while !sets.is_empty() {
        let LocalSet { local, value } = sets.remove(0);
        let before = put_local(locals, local, value);
        was.push_reserved(before);
    }
    Ok(Values::from_vec(was))
}

/// An exchange that took nothing.
#[inline(always)]
fn took_nothing(left: Left) -> Exchanged
    ensures { result ≡ record { taken = Nothing; left = left } }
{
    Exchanged {
        taken: Taken::Nothing,
        left,
    }
}

/// Does an act, where it is a step, but for its writes of slots; else hands it back.
#[inline(always)]
fn exchange_act(inv: &mut Invocation, act: Act) -> Exchanged
    ensures done { (slots : List Value) → record {
      inv = inv.new;
      slots = slots_after result.left slots;
      left = act_left result.left;
    } ≡ after_act act inv.old slots }
    ensures taken { taken result.taken ≡ act_taken inv.old.locals act }
{
    match act {
        Act::Step {
            pc,
            locals,
            handler,
            writes,
        } => {
            let was = inv.step_to(pc, locals, handler);
            Exchanged {
                taken: Taken::All(was),
                left: Left::Slots(writes),
            }
        }
        other => took_nothing(Left::Other(other)),
    }
}

/// Makes a change of an invocation, where it is a step, but for its writes of slots. What it took
/// out of the locals is handed back, and what is left to do.
///
/// If memory runs out, the invocation is unchanged.
#[inline(always)]
pub fn exchange(inv: &mut Invocation, change: Change) -> Result<Exchanged, AllocError>
    requires { IsFitting inv.old change }
    ensures done { IfOk result (λ e. (slots : List Value) → record {
      inv = inv.new;
      slots = slots_after e.left slots;
      left = act_left e.left;
    } ≡ after_act (meaning inv.old change) inv.old slots) }
    ensures taken { IfOk result (λ e. taken e.taken ≡ taken_by inv.old.locals change) }
    ensures sure { takes_memory change ≡ false → IsOk result }
    ensures err { OnErr result (inv.new ≡ inv.old) }
{
    match change {
        Change::Local { into, value, pc } => {
            let was = inv.set_local(into, value, pc);
            Ok(Exchanged {
                taken: Taken::One(was),
                left: Left::Nothing,
            })
        }
        Change::Push {
            list,
            item,
            weight,
            pc,
        } => {
            inv.push_item(list, item, weight, pc)?;
            Ok(took_nothing(Left::Nothing))
        }
        Change::Goto { pc } => {
            inv.pc = pc;
            Ok(took_nothing(Left::Nothing))
        }
        Change::Slot { slot, value, pc } => {
            inv.pc = pc;
            Ok(took_nothing(Left::Slot { slot, value }))
        }
        Change::Slots {
            sets,
            handler,
            writes,
            pc,
        } => {
            let was = put_all(&mut inv.locals, sets)?;
            inv.handler = handler;
            inv.pc = pc;
            Ok(Exchanged {
                taken: Taken::Many(was),
                left: Left::Slots(writes),
            })
        }
        Change::Handler { handler, pc } => {
            inv.handler = handler;
            inv.pc = pc;
            Ok(took_nothing(Left::Nothing))
        }
        Change::Other(act) => Ok(exchange_act(inv, act)),
    }
}
