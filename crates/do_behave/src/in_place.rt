//! Acts done where the invocation and the slots of its object stand.
ghost use Rattle.std.specs.Prelude.{◌≡◌, slice_set, IfOk, OnErr};
ghost use Rattle.do_behave.specs.{Changes.{IsFitting, meaning}, Exchange.{slots_after, act_left}};
ghost use Rattle.do_behave.specs.InPlace.{after_act, written};

use crate::act::{Act, Writes};
use crate::behaviour::Behaviour;
use crate::change::Change;
use crate::exchanged::Left;
use crate::exchanging::exchange;
use crate::invocation::Invocation;
use crate::moving::discard;
use do_base::{Items, Values};
use do_class::ClassTable;
use std::alloc::AllocError;

/// Puts an item at a place; past the end nothing is put.
#[tactic(auto, using(crate::proofs::ListUpdates::set_steps))]
#[inline(always)]
fn put<T: Drop>(items: &mut Items<T>, at: usize, item: T)
    ensures { items.new ≡ slice_set items.old at item }
{
    if at < items.len() {
        items.set(at, item);
    } else {
        discard(item);
    }
}

/// Writes slots, in order.
#[tactic(auto, using(crate::proofs::ListUpdates::written_first))]
fn write_all(slots: &mut Values, mut writes: Writes)
    ensures { slots.new ≡ written slots.old writes }
{
    while !writes.is_empty() {
        let first = writes.remove(0);
        put(slots, first.slot, first.value);
    }
}

/// Does what a change left to do in the slots of the object; else hands back the act that is left.
#[inline(always)]
fn finish(slots: &mut Values, left: Left) -> Option<Act>
    ensures slots { slots.new ≡ slots_after left slots.old }
    ensures left { result ≡ act_left left }
{
    match left {
        Left::Nothing => None,
        Left::Slot { slot, value } => {
            put(slots, slot, value);
            None
        }
        Left::Slots(writes) => {
            write_all(slots, writes);
            None
        }
        Left::Other(act) => Some(act),
    }
}

/// Makes a change of an invocation and the slots of its object, where the change is a step; else
/// hands back the act that is left to do. If memory runs out, both are unchanged.
pub fn make_change(
    inv: &mut Invocation,
    slots: &mut Values,
    change: Change,
) -> Result<Option<Act>, AllocError>
    requires { IsFitting inv.old change }
    ensures ok { IfOk result (λ left. record { inv = inv.new; slots = slots.new; left = left }
        ≡ after_act (meaning inv.old change) inv.old slots.old) }
    ensures err { OnErr result ((inv.new ≡ inv.old) × (slots.new ≡ slots.old)) }
{
    let done = exchange(inv, change)?;
    Ok(finish(slots, done.left))
}

/// Does the next act of an invocation, where it is a step; else hands the act back. If memory runs
/// out, the invocation and the slots are unchanged.
pub fn act_in_place<B: Behaviour>(
    behaviour: &B,
    table: &ClassTable,
    inv: &mut Invocation,
    slots: &mut Values,
) -> Result<Option<Act>, AllocError>
    ensures ok { IfOk result (λ left. record { inv = inv.new; slots = slots.new; left = left }
        ≡ after_act (B.act behaviour.now table.now inv.old slots.old) inv.old slots.old) }
    ensures err { OnErr result ((inv.new ≡ inv.old) × (slots.new ≡ slots.old)) }
{
    let change = behaviour.act(table, inv, slots)?;
    make_change(inv, slots, change)
}
