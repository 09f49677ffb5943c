//! The acts of `declareTypes:owner:`: it declares, tells the former owner, and answers.
ghost use Rattle.std.specs.Prelude.{◌≡◌, ◌∷◌, [], IfOk};
ghost use Rattle.do_base.specs.declared.values.value.Value.TheVariants.{Obj};
ghost use Rattle.do_behave.specs.{Changes.Means, Steps.or_fault};
ghost use Rattle.do_native_acts.specs.Places.{at_place, sends};
ghost use Rattle.do_pboard.specs.Acts.{changed_owner, declare_next, declare_places, declares};
ghost use Rattle.do_pboard.specs.{Acts.{declares_on, to_tell}, Core.to_slots};

use crate::board::Board;
use crate::calls::{Call, local_types};
use crate::parts::same_owner;
use crate::sets::{ANSWER, caught_to, two_sets};
use do_base::{Exc, Oid, Value, Values};
use do_behave::{Act, Change, Invocation};
use do_native_acts::{CoreFault, answer, changes, local_owner, send, step};
use std::alloc::AllocError;

/// The former owner, where it is to be told of the new one.
fn to_tell(former: Option<Oid>, owner: &Option<Oid>) -> Option<Oid>
    ensures { result ≡ to_tell former owner.now }
{
    if same_owner(&former, owner) {
        None
    } else {
        former
    }
}

/// The step after a declaration, which left this core.
fn declare_next(
    inv: &Invocation,
    told: Option<Oid>,
    answer: Value,
    slots: &Values,
    board: &Board,
) -> Result<Change, AllocError>
    ensures { IfOk result (λ change.
        Means inv.now change (declare_next inv.now told answer slots.now (to_slots board.now))) }
{
    let alloc = inv.locals.allocator();
    let writes = changes(slots, &board.to_slots()?)?;
    match told {
        Some(former) => {
            let sets = two_sets(alloc, 2, Value::Obj(former), ANSWER, answer)?;
            Ok(step(inv, 1, sets, caught_to(2), writes))
        }
        None => {
            let sets = two_sets(alloc, 2, Value::Nil, ANSWER, answer)?;
            Ok(step(inv, 2, sets, inv.handler, writes))
        }
    }
}

/// Declares the types on this pasteboard.
fn declares_on(board: &mut Board, inv: &Invocation, slots: &Values) -> Result<Change, AllocError>
    ensures { IfOk result (λ change.
        Means inv.now change (or_fault (declares_on inv.now slots.now board.old))) }
{
    let Some(types) = local_types(inv, 0)? else {
        return Ok(Change::type_fault());
    };
    let Some(owner) = local_owner(inv, 1) else {
        return Ok(Change::type_fault());
    };
    let told = to_tell(board.owner(), &owner);
    match board.perform(Call::Declare { types, owner }) {
        Ok(answer) => declare_next(inv, told, answer, slots, board),
        Err(CoreFault::Full(_)) => Ok(Change::Other(Act::Raise(Exc::Range))),
        Err(CoreFault::Memory) => Err(AllocError),
    }
}

/// Declares the types.
fn declares(inv: &Invocation, slots: &Values) -> Result<Change, AllocError>
    ensures { IfOk result (λ change.
        Means inv.now change (or_fault (declares inv.now slots.now))) }
{
    match Board::from_slots(slots)? {
        Some(mut board) => declares_on(&mut board, inv, slots),
        None => Ok(Change::type_fault()),
    }
}

/// Tells the former owner that another one declared types.
fn tells(inv: &Invocation) -> Result<Change, AllocError>
    ensures { IfOk result (λ change. Means inv.now change
        (or_fault (sends inv.now 2 changed_owner (Obj inv.now.object ∷ []) 2))) }
{
    let mut args = Values::with_capacity(inv.locals.allocator(), 1)?;
    args.push(Value::Obj(inv.object))?;
    send(inv, 2, b"pasteboardChangedOwner:", args, 2)
}

/// The act of `declareTypes:owner:` at its place.
pub(crate) fn declare_act(inv: &Invocation, slots: &Values) -> Result<Change, AllocError>
    ensures { IfOk result (λ change. Means inv.now change
        (or_fault (at_place inv.now (declare_places inv.now slots.now)))) }
{
    match inv.pc {
        0 => declares(inv, slots),
        1 => tells(inv),
        2 => answer(inv),
        _ => Ok(Change::type_fault()),
    }
}
