//! The acts of `pasteboardNamed:`: it looks, makes a pasteboard, keeps it and answers.
ghost use Rattle.std.specs.Prelude.{◌≡◌, IfOk};
ghost use Rattle.do_behave.specs.{Changes.Means, Steps.{or_fault, local}};
ghost use Rattle.do_native_acts.specs.{Places.at_place, Steps.fits};
ghost use Rattle.do_base.specs.values.Kinds.{object};
ghost use Rattle.do_grammar.specs.Words.{◌>>?◌};
ghost use Rattle.do_pboard.specs.Acts.{makes_next, name_next, name_places, names_keep, names_look};
ghost use Rattle.do_pboard.specs.{Acts.names_keep_on, Changes.keeps};

use crate::board::Board;
use crate::sets::{ANSWER, one_set, two_sets};
use crate::slots::boards_slot;
use do_base::{Exc, Oid, Text, Value, Values};
use do_behave::{Act, Change, Invocation, Writes};
use do_native_acts::{CoreFault, answer, changes, is_limited, local_text, step};
use std::alloc::AllocError;

/// The step before a pasteboard is made, where the slot that will keep it is within the limits.
fn makes_next(inv: &Invocation, board: &Board) -> Result<Change, AllocError>
    ensures { IfOk result (λ change. Means inv.now change (makes_next inv.now board.now)) }
{
    let alloc = inv.locals.allocator();
    if !is_limited(&boards_slot(&board.boards)?) {
        return Ok(Change::Other(Act::Raise(Exc::Range)));
    }
    let sets = one_set(alloc, 1, Value::Nil)?;
    Ok(step(inv, 1, sets, inv.handler, Writes::new(alloc)))
}

/// The step where nothing is kept under the name yet: whether there is room is seen with the own
/// object, which is as heavy as a new one.
fn makes(inv: &Invocation, board: &mut Board, name: &Text) -> Result<Change, AllocError>
    ensures { IfOk result (λ change. Means inv.now change
        (fits (keeps board.old name.now inv.now.object) (λ d. makes_next inv.now d.0))) }
{
    match board.keep(name.clone()?, inv.object) {
        Ok(_) => makes_next(inv, board),
        Err(CoreFault::Full(_)) => Ok(Change::Other(Act::Raise(Exc::Range))),
        Err(CoreFault::Memory) => Err(AllocError),
    }
}

/// The step after the name was looked for.
fn name_next(
    inv: &Invocation,
    board: &mut Board,
    name: &Text,
    kept: Option<Oid>,
) -> Result<Change, AllocError>
    ensures { IfOk result (λ change.
        Means inv.now change (name_next inv.now board.old name.now kept)) }
{
    let Some(kept) = kept else {
        return makes(inv, board, name);
    };
    let alloc = inv.locals.allocator();
    let sets = two_sets(alloc, 1, Value::Obj(kept), ANSWER, Value::Obj(kept))?;
    Ok(step(inv, 3, sets, inv.handler, Writes::new(alloc)))
}

/// Looks for the pasteboard of the name.
fn names_look(inv: &Invocation, slots: &Values) -> Result<Change, AllocError>
    ensures { IfOk result (λ change.
        Means inv.now change (or_fault (names_look inv.now slots.now))) }
{
    let Some(mut board) = Board::from_slots(slots)? else {
        return Ok(Change::type_fault());
    };
    let Some(name) = local_text(inv, 0) else {
        return Ok(Change::type_fault());
    };
    let kept = board.named(name);
    name_next(inv, &mut board, name, kept)
}

/// The object that local 1 holds.
fn new_board(inv: &Invocation) -> Option<Oid>
    ensures { result ≡ (local inv.now 1 >>? object) }
{
    inv.local(1)?.object()
}

/// Keeps the new pasteboard under the name on this one.
fn names_keep_on(board: &mut Board, inv: &Invocation, slots: &Values) -> Result<Change, AllocError>
    ensures { IfOk result (λ change.
        Means inv.now change (or_fault (names_keep_on inv.now slots.now board.old))) }
{
    let Some(name) = local_text(inv, 0) else {
        return Ok(Change::type_fault());
    };
    let Some(new) = new_board(inv) else {
        return Ok(Change::type_fault());
    };
    match board.keep(name.clone()?, new) {
        Ok(kept) => {
            let sets = one_set(inv.locals.allocator(), ANSWER, Value::Obj(kept))?;
            let writes = changes(slots, &board.to_slots()?)?;
            Ok(step(inv, 3, sets, inv.handler, writes))
        }
        Err(CoreFault::Full(_)) => Ok(Change::Other(Act::Raise(Exc::Range))),
        Err(CoreFault::Memory) => Err(AllocError),
    }
}

/// Keeps the new pasteboard under the name.
fn names_keep(inv: &Invocation, slots: &Values) -> Result<Change, AllocError>
    ensures { IfOk result (λ change.
        Means inv.now change (or_fault (names_keep inv.now slots.now))) }
{
    match Board::from_slots(slots)? {
        Some(mut board) => names_keep_on(&mut board, inv, slots),
        None => Ok(Change::type_fault()),
    }
}

/// The act of `pasteboardNamed:` at its place.
pub(crate) fn name_act(inv: &Invocation, slots: &Values) -> Result<Change, AllocError>
    ensures { IfOk result (λ change. Means inv.now change
        (or_fault (at_place inv.now (name_places inv.now slots.now)))) }
{
    match inv.pc {
        0 => names_look(inv, slots),
        1 => Ok(Change::Other(Act::New {
            class: inv.method.class,
            into: 1,
            pc: 2,
        })),
        2 => names_keep(inv, slots),
        3 => answer(inv),
        _ => Ok(Change::type_fault()),
    }
}
