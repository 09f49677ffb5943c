//! The acts of `dataForType:`: it looks, asks the owner, looks again and answers.
ghost use Rattle.std.specs.Prelude.{◌≡◌, ◌∷◌, [], IfOk};
ghost use Rattle.do_base.specs.declared.values.value.Value.TheVariants.{Nil};
ghost use Rattle.do_behave.specs.{Changes.Means, Steps.or_fault};
ghost use Rattle.do_native_acts.specs.{Places.at_place, Steps.set};
ghost use Rattle.do_pboard.specs.Acts.{asks, data_places, found_now, look_next, look_sets, looks};
ghost use Rattle.do_pboard.specs.Acts.{looks_again, looks_again_on, looks_on};

use crate::board::{Board, BoardData};
use crate::sets::{ANSWER, caught_to, one_set, two_sets};
use do_base::{Text, Value, Values};
use do_behave::{Change, Invocation, LocalSet, LocalSets, Writes};
use do_native_acts::{answer, local_number, local_text, send, step};
use std::alloc::AllocError;

/// What the first look sets where the answer is known: nobody to ask, the change count, and it.
fn answer_sets(inv: &Invocation, board: &Board, value: Value) -> Result<LocalSets, AllocError>
    ensures { IfOk result (λ sets. sets ≡ look_sets Nil board.now.count (set 14 value ∷ [])) }
{
    let count = Value::Num(board.change_count());
    let mut sets = two_sets(inv.locals.allocator(), 1, Value::Nil, 2, count)?;
    let local = ANSWER;
    sets.push(LocalSet { local, value })?;
    Ok(sets)
}

/// The step after the first look.
fn look_next(inv: &Invocation, board: &Board, found: BoardData) -> Result<Change, AllocError>
    ensures { IfOk result (λ change.
        Means inv.now change (look_next inv.now board.now.count found)) }
{
    let alloc = inv.locals.allocator();
    let answer = match found {
        BoardData::Ask(owner) => {
            let count = Value::Num(board.change_count());
            let sets = two_sets(alloc, 1, Value::Obj(owner), 2, count)?;
            return Ok(step(inv, 1, sets, caught_to(2), Writes::new(alloc)));
        }
        BoardData::Here(content) => Value::Text(content),
        BoardData::Absent => Value::Nil,
    };
    let sets = answer_sets(inv, board, answer)?;
    Ok(step(inv, 3, sets, inv.handler, Writes::new(alloc)))
}

/// Looks for the data on this pasteboard.
fn looks_on(board: &Board, inv: &Invocation) -> Result<Change, AllocError>
    ensures { IfOk result (λ change. Means inv.now change (or_fault (looks_on inv.now board.now))) }
{
    match local_text(inv, 0) {
        Some(kind) => look_next(inv, board, board.data_for(kind)?),
        None => Ok(Change::type_fault()),
    }
}

/// Looks for the data.
fn looks(inv: &Invocation, slots: &Values) -> Result<Change, AllocError>
    ensures { IfOk result (λ change. Means inv.now change (or_fault (looks inv.now slots.now))) }
{
    match Board::from_slots(slots)? {
        Some(board) => looks_on(&board, inv),
        None => Ok(Change::type_fault()),
    }
}

/// Asks the owner.
fn asks(inv: &Invocation) -> Result<Change, AllocError>
    ensures { IfOk result (λ change. Means inv.now change (or_fault (asks inv.now))) }
{
    let Some(kind) = inv.copy_local(0)? else {
        return Ok(Change::type_fault());
    };
    let mut args = Values::with_capacity(inv.locals.allocator(), 2)?;
    args.push(Value::Obj(inv.object))?;
    args.push(kind)?;
    send(inv, 1, b"pasteboard:provideDataForType:", args, 2)
}

/// The data, if it is there and the change count is still this one.
fn found_now(board: &Board, kind: &Text, count: i64) -> Result<Value, AllocError>
    ensures { IfOk result (λ value. value ≡ found_now board.now kind.now count) }
{
    if count != board.change_count() {
        return Ok(Value::Nil);
    }
    match board.data_for(kind)? {
        BoardData::Here(content) => Ok(Value::Text(content)),
        _ => Ok(Value::Nil),
    }
}

/// Looks again on this pasteboard, once the owner was asked.
fn looks_again_on(board: &Board, inv: &Invocation) -> Result<Change, AllocError>
    ensures { IfOk result (λ change.
        Means inv.now change (or_fault (looks_again_on inv.now board.now))) }
{
    let Some(kind) = local_text(inv, 0) else {
        return Ok(Change::type_fault());
    };
    let Some(count) = local_number(inv, 2) else {
        return Ok(Change::type_fault());
    };
    let alloc = inv.locals.allocator();
    let sets = one_set(alloc, ANSWER, found_now(board, kind, count)?)?;
    Ok(step(inv, 3, sets, inv.handler, Writes::new(alloc)))
}

/// Looks again, once the owner was asked.
fn looks_again(inv: &Invocation, slots: &Values) -> Result<Change, AllocError>
    ensures { IfOk result (λ change.
        Means inv.now change (or_fault (looks_again inv.now slots.now))) }
{
    match Board::from_slots(slots)? {
        Some(board) => looks_again_on(&board, inv),
        None => Ok(Change::type_fault()),
    }
}

/// The act of `dataForType:` at its place.
pub(crate) fn data_act(inv: &Invocation, slots: &Values) -> Result<Change, AllocError>
    ensures { IfOk result (λ change. Means inv.now change
        (or_fault (at_place inv.now (data_places inv.now slots.now)))) }
{
    match inv.pc {
        0 => looks(inv, slots),
        1 => asks(inv),
        2 => looks_again(inv, slots),
        3 => answer(inv),
        _ => Ok(Change::type_fault()),
    }
}
