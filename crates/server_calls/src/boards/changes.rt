//! Calls that change a pasteboard.
ghost use Rattle.std.specs.Prelude.{IfOk, IsTrue};
ghost use Rattle.do_native_acts.specs.Types.{are_types};

use call_rows::{
    count_at, digits, list_at, no_call, number_at, object_at, object_or_nil, pair_value, refused,
    text_at, texts_at, value_at,
};
use do_base::{Oid, Texts, Value, Values};
use do_grammar::is_text;
use do_native_acts::{are_types, as_number, owner_in};
use do_pboard::{Board, Call};
use std::alloc::Global;
use std::test::Fail;

/// The texts at a place, where they can be types.
fn types_at(args: &Values, at: usize) -> Result<Texts, Fail>
    ensures { IfOk result (λ types. IsTrue (are_types types)) }
{
    let types = texts_at(args, at)?;
    if are_types(&types) {
        Ok(types)
    } else {
        Err(Fail::from("no types"))
    }
}

/// The owner at a place, which may be nil.
fn owner_at(args: &Values, at: usize) -> Result<Option<Oid>, Fail> {
    Ok(owner_in(value_at(args, at)?).ok_or("no owner")?)
}

/// A change count and who was the owner before, as a list.
fn declared_value(alloc: Global, count: i64, former: Option<Oid>) -> Result<Value, Fail> {
    let former = object_or_nil(former);
    pair_value(alloc, Value::Num(count), former)
}

/// Declares types, and answers the change count and who was the owner before.
pub(crate) fn declare(alloc: Global, board: &mut Board, args: &Values) -> Result<Value, Fail> {
    let owner = owner_at(args, 1)?;
    if !board.can_declare() {
        return Err(Fail::from("the last change count"));
    }
    let types = types_at(args, 0)?;
    let (count, former) = board.declare(types, owner)?;
    declared_value(alloc, count, former)
}

/// Adds types, and answers the change count.
pub(crate) fn add_types(alloc: Global, board: &mut Board, args: &Values) -> Result<Value, Fail> {
    let owner = owner_at(args, 1)?;
    let types = types_at(args, 0)?;
    match board.add_types(types, owner) {
        Ok(count) => Ok(Value::Num(count)),
        Err(fault) => refused(alloc, fault),
    }
}

/// Keeps data of a type at a change count, and tells whether it did.
pub(crate) fn set_data(board: &mut Board, args: &Values) -> Result<Value, Fail> {
    let count = number_at(args, 2)?;
    let content = text_at(args, 0)?.clone()?;
    Ok(as_number(board.set_data(content, text_at(args, 1)?, count)))
}

/// Keeps a pasteboard under a name, and answers which one is kept there.
pub(crate) fn keep(alloc: Global, board: &mut Board, args: &Values) -> Result<Value, Fail> {
    let object = object_at(args, 1)?;
    let name = text_at(args, 0)?.clone()?;
    match board.keep(name, object) {
        Ok(kept) => Ok(Value::Obj(kept)),
        Err(fault) => refused(alloc, fault),
    }
}

/// Keeps an object under as many names, and tells under how many it is kept.
pub(crate) fn fill(alloc: Global, board: &mut Board, args: &Values) -> Result<Value, Fail> {
    let count = count_at(args, 0)?;
    let object = object_at(args, 1)?;
    let mut kept: i64 = 0;
    for number in 0..count {
        let name = digits(alloc, u64::from(number))?;
        if board.keep(name, object)? == object {
            kept = kept.saturating_add(1);
        }
    }
    Ok(Value::Num(kept))
}

/// Makes a call that is one value.
pub(crate) fn perform(board: &mut Board, args: &Values) -> Result<Value, Fail> {
    let word = text_at(args, 0)?.as_slice();
    if is_text(word, b"count") {
        return Ok(board.perform(Call::ChangeCount)?);
    }
    if is_text(word, b"types") {
        return Ok(board.perform(Call::Types)?);
    }
    if is_text(word, b"available") {
        let types = texts_at(args, 1)?;
        return Ok(board.perform(Call::Available { types })?);
    }
    no_call()
}

/// Takes the core whose slots these are, and tells whether there is one.
pub(crate) fn read(board: &mut Board, args: &Values) -> Result<Value, Fail> {
    let Some(core) = Board::from_slots(list_at(args, 0)?)? else {
        return Ok(as_number(false));
    };
    *board = core;
    Ok(as_number(true))
}
