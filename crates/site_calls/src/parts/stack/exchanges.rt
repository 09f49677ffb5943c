//! What a change of the top of a stack took out of the locals, and what is left to do, as values.

use call_rows::{count_value, pair_value, text_value, word_with, word_with_two};
use do_base::{Value, Values, copy_value};
use do_behave::{Act, Frame, Writes};
use do_stack::{Exchanged, Left, Taken};
use std::alloc::Global;
use std::test::Fail;

/// What the first of the locals holds.
fn first_value(locals: &Frame) -> Result<Value, Fail> {
    let first = locals.get(0).ok_or("no local")?;
    Ok(copy_value(first.value())?)
}

/// How many locals there are, and what the first holds.
fn locals_value(alloc: Global, locals: &Frame) -> Result<Value, Fail> {
    let count = count_value(locals.len())?;
    let first = first_value(locals)?;
    word_with_two(alloc, b"all", count, first)
}

/// What was taken out of the locals.
fn taken_value(alloc: Global, taken: Taken) -> Result<Value, Fail> {
    match taken {
        Taken::Nothing => text_value(alloc, b"nothing"),
        Taken::One(value) => word_with(alloc, b"one", value),
        Taken::Many(values) => word_with(alloc, b"many", Value::List(values)),
        Taken::All(locals) => locals_value(alloc, &locals),
    }
}

/// A slot and what is to be written to it.
fn slot_value(alloc: Global, slot: usize, value: Value) -> Result<Value, Fail> {
    let slot = count_value(slot)?;
    word_with_two(alloc, b"slot", slot, value)
}

/// Adds each slot, and what is to be written to it.
fn push_writes(values: &mut Values, writes: &Writes) -> Result<(), Fail> {
    for write in writes.as_slice() {
        values.push(count_value(write.slot)?)?;
        values.push(copy_value(&write.value)?)?;
    }
    Ok(())
}

/// Each slot, and what is to be written to it.
fn writes_value(alloc: Global, writes: &Writes) -> Result<Value, Fail> {
    let word = text_value(alloc, b"slots")?;
    let mut values = Values::from_vec(vec![in alloc; word]?);
    push_writes(&mut values, writes)?;
    Ok(Value::List(values))
}

/// An act that is no step.
fn act_value(alloc: Global, act: Act) -> Result<Value, Fail> {
    match act {
        Act::Return { value } => word_with(alloc, b"return", value),
        Act::Say { value, pc: _ } => word_with(alloc, b"say", value),
        _ => text_value(alloc, b"another act"),
    }
}

/// What is left to do, or nil.
fn left_value(alloc: Global, left: Left) -> Result<Value, Fail> {
    match left {
        Left::Nothing => Ok(Value::Nil),
        Left::Slot { slot, value } => slot_value(alloc, slot, value),
        Left::Slots(writes) => writes_value(alloc, &writes),
        Left::Other(act) => act_value(alloc, act),
    }
}

/// What a change took out, and what is left to do, or nil where none was made.
pub(crate) fn exchanged_or_nil(alloc: Global, done: Option<Exchanged>) -> Result<Value, Fail> {
    let Some(Exchanged { taken, left }) = done else {
        return Ok(Value::Nil);
    };
    let taken = taken_value(alloc, taken)?;
    let left = left_value(alloc, left)?;
    pair_value(alloc, taken, left)
}
