//! What an act changed, as lists.

use call_rows::{copy_at, count_at, count_value, local_at, word_alone, word_with_two};
use do_base::{Value, Values, copy_value};
use do_behave::{Frame, Handler, Invocation, LocalSet, LocalSets, Write, Writes};
use std::alloc::{AllocError, Global};
use std::test::Fail;

/// A word, a place and the value there.
fn placed(alloc: Global, word: &[u8], at: usize, value: &Value) -> Result<Value, Fail> {
    let at = count_value(at)?;
    let value = copy_value(value)?;
    word_with_two(alloc, word, at, value)
}

/// Adds the values that are others than before, each with a word and its place.
fn add_changed(
    changed: &mut Values,
    word: &[u8],
    before: &Values,
    after: &Values,
) -> Result<(), Fail> {
    let alloc = changed.allocator();
    for at in 0..after.len() {
        let value = &after.as_slice()[at];
        if before.get(at) != Some(value) {
            changed.push(placed(alloc, word, at, value)?)?;
        }
    }
    Ok(())
}

/// Adds the slots that are others than before.
pub(crate) fn add_slots(changed: &mut Values, before: &Values, after: &Values) -> Result<(), Fail> {
    add_changed(changed, b"slot", before, after)
}

/// Adds the values of locals.
fn push_values(values: &mut Values, locals: &Frame) -> Result<(), AllocError> {
    for held in locals.as_slice() {
        values.push(copy_value(held.value())?)?;
    }
    Ok(())
}

/// The values of the locals.
pub(crate) fn values_of(inv: &Invocation) -> Result<Values, AllocError> {
    let mut values = Values::new(inv.locals.allocator());
    push_values(&mut values, &inv.locals)?;
    Ok(values)
}

/// Adds the locals that are others than before.
pub(crate) fn add_locals(
    changed: &mut Values,
    before: &Values,
    after: &Invocation,
) -> Result<(), Fail> {
    add_changed(changed, b"local", before, &values_of(after)?)
}

/// A handler as a word, its local and its place, or the word alone for none.
fn handler_words(alloc: Global, handler: Option<Handler>) -> Result<Value, Fail> {
    let Some(handler) = handler else {
        return word_alone(alloc, b"handler");
    };
    let (into, pc) = (i64::from(handler.into), i64::from(handler.pc));
    word_with_two(alloc, b"handler", Value::Num(into), Value::Num(pc))
}

/// Adds the handler, if it is another one than before: its local and its place, or neither for
/// none.
pub(crate) fn add_handler(
    changed: &mut Values,
    before: Option<Handler>,
    after: Option<Handler>,
) -> Result<(), Fail> {
    if before == after {
        return Ok(());
    }
    let words = handler_words(changed.allocator(), after)?;
    Ok(changed.push(words)?)
}

/// Adds the locals to be set that a list of pairs names.
fn push_sets(sets: &mut LocalSets, pairs: &Values) -> Result<(), Fail> {
    for pair in pairs.as_slice() {
        let pair = pair.items().ok_or("no pair")?;
        let local = local_at(pair, 0)?;
        let value = copy_at(pair, 1)?;
        sets.push(LocalSet { local, value })?;
    }
    Ok(())
}

/// The locals to be set that a list of pairs names.
pub(crate) fn sets_of(pairs: &Values) -> Result<LocalSets, Fail> {
    let mut sets = LocalSets::new(pairs.allocator());
    push_sets(&mut sets, pairs)?;
    Ok(sets)
}

/// Adds the slots to be written that a list of pairs names.
fn push_writes(writes: &mut Writes, pairs: &Values) -> Result<(), Fail> {
    for pair in pairs.as_slice() {
        let pair = pair.items().ok_or("no pair")?;
        let slot = usize::from(count_at(pair, 0)?);
        let value = copy_at(pair, 1)?;
        writes.push(Write { slot, value })?;
    }
    Ok(())
}

/// The slots to be written that a list of pairs names.
pub(crate) fn writes_of(pairs: &Values) -> Result<Writes, Fail> {
    let mut writes = Writes::new(pairs.allocator());
    push_writes(&mut writes, pairs)?;
    Ok(writes)
}
