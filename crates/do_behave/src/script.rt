//! The act of each instruction.
ghost use Rattle.std.specs.Prelude.{◌≡◌, ◌<◌, ◌+◌, ◌^◌, [], length, Some, IfOk};
ghost use Rattle.std.specs.Option.{option_copied};
ghost use Rattle.do_grammar.specs.Words.{◌>>?◌};
ghost use Rattle.do_script.specs.Listing.{IsWithin};
ghost use Rattle.do_behave.specs.{Steps.{local, gives, writes, handles, or_fault}, Changes.Means};
ghost use Rattle.do_behave.specs.Script.{performs, compares, goes_if_zero};

use crate::change::Change;
use crate::invocation::{Handler, Invocation};
use crate::lists::{count, item, push};
use crate::messages::{give_back, make, raise, root, say, send, vend};
use crate::moving::copied;
use crate::numbers::{add, is_zero, less, multiply, subtract, truth};
use crate::steps::{gives, goes_to, handles, writes};
use do_base::{Value, Values};
use do_script::Instruction;
use std::alloc::AllocError;

/// Gives 1 where two locals hold the same value, else 0.
fn same(inv: &Invocation, into: u8, left: u8, right: u8) -> Change
    requires room { inv.now.pc + 1 < 2 ^ 32 }
    ensures { Means inv.now result (or_fault (compares inv.now into left right)) }
{
    match (inv.local(left), inv.local(right)) {
        (Some(x), Some(y)) => gives(inv, into, Value::Num(truth(x == y))),
        _ => Change::type_fault(),
    }
}

/// Goes on at a place where a local holds nil or 0.
fn if_not(inv: &Invocation, test: u8, to: usize) -> Change
    requires room { inv.now.pc + 1 < 2 ^ 32 }
    requires place { to < 2 ^ 32 }
    ensures { Means inv.now result (or_fault (goes_if_zero inv.now test to)) }
{
    match inv.local(test) {
        Some(value) if is_zero(value) => goes_to(inv, to),
        Some(_) => goes_to(inv, inv.pc as usize + 1),
        None => Change::type_fault(),
    }
}

/// Has a handler, and goes on.
fn catch(inv: &Invocation, into: u8, to: usize) -> Change
    requires room { inv.now.pc + 1 < 2 ^ 32 }
    requires place { to < 2 ^ 32 }
    ensures { Means inv.now result (handles inv.now (Some (record { into = into; pc = to }))) }
{
    let pc = to as u32;
    handles(inv, Some(Handler { into, pc }))
}

/// A list with no item.
fn empty(slots: &Values) -> Values
    ensures { result ≡ [] }
{
    Values::new(slots.allocator())
}

/// Gives a copy of a value, where there is one.
fn gives_copy(inv: &Invocation, into: u8, from: Option<&Value>) -> Result<Change, AllocError>
    requires room { inv.now.pc + 1 < 2 ^ 32 }
    ensures { IfOk result (λ change. Means inv.now change
        (or_fault (option_copied from.entry >>? λ v. Some (gives inv.now into v)))) }
{
    match from {
        Some(value) => Ok(gives(inv, into, copied(value)?)),
        None => Ok(Change::type_fault()),
    }
}

/// Sets a slot to what a local holds.
fn set(inv: &Invocation, slot: usize, from: u8) -> Result<Change, AllocError>
    requires room { inv.now.pc + 1 < 2 ^ 32 }
    ensures { IfOk result (λ change. Means inv.now change
        (or_fault (local inv.now from >>? λ v. Some (writes inv.now slot v)))) }
{
    match inv.copy_local(from)? {
        Some(value) => Ok(writes(inv, slot, value)),
        None => Ok(Change::type_fault()),
    }
}

/// The act of an instruction.
pub(crate) fn perform(
    inv: &Invocation,
    slots: &Values,
    instruction: &Instruction,
) -> Result<Change, AllocError>
    requires within { IsWithin (length slots.now) 256 4096 instruction.now }
    requires room { inv.now.pc + 1 < 2 ^ 32 }
    ensures { IfOk result (λ change.
        Means inv.now change (or_fault (performs inv.now slots.now instruction.now))) }
{
    match instruction {
        Instruction::Nil { into } => Ok(gives(inv, *into, Value::Nil)),
        Instruction::Number { into, number } => Ok(gives(inv, *into, Value::Num(*number))),
        Instruction::Text { into, text } => Ok(gives(inv, *into, Value::Text(text.clone()?))),
        Instruction::Own { into } => Ok(gives(inv, *into, Value::Obj(inv.object))),
        Instruction::Move { into, from } => gives_copy(inv, *into, inv.local(*from)),
        Instruction::Get { into, slot } => gives_copy(inv, *into, slots.get(*slot)),
        Instruction::Set { slot, from } => set(inv, *slot, *from),
        Instruction::Add { into, left, right } => Ok(add(inv, *into, *left, *right)),
        Instruction::Subtract { into, left, right } => Ok(subtract(inv, *into, *left, *right)),
        Instruction::Multiply { into, left, right } => Ok(multiply(inv, *into, *left, *right)),
        Instruction::Less { into, left, right } => Ok(less(inv, *into, *left, *right)),
        Instruction::Same { into, left, right } => Ok(same(inv, *into, *left, *right)),
        Instruction::Jump { to } => Ok(goes_to(inv, *to)),
        Instruction::IfNot { test, to } => Ok(if_not(inv, *test, *to)),
        Instruction::List { into } => Ok(gives(inv, *into, Value::List(empty(slots)))),
        Instruction::Push { list, item } => push(inv, *list, *item),
        Instruction::Item { into, list, index } => item(inv, *into, *list, *index),
        Instruction::Count { into, of } => Ok(count(inv, *into, *of)),
        Instruction::New { into, class } => Ok(make(inv, *into, *class)),
        Instruction::Send {
            into,
            target,
            selector,
            from,
        } => send(inv, *into, *target, selector, from),
        Instruction::Root { into, port } => Ok(root(inv, *into, *port)),
        Instruction::Vend { value } => vend(inv, *value),
        Instruction::Say { value } => say(inv, *value),
        Instruction::Return { value } => give_back(inv, *value),
        Instruction::Raise { value } => raise(inv, *value),
        Instruction::Catch { into, to } => Ok(catch(inv, *into, *to)),
        Instruction::EndCatch => Ok(handles(inv, None)),
    }
}
