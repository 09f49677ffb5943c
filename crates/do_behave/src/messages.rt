//! Instructions that make an object, send, ask, offer, show or end.
ghost use Rattle.std.specs.Prelude.{◌≡◌, ◌<◌, ◌+◌, ◌^◌, Some, IfOk};
ghost use Rattle.do_class.specs.Table.{class_id};
ghost use Rattle.do_grammar.specs.Words.{◌>>?◌};
ghost use Rattle.do_behave.specs.{Steps.{local, local_values, next, or_fault}, Changes.Means};
ghost use Rattle.do_behave.specs.Script.{raises, asks_root, sends};

use crate::act::Act;
use crate::change::Change;
use crate::invocation::Invocation;
use crate::moving::{append_copy, copied};
use do_base::{Exc, Locals, Text, Value, Values};
use do_class::ClassId;
use std::alloc::AllocError;

/// Makes an object.
pub(crate) fn make(inv: &Invocation, into: u8, class: usize) -> Change
    requires room { inv.now.pc + 1 < 2 ^ 32 }
    requires class { class < 256 }
    ensures { Means inv.now result (Act.New (class_id class) into (next inv.now)) }
{
    let class = ClassId(class as u32);
    let pc = inv.pc + 1;
    Change::Other(Act::New { class, into, pc })
}

/// What these locals hold; none where one of them is not there.
#[tactic(auto, using(crate::proofs::LocalValues::local_steps))]
fn values_of(inv: &Invocation, from: &Locals) -> Result<Option<Values>, AllocError>
    ensures { IfOk result (λ vs. vs ≡ local_values inv.now from.now) }
{
    let mut values = Values::with_capacity(inv.locals.allocator(), from.len())?;
    for k in from.as_slice() {
        let Some(value) = inv.local(*k) else {
            return Ok(None);
        };
        append_copy(&mut values, value)?;
    }
    Ok(Some(values))
}

/// Sends a message.
pub(crate) fn send(
    inv: &Invocation,
    into: u8,
    target: u8,
    selector: &Text,
    from: &Locals,
) -> Result<Change, AllocError>
    requires room { inv.now.pc + 1 < 2 ^ 32 }
    ensures { IfOk result (λ change. Means inv.now change
        (or_fault (sends inv.now into target selector.now from.now))) }
{
    let Some(target) = inv.local(target) else {
        return Ok(Change::type_fault());
    };
    let Some(args) = values_of(inv, from)? else {
        return Ok(Change::type_fault());
    };
    Ok(Change::Other(Act::Send {
        target: copied(target)?,
        selector: selector.clone()?,
        args,
        into,
        from: from.clone()?,
        pc: inv.pc + 1,
    }))
}

/// Asks for the root of the node whose port is the number in a local.
pub(crate) fn root(inv: &Invocation, into: u8, port: u8) -> Change
    requires room { inv.now.pc + 1 < 2 ^ 32 }
    ensures { Means inv.now result (or_fault (asks_root inv.now into port)) }
{
    match inv.local(port) {
        Some(Value::Num(number)) => Change::Other(Act::Root {
            port: Value::Num(*number),
            into,
            pc: inv.pc + 1,
        }),
        _ => Change::type_fault(),
    }
}

/// Makes what a local holds the root of the own node.
pub(crate) fn vend(inv: &Invocation, value: u8) -> Result<Change, AllocError>
    requires room { inv.now.pc + 1 < 2 ^ 32 }
    ensures { IfOk result (λ change. Means inv.now change
        (or_fault (local inv.now value >>? λ v. Some (Act.Vend v (next inv.now))))) }
{
    let Some(value) = inv.copy_local(value)? else {
        return Ok(Change::type_fault());
    };
    let pc = inv.pc + 1;
    Ok(Change::Other(Act::Vend { value, pc }))
}

/// Shows what a local holds.
pub(crate) fn say(inv: &Invocation, value: u8) -> Result<Change, AllocError>
    requires room { inv.now.pc + 1 < 2 ^ 32 }
    ensures { IfOk result (λ change. Means inv.now change
        (or_fault (local inv.now value >>? λ v. Some (Act.Say v (next inv.now))))) }
{
    let Some(value) = inv.copy_local(value)? else {
        return Ok(Change::type_fault());
    };
    let pc = inv.pc + 1;
    Ok(Change::Other(Act::Say { value, pc }))
}

/// Ends with what a local holds.
pub(crate) fn give_back(inv: &Invocation, value: u8) -> Result<Change, AllocError>
    ensures { IfOk result (λ change. Means inv.now change
        (or_fault (local inv.now value >>? λ v. Some (Act.Return v)))) }
{
    match inv.copy_local(value)? {
        Some(value) => Ok(Change::Other(Act::Return { value })),
        None => Ok(Change::type_fault()),
    }
}

/// Raises the text in a local.
pub(crate) fn raise(inv: &Invocation, value: u8) -> Result<Change, AllocError>
    ensures { IfOk result (λ change. Means inv.now change (or_fault (raises inv.now value))) }
{
    match inv.local(value) {
        Some(Value::Text(text)) => Ok(Change::Other(Act::Raise(Exc::User(text.clone()?)))),
        _ => Ok(Change::type_fault()),
    }
}
