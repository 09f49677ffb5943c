//! The method `guard:`, which sets the target of a checker, once.
ghost use Rattle.std.specs.Prelude.{◌≡◌, IfOk};
ghost use Rattle.do_base.specs.values.Kinds.{object};
ghost use Rattle.do_grammar.specs.Words.{◌>>?◌};
ghost use Rattle.do_behave.specs.{Changes.Means, Steps.{local, or_fault}};
ghost use Rattle.do_check.specs.Acts.{guards, keeps_target, sets_target};

use do_base::{Exc, Oid, Text, Value, Values};
use do_behave::{Act, Change, Invocation, LocalSets, Write, Writes};
use do_native_acts::step;
use std::alloc::AllocError;

/// The object that the first argument names; none where it is no object.
fn new_target(inv: &Invocation) -> Option<Oid>
    ensures { result ≡ (local inv.now 0 >>? object) }
{
    inv.local(0)?.object()
}

/// Writes the new target into the slot of a checker without one.
fn set_target(inv: &Invocation) -> Result<Change, AllocError>
    ensures { IfOk result (λ change. Means inv.now change (or_fault (sets_target inv.now))) }
{
    let Some(target) = new_target(inv) else {
        return Ok(Change::type_fault());
    };
    let alloc = inv.locals.allocator();
    let mut writes = Writes::with_capacity(alloc, 1)?;
    let value = Value::Obj(target);
    writes.push(Write { slot: 0, value })?;
    Ok(step(inv, 1, LocalSets::new(alloc), inv.handler, writes))
}

/// Sets the target where there is none. Raises `guarded` where there is one.
fn keep_target(inv: &Invocation, slots: &Values) -> Result<Change, AllocError>
    ensures { IfOk result (λ change.
        Means inv.now change (or_fault (keeps_target inv.now slots.now))) }
{
    let [target] = slots.as_slice() else {
        return Ok(Change::type_fault());
    };
    if target.is_nil() {
        return set_target(inv);
    }
    let text = Text::from_slice(inv.locals.allocator(), b"guarded")?;
    Ok(Change::Other(Act::Raise(Exc::User(text))))
}

/// The act of `guard:`: the target is set at place 0, and nil is returned at place 1.
pub(crate) fn guard(inv: &Invocation, slots: &Values) -> Result<Change, AllocError>
    ensures { IfOk result (λ change. Means inv.now change (or_fault (guards inv.now slots.now))) }
{
    match inv.pc {
        0 => keep_target(inv, slots),
        1 => Ok(Change::Other(Act::Return { value: Value::Nil })),
        _ => Ok(Change::type_fault()),
    }
}
