ghost use Rattle.std.specs.Prelude.{◌≡◌, IfOk};
ghost use Rattle.do_behave.specs.{Changes.Means, Steps.or_fault};
ghost use Rattle.do_native_acts.specs.Places.{aside, returns, sends};

use do_base::{Locals, Text, Values};
use do_behave::{Act, Change, Invocation};
use std::alloc::AllocError;

/// The local in which a method keeps its answer.
pub(crate) const ANSWER: u8 = 14;

/// The local that takes what a nested message gives.
const ASIDE: u8 = 13;

/// Ends with the answer that an earlier step left in local 14. Where there is no such local, it is
/// a fault of type.
pub fn answer(inv: &Invocation) -> Result<Change, AllocError>
    ensures { IfOk result (λ change. Means inv.now change (or_fault (returns inv.now))) }
{
    match inv.copy_local(ANSWER)? {
        Some(value) => Ok(Change::Other(Act::Return { value })),
        None => Ok(Change::type_fault()),
    }
}

/// The local of each of these arguments: local 13, so that no other changes when values come out.
fn aside(inv: &Invocation, args: &Values) -> Result<Locals, AllocError>
    ensures { IfOk result (λ from. from ≡ aside args.now) }
{
    let mut from = Locals::with_capacity(inv.locals.allocator(), args.len())?;
    for _ in args.as_slice() {
        from.push(ASIDE)?;
    }
    Ok(from)
}

/// Sends a message to what a local holds, and goes on at place `to`. Where there is no such local,
/// it is a fault of type.
///
/// The result and the values of arguments that come out go to local 13.
pub fn send(
    inv: &Invocation,
    target: u8,
    selector: &[u8],
    args: Values,
    to: u32,
) -> Result<Change, AllocError>
    ensures { IfOk result (λ change.
        Means inv.now change (or_fault (sends inv.now target selector.now args to))) }
{
    let Some(target) = inv.copy_local(target)? else {
        return Ok(Change::type_fault());
    };
    let from = aside(inv, &args)?;
    let selector = Text::from_slice(inv.locals.allocator(), selector)?;
    Ok(Change::Other(Act::Send {
        target,
        selector,
        args,
        into: ASIDE,
        from,
        pc: to,
    }))
}
