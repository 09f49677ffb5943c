//! A message that is passed on to the target.
ghost use Rattle.std.specs.Prelude.{◌≡◌, ◌≤◌, ◌++◌, ◌∷◌, [], IfOk, OnOk, OnErr, IsTrue};
ghost use Rattle.do_grammar.specs.Names.{colons, is_selector};
ghost use Rattle.do_behave.specs.{Changes.Means, Steps.{local_values, or_fault}};
ghost use Rattle.do_check.specs.Acts.{firsts, forwards, passes_on};

use do_base::{Locals, Text, Value, Values, copy_value};
use do_behave::{Act, Change, Invocation};
use do_grammar::colons_in;
use do_native_acts::answer;
use std::alloc::{AllocError, Global};

/// How many colons a selector has: one for each argument.
fn count_colons(selector: &Text) -> usize
    ensures { result ≡ colons selector.now }
{
    colons_in(selector.as_slice())
}

/// The first `count` locals, which hold the arguments.
fn first_locals(alloc: Global, count: usize) -> Result<Locals, AllocError>
    requires { count ≤ 8 }
    ensures { IfOk result (λ from. from ≡ firsts count) }
{
    let mut from = Locals::with_capacity(alloc, count)?;
    for k in 0..count {
        from.push(k as u8)?;
    }
    Ok(from)
}

/// Appends a copy of a value. If memory runs out, the list is unchanged.
fn append_copy(values: &mut Values, value: &Value) -> Result<(), AllocError>
    ensures ok { OnOk result (values.new ≡ values.old ++ value.now ∷ []) }
    ensures err { OnErr result (values.new ≡ values.old) }
{
    values.push(copy_value(value)?)
}

/// What these locals hold; none where one of them is not there.
#[tactic(auto, using(do_behave::proofs::LocalValues::local_steps))]
fn values_of(inv: &Invocation, from: &Locals) -> Result<Option<Values>, AllocError>
    ensures { IfOk result (λ values. values ≡ local_values inv.now from.now) }
{
    let mut values = Values::with_capacity(inv.locals.allocator(), from.len())?;
    for k in from.as_slice() {
        let Some(value) = inv.local(*k) else {
            return Ok(None);
        };
        append_copy(&mut values, value)?;
    }
    Ok(Some(values))
}

/// Sends the message to the target: its result goes to local 14, and what comes out of an argument
/// to the argument's own local.
fn pass_on(inv: &Invocation, slots: &Values, selector: &Text) -> Result<Change, AllocError>
    requires { IsTrue (is_selector selector.now) }
    ensures { IfOk result (λ change.
        Means inv.now change (or_fault (passes_on inv.now slots.now selector.now))) }
{
    let [target] = slots.as_slice() else {
        return Ok(Change::type_fault());
    };
    let from = first_locals(inv.locals.allocator(), count_colons(selector))?;
    let Some(args) = values_of(inv, &from)? else {
        return Ok(Change::type_fault());
    };
    Ok(Change::Other(Act::Send {
        target: copy_value(target)?,
        selector: selector.clone()?,
        args,
        into: 14,
        from,
        pc: 1,
    }))
}

/// The act of a method that is allowed: the message is passed on at place 0, and its result is
/// returned at place 1.
pub(crate) fn forward(
    inv: &Invocation,
    slots: &Values,
    selector: &Text,
) -> Result<Change, AllocError>
    requires { IsTrue (is_selector selector.now) }
    ensures { IfOk result (λ change.
        Means inv.now change (or_fault (forwards inv.now slots.now selector.now))) }
{
    match inv.pc {
        0 => pass_on(inv, slots, selector),
        1 => answer(inv),
        _ => Ok(Change::type_fault()),
    }
}
