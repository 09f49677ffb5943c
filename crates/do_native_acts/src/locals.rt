//! What a method reads of its locals, and the value that answers a question.
ghost use Rattle.std.specs.{Prelude.◌≡◌, Option.option_copied};
ghost use Rattle.do_base.specs.declared.values.value.Value.TheVariants.{Num};
ghost use Rattle.do_base.specs.values.Kinds.{number, text};
ghost use Rattle.do_behave.specs.{Numbers.truth, Steps.local};
ghost use Rattle.do_native_acts.specs.Owners.{owner_in};
ghost use Rattle.do_grammar.specs.Words.{◌>>?◌};

use do_base::{Oid, Text, Value};
use do_behave::Invocation;

/// The text that a local holds; none where it holds another value, or there is no such local.
pub fn local_text(inv: &Invocation, k: u8) -> Option<&Text>
    ensures { option_copied result ≡ (local inv.now k >>? text) }
{
    inv.local(k)?.text()
}

/// The number that a local holds; none where it holds another value, or there is no such local.
pub fn local_number(inv: &Invocation, k: u8) -> Option<i64>
    ensures { result ≡ (local inv.now k >>? number) }
{
    inv.local(k)?.number()
}

/// The owner that a value names: nil for none.
pub fn owner_in(value: &Value) -> Option<Option<Oid>>
    ensures { result ≡ owner_in value.now }
{
    match value {
        Value::Nil => Some(None),
        Value::Obj(owner) => Some(Some(*owner)),
        _ => None,
    }
}

/// The owner that a local names, which may be nil; none where it holds another value, or there is
/// no such local.
pub fn local_owner(inv: &Invocation, k: u8) -> Option<Option<Oid>>
    ensures { result ≡ (local inv.now k >>? owner_in) }
{
    owner_in(inv.local(k)?)
}

/// Yes or no as a number: 1 for yes, 0 for no.
pub fn as_number(is: bool) -> Value
    ensures { result ≡ Num (truth is) }
{
    Value::Num(if is { 1 } else { 0 })
}
