ghost use Rattle.std.specs.Prelude.{◌≡◌, ◌<◌, ◌+◌, ◌^◌, ◌+ℤ◌, ◌-ℤ◌, ◌*ℤ◌};
ghost use Rattle.do_base.specs.values.Kinds.{counted};
ghost use Rattle.do_grammar.specs.Words.{◌>>?◌};
ghost use Rattle.do_behave.specs.{Steps.{local, or_fault}, Changes.Means};
ghost use Rattle.do_behave.specs.Numbers.{is_zero, calculates, checked, gives_number, less, truth};

use crate::act::Act;
use crate::change::Change;
use crate::invocation::Invocation;
use crate::steps::gives;
use do_base::{Exc, Value};

/// Whether a value is nil or 0.
pub(crate) fn is_zero(value: &Value) -> bool
    ensures { result ≡ is_zero value.now }
{
    match value {
        Value::Nil => true,
        Value::Num(number) => *number == 0,
        _ => false,
    }
}

/// 1 for what holds, else 0.
pub(crate) fn truth(holds: bool) -> i64
    ensures { result ≡ truth holds }
{
    if holds { 1 } else { 0 }
}

/// Gives a number, or raises Range where there is none.
fn gives_number(inv: &Invocation, into: u8, number: Option<i64>) -> Change
    requires room { inv.now.pc + 1 < 2 ^ 32 }
    ensures { Means inv.now result (gives_number inv.now into number) }
{
    match number {
        Some(number) => gives(inv, into, Value::Num(number)),
        None => Change::Other(Act::Raise(Exc::Range)),
    }
}

/// The number that a local counts as, where nil counts as 0.
fn counted(inv: &Invocation, k: u8) -> Option<i64>
    ensures { result ≡ (local inv.now k >>? counted) }
{
    inv.local(k)?.counted()
}

/// Gives the sum of two locals.
pub(crate) fn add(inv: &Invocation, into: u8, left: u8, right: u8) -> Change
    requires room { inv.now.pc + 1 < 2 ^ 32 }
    ensures { Means inv.now result
        (or_fault (calculates (λ x y. checked (x +ℤ y)) inv.now into left right)) }
{
    match (counted(inv, left), counted(inv, right)) {
        (Some(x), Some(y)) => gives_number(inv, into, sum(x, y)),
        _ => Change::type_fault(),
    }
}

/// Gives the difference of two locals.
pub(crate) fn subtract(inv: &Invocation, into: u8, left: u8, right: u8) -> Change
    requires room { inv.now.pc + 1 < 2 ^ 32 }
    ensures { Means inv.now result
        (or_fault (calculates (λ x y. checked (x -ℤ y)) inv.now into left right)) }
{
    match (counted(inv, left), counted(inv, right)) {
        (Some(x), Some(y)) => gives_number(inv, into, difference(x, y)),
        _ => Change::type_fault(),
    }
}

/// Gives the product of two locals.
pub(crate) fn multiply(inv: &Invocation, into: u8, left: u8, right: u8) -> Change
    requires room { inv.now.pc + 1 < 2 ^ 32 }
    ensures { Means inv.now result
        (or_fault (calculates (λ x y. checked (x *ℤ y)) inv.now into left right)) }
{
    match (counted(inv, left), counted(inv, right)) {
        (Some(x), Some(y)) => gives_number(inv, into, product(x, y)),
        _ => Change::type_fault(),
    }
}

/// Gives 1 where the first of two locals is below the second, else 0.
pub(crate) fn less(inv: &Invocation, into: u8, left: u8, right: u8) -> Change
    requires room { inv.now.pc + 1 < 2 ^ 32 }
    ensures { Means inv.now result (or_fault (calculates less inv.now into left right)) }
{
    match (counted(inv, left), counted(inv, right)) {
        (Some(x), Some(y)) => gives_number(inv, into, Some(truth(x < y))),
        _ => Change::type_fault(),
    }
}

fn sum(x: i64, y: i64) -> Option<i64>
    ensures { result ≡ checked (x +ℤ y) }
{
    x.checked_add(y)
}

fn difference(x: i64, y: i64) -> Option<i64>
    ensures { result ≡ checked (x -ℤ y) }
{
    x.checked_sub(y)
}

fn product(x: i64, y: i64) -> Option<i64>
    ensures { result ≡ checked (x *ℤ y) }
{
    x.checked_mul(y)
}
