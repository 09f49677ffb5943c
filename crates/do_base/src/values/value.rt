//! Values, their weight, and exact copies and comparisons of them.
ghost use Rattle.std.specs.Prelude.{◌≡◌, ◌<◌, ◌^◌, ℕ, IfOk, IsTrue, ◌↔◌, sum_by};
ghost use Rattle.do_base.specs.values.Values.{weight_of};

use crate::lists::exact::{ExactClone, ExactEq};
use crate::lists::items::Items;
use crate::names::node::Oid;
use crate::values::text::Text;
use std::alloc::AllocError;

/// A list of values.
pub type Values = Items<Value>;

/// A value that objects keep and messages carry.
///
/// Contracts see it as a plain tree. Clones are exact, and `==` is equality of trees. The type
/// itself keeps no limit on texts, lists, nesting or weight. The form is this project's own.
#[derive(Debug, Drop)]
pub enum Value {
    /// No value.
    Nil,
    /// A number of 64 bits with a sign.
    Num(i64),
    /// Bytes of any kind.
    Text(Text),
    /// An object, by its name.
    Obj(Oid),
    /// Values in order, lists among them.
    List(Values),
}

/// What a value counts for against the limits on values and messages.
///
/// A nil weighs 1, a number 16, an object 48, a text 16 and 1 for each byte, a list 16 and its
/// items' weights. It needs a value that weighs less than 2^32, and takes no memory. The unit and
/// the numbers are this project's own.
#[cycle(weight)]
#[tactic(auto, using(crate::proofs::Weights::weight_of_above))]
pub fn weight(value: &Value) -> u64
    requires { weight_of value.now < 2 ^ 32 }
    ensures { result ≡ weight_of value.now }
{
    match value {
        Value::Nil => 1,
        Value::Num(_) => 16,
        Value::Text(text) => 16 + text.len() as u64,
        Value::Obj(_) => 48,
        Value::List(values) => 16 + weights(values),
    }
}

#[cycle(weight)]
fn weights(values: &Values) -> u64
    requires { sum_by weight_of values.now < 2 ^ 32 }
    ensures { result ≡ sum_by weight_of values.now }
{
    let mut sum = 0;
    for value in values.as_slice() {
        sum += weight(value);
    }
    sum
}

/// An exact copy of a value, whose parts keep the allocators of their originals.
///
/// No limit is set on the value; the calls go as deep as its lists nest. Its one error is that
/// memory ran out. The form is this project's own.
#[cycle(copy)]
pub fn copy_value(value: &Value) -> Result<Value, AllocError>
    ensures { IfOk result (λ v. v ≡ value.now) }
{
    match value {
        Value::Nil => Ok(Value::Nil),
        Value::Num(n) => Ok(Value::Num(*n)),
        Value::Text(text) => Ok(Value::Text(text.clone()?)),
        Value::Obj(oid) => Ok(Value::Obj(*oid)),
        Value::List(values) => Ok(Value::List(copy_values(values)?)),
    }
}

#[cycle(copy)]
fn copy_values(values: &Values) -> Result<Values, AllocError>
    ensures { IfOk result (λ vs. vs ≡ values.now) }
{
    let mut copies = Items::new(values.allocator());
    for value in values.as_slice() {
        copies.push(copy_value(value)?)?;
    }
    Ok(copies)
}

/// Whether two values are the same tree. It takes no memory.
///
/// No limit is set on the values; the calls go as deep as their lists nest. Texts are compared byte
/// by byte, and objects by their names. The form is this project's own.
#[cycle(same)]
pub fn same_value(a: &Value, b: &Value) -> bool
    ensures { IsTrue result ↔ (a.now ≡ b.now) }
{
    match (a, b) {
        (Value::Nil, Value::Nil) => true,
        (Value::Num(m), Value::Num(n)) => *m == *n,
        (Value::Text(s), Value::Text(t)) => s.is(t.as_slice()),
        (Value::Obj(o), Value::Obj(p)) => *o == *p,
        (Value::List(xs), Value::List(ys)) => same_values(xs, ys),
        _ => false,
    }
}

#[cycle(same)]
fn same_values(a: &Values, b: &Values) -> bool
    ensures { IsTrue result ↔ (a.now ≡ b.now) }
{
    let xs = a.as_slice();
    let ys = b.as_slice();
    if xs.len() != ys.len() {
        return false;
    }
    for i in 0..xs.len() {
        if !same_value(&xs[i], &ys[i]) {
            return false;
        }
    }
    true
}

impl Clone for Value {
    ghost is_clone = { λ x y. y ≡ x };

    fn clone(&self) -> Result<Value, AllocError> {
        copy_value(self)
    }
}

impl ExactClone for Value {
    ghost exact_clone = { λ x y e. e };
}

impl PartialEq for Value {
    ghost use Rattle.std.specs.Cmp.{partial_equiv_from_equiv, decided};
    ghost use Rattle.do_base.specs.values.Equal.{value_eq, value_eq-Decides};

    ghost eq = { value_eq };

    ghost laws = { partial_equiv_from_equiv (decided value_eq value_eq-Decides) };

    fn eq(&self, other: &Value) -> bool {
        same_value(self, other)
    }
}

impl Eq for Value {
    ghost use Rattle.std.specs.Cmp.{decided};
    ghost use Rattle.do_base.specs.values.Equal.{value_eq, value_eq-Decides};

    ghost laws = { decided value_eq value_eq-Decides };
}

impl ExactEq for Value {
    ghost use Rattle.do_base.specs.values.Equal.{value_eq-Decides};

    ghost exact_eq = { value_eq-Decides };
}
