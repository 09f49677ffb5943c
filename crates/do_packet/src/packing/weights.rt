ghost use Rattle.std.specs.Prelude.{◌≡◌, ◌+◌, sum_by};
ghost use Rattle.do_base.specs.values.Values.{weight_of};
ghost use Rattle.do_packet.specs.{Copies.slot_values, Packing.capped, Seen.sender};

use crate::view::View;
use do_base::{NodeId, Oid, Value, Values};
use do_class::ClassTable;

/// The sum of two weights, or 2^64 - 1 where it is more.
pub(crate) fn plus(one: u64, other: u64) -> u64
    ensures { result ≡ capped (one + other) }
{
    one.saturating_add(other)
}

/// What a value weighs, or 2^64 - 1 where it weighs more. The calls go as deep as its lists nest.
#[cycle(weight)]
#[tactic(auto, using(crate::proofs::Capped::capped_steps))]
fn weight(value: &Value) -> u64
    ensures { result ≡ capped (weight_of value.now) }
{
    match value {
        Value::Nil => 1,
        Value::Num(_) => 16,
        Value::Text(text) => plus(16, text.len() as u64),
        Value::Obj(_) => 48,
        Value::List(values) => plus(16, sum_of_weights(values)),
    }
}

/// What values weigh together, or 2^64 - 1 where they weigh more.
#[cycle(weight)]
#[tactic(auto, using(crate::proofs::Capped::capped_steps))]
pub(crate) fn sum_of_weights(values: &Values) -> u64
    ensures { result ≡ capped (sum_by weight_of values.now) }
{
    let mut sum = 0;
    for value in values.as_slice() {
        sum = plus(sum, weight(value));
    }
    sum
}

/// What a copy of an object weighs, which is 16 and its slots, or 2^64 - 1 where it weighs more.
#[tactic(auto, using(crate::proofs::Capped::capped_steps))]
pub(crate) fn copy_weight<V: View>(table: &ClassTable, view: &V, from: NodeId, oid: Oid) -> u64
    ensures { result ≡ capped
        (16 + sum_by weight_of (slot_values (sender table.now from (V.sees view.now)) oid)) }
{
    match view.slots(oid) {
        Some(values) => plus(16, sum_of_weights(values)),
        None => 16,
    }
}
