ghost use Rattle.std.specs.{Prelude.{◌≡◌, min, sum_by}, List.list_all};
ghost use Rattle.do_base.specs.values.Values.{weight_of};
ghost use Rattle.do_behave.specs.Limits.{has_small_parts, nests_within};
ghost use Rattle.do_native_acts.specs.Limited.{is_limited};

use do_base::{LONGEST_TEXT, Value, Values};

/// The most items of a list.
const MAX_ITEMS: usize = 1024;

/// The most lists that stand inside one another.
const MAX_NESTING: u32 = 8;

/// The greatest weight of a value that an act makes.
const MAX_WEIGHT: u64 = 2_097_152;

/// The weight from which on weights are no longer told apart.
const HEAVY: u64 = MAX_WEIGHT + 1;

/// Whether each text has at most 1,048,575 bytes, and each list at most 1,024 items.
#[cycle(parts)]
fn has_small_parts(value: &Value) -> bool
    ensures { result ≡ has_small_parts value.now }
{
    match value {
        Value::Text(text) => text.len() <= LONGEST_TEXT,
        Value::List(items) => items.len() <= MAX_ITEMS && all_have_small_parts(items),
        _ => true,
    }
}

#[cycle(parts)]
fn all_have_small_parts(values: &Values) -> bool
    ensures { result ≡ list_all has_small_parts values.now }
{
    for value in values.as_slice() {
        if !has_small_parts(value) {
            return false;
        }
    }
    true
}

/// Whether no more than `depth` lists stand inside one another.
#[cycle(nests)]
fn nests_within(value: &Value, depth: u32) -> bool
    ensures { result ≡ nests_within value.now depth }
{
    match value {
        Value::List(items) => depth > 0 && all_nest_within(items, depth - 1),
        _ => true,
    }
}

#[cycle(nests)]
fn all_nest_within(items: &Values, depth: u32) -> bool
    ensures { result ≡ list_all (λ v. nests_within v depth) items.now }
{
    for item in items.as_slice() {
        if !nests_within(item, depth) {
            return false;
        }
    }
    true
}

/// What a value weighs, or 2,097,153 where it weighs more.
///
/// A weight of its own would not fit a number for every value: an item may stand in many lists.
#[cycle(weighs)]
#[tactic(auto, using(do_base::proofs::Weights::weight_of_above))]
fn capped_weight(value: &Value) -> u64
    ensures { result ≡ min (weight_of value.now) 2097153 }
{
    match value {
        Value::Nil => 1,
        Value::Num(_) => 16,
        Value::Text(text) => HEAVY.min(text.len().min(MAX_WEIGHT as usize) as u64 + 16),
        Value::Obj(_) => 48,
        Value::List(values) => HEAVY.min(16 + capped_sum(values)),
    }
}

#[cycle(weighs)]
fn capped_sum(values: &Values) -> u64
    ensures { result ≡ min (sum_by weight_of values.now) 2097153 }
{
    let mut sum = 0;
    for value in values.as_slice() {
        sum = HEAVY.min(sum + capped_weight(value));
    }
    sum
}

/// Whether a value keeps each limit on values that an act makes: texts of at most 1,048,575 bytes,
/// lists of at most 1,024 items, at most 8 of them inside one another, and a weight of at most
/// 2,097,152.
pub fn is_limited(value: &Value) -> bool
    ensures { result ≡ is_limited value.now }
{
    has_small_parts(value) && nests_within(value, MAX_NESTING) && capped_weight(value) <= MAX_WEIGHT
}
