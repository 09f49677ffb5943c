//! The limits on a value: how deep its lists nest, and what it weighs.
ghost use Rattle.std.specs.{Prelude.{◌≡◌, sum_by}, List.list_all};
ghost use Rattle.do_base.specs.values.Values.{weight_of};
ghost use Rattle.do_behave.specs.Limits.{left_of, nests_within};

use do_base::{Value, Values};

/// The most items of a list.
pub(crate) const MAX_ITEMS: usize = 1024;

/// The most lists that stand inside one another.
pub(crate) const MAX_NESTING: u32 = 8;

/// The greatest weight of a value that an act makes.
pub(crate) const MAX_WEIGHT: u64 = 2_097_152;

/// Whether no more than `depth` lists stand inside one another.
#[cycle(nests)]
#[inline(always)]
pub(crate) fn nests_within(value: &Value, depth: u32) -> bool
    ensures { result ≡ nests_within value.now depth }
{
    match value {
        Value::List(items) => depth > 0 && all_nest_within(items, depth - 1),
        _ => true,
    }
}

#[cycle(nests)]
pub(crate) fn all_nest_within(items: &Values, depth: u32) -> bool
    ensures { result ≡ list_all (λ v. nests_within v depth) items.now }
{
    for item in items.as_slice() {
        if !nests_within(item, depth) {
            return false;
        }
    }
    true
}

/// What is left of a limit behind a weight; none where it is passed.
pub(crate) fn left(most: u64, weight: u64) -> Option<u64>
    ensures { result ≡ left_of most weight }
{
    most.checked_sub(weight)
}

/// What is left of a limit behind the weight of a value; none where it is passed.
#[cycle(left)]
#[tactic(auto, using(crate::proofs::Weights::left_steps))]
#[inline(always)]
pub(crate) fn left_behind(value: &Value, most: u64) -> Option<u64>
    ensures { result ≡ left_of most (weight_of value.now) }
{
    match value {
        Value::Nil => left(most, 1),
        Value::Num(_) => left(most, 16),
        Value::Obj(_) => left(most, 48),
        Value::Text(text) => match left(most, 16) {
            Some(most) => left(most, text.len() as u64),
            None => None,
        },
        Value::List(values) => match left(most, 16) {
            Some(most) => left_behind_all(values, most),
            None => None,
        },
    }
}

#[cycle(left)]
#[tactic(auto, using(crate::proofs::Weights::left_steps))]
fn left_behind_all(values: &Values, most: u64) -> Option<u64>
    ensures { result ≡ left_of most (sum_by weight_of values.now) }
{
    let mut rest = most;
    for value in values.as_slice() {
        let Some(next) = left_behind(value, rest) else {
            return None;
        };
        rest = next;
    }
    Some(rest)
}
