ghost use Rattle.std.specs.Prelude.{◌≡◌, ◌<◌, ◌+◌, ◌^◌, [], ◌∷◌, ◌++◌, length, nat_lt, ◌&&◌, pos};
ghost use Rattle.std.specs.{Prelude.{IfOk, IfSome, IfNone, false}, List.list_all};
ghost use Rattle.std.specs.Option.{option_copied};
ghost use Rattle.do_behave.specs.Lists.{pushes, picks, counts, gives_found, can_be};
ghost use Rattle.do_behave.specs.{Steps.or_fault, Limits.{left_of, nests_within}};
ghost use Rattle.do_base.specs.values.Values.{weight_of};
ghost use Rattle.do_behave.specs.{Changes.Means, KnownWeight.IsKnown, LongerList.FitsIn};

use crate::act::Act;
use crate::change::Change;
use crate::invocation::Invocation;
use crate::limits::{
    MAX_ITEMS, MAX_NESTING, MAX_WEIGHT, all_nest_within, left, left_behind, nests_within,
};
use crate::moving::copied;
use crate::steps::gives;
use do_base::{Exc, Value, Values, copy_value};
use std::alloc::AllocError;

/// Gives the item at an index, or raises Range where there is none.
fn gives_found(inv: &Invocation, into: u8, found: Option<&Value>) -> Result<Change, AllocError>
    requires room { inv.now.pc + 1 < 2 ^ 32 }
    ensures { IfOk result (λ change.
        Means inv.now change (gives_found inv.now into (option_copied found.entry))) }
{
    match found {
        Some(value) => Ok(gives(inv, into, copy_value(value)?)),
        None => Ok(Change::Other(Act::Raise(Exc::Range))),
    }
}

/// Gives the item of a list at an index.
pub(crate) fn item(inv: &Invocation, into: u8, list: u8, index: u8) -> Result<Change, AllocError>
    requires room { inv.now.pc + 1 < 2 ^ 32 }
    ensures { IfOk result (λ change.
        Means inv.now change (or_fault (picks inv.now into list index))) }
{
    match (inv.local(list), inv.local(index)) {
        (Some(Value::List(items)), Some(Value::Num(at))) => {
            let found = usize::try_from(*at).ok().and_then(|at| items.get(at));
            gives_found(inv, into, found)
        }
        _ => Ok(Change::type_fault()),
    }
}

/// Whether the items of a list nest within one less than the limit, which holds where its weight is
/// known.
#[tactic(auto, using(crate::proofs::KnownWeights::known_nests))]
fn items_nest(list: &Value, items: &Values, known: u64) -> bool
    requires same { list.now ≡ Value.List items.now }
    requires known { IsKnown list.now known }
    ensures { result ≡ list_all (λ v. nests_within v 7) items.now }
{
    known > 0 || all_nest_within(items, MAX_NESTING - 1)
}

/// What is left of the limit on weight behind a list, whose weight may be known.
#[tactic(auto, using(crate::proofs::KnownWeights::known_weight))]
fn left_behind_list(list: &Value, known: u64) -> Option<u64>
    requires known { IsKnown list.now known }
    ensures { result ≡ left_of 2097152 (weight_of list.now) }
{
    if known > 0 {
        left(MAX_WEIGHT, known)
    } else {
        left_behind(list, MAX_WEIGHT)
    }
}

/// What is left of the limit on weight behind a list with one item more.
#[tactic(auto, using(crate::proofs::Weights::left_steps))]
fn left_behind_longer(list: &Value, known: u64, item: &Value) -> Option<u64>
    requires known { IsKnown list.now known }
    ensures { result ≡ left_of 2097152 (weight_of list.now + weight_of item.now) }
{
    match left_behind_list(list, known) {
        Some(rest) => left_behind(item, rest),
        None => None,
    }
}

/// Whether a list with one item more keeps the limits on items and nesting.
fn has_room(list: &Value, items: &Values, known: u64, item: &Value) -> bool
    requires same { list.now ≡ Value.List items.now }
    requires known { IsKnown list.now known }
    ensures { result ≡ (nat_lt (length items.now) 1024
        && (list_all (λ v. nests_within v 7) items.now && nests_within item.now 7)) }
{
    let few = items.len() < MAX_ITEMS;
    let shallow = items_nest(list, items, known) & nests_within(item, MAX_NESTING - 1);
    few & shallow
}

/// The weight of a list with one item more, where it then keeps the limits, else none. What is
/// known of the list is its weight or 0.
fn weight_with(list: &Value, items: &Values, known: u64, item: &Value) -> Option<u64>
    requires same { list.now ≡ Value.List items.now }
    requires known { IsKnown list.now known }
    ensures some { IfSome result (λ weight. FitsIn list.now item.now weight) }
    ensures none { IfNone result (can_be (items.now ++ item.now ∷ []) ≡ false) }
{
    if !has_room(list, items, known, item) {
        return None;
    }
    let Some(rest) = left_behind_longer(list, known, item) else {
        return None;
    };
    Some(MAX_WEIGHT - rest)
}

/// Appends a value to the list in a local.
pub(crate) fn push(inv: &Invocation, list: u8, item: u8) -> Result<Change, AllocError>
    requires room { inv.now.pc + 1 < 2 ^ 32 }
    ensures { IfOk result (λ change.
        Means inv.now change (or_fault (pushes inv.now list item))) }
{
    let (Some(held), Some(item)) = (inv.locals.get(list as usize), inv.local(item)) else {
        return Ok(Change::type_fault());
    };
    let known = held.weight();
    let value = held.value();
    let Value::List(items) = value else {
        return Ok(Change::type_fault());
    };
    let Some(weight) = weight_with(value, items, known, item) else {
        return Ok(Change::Other(Act::Raise(Exc::Range)));
    };
    let item = copied(item)?;
    let pc = inv.pc + 1;
    Ok(Change::Push {
        list,
        item,
        weight,
        pc,
    })
}

/// How many items there are; no memory holds 2^63 of them.
fn item_count(items: &[Value]) -> i64
    ensures { result ≡ pos (length items.now) }
{
    items.len() as i64
}

/// How many bytes there are.
fn byte_count(bytes: &[u8]) -> i64
    ensures { result ≡ pos (length bytes.now) }
{
    bytes.len() as i64
}

/// Gives how many items a list has, or bytes a text.
pub(crate) fn count(inv: &Invocation, into: u8, of: u8) -> Change
    requires room { inv.now.pc + 1 < 2 ^ 32 }
    ensures { Means inv.now result (or_fault (counts inv.now into of)) }
{
    match inv.local(of) {
        Some(Value::Nil) => gives(inv, into, Value::Num(0)),
        Some(Value::Text(text)) => gives(inv, into, Value::Num(byte_count(text.as_slice()))),
        Some(Value::List(items)) => gives(inv, into, Value::Num(item_count(items.as_slice()))),
        _ => Change::type_fault(),
    }
}
