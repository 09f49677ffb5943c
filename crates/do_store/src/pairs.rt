//! The pairs of serials and keys, by rising serial.
ghost use Rattle.std.specs.Prelude.{◌≡◌, ◌≢◌, [], ◌∷◌, ◌++◌, ◌+◌, ◌<◌, ◌≤◌, ℕ, length, get_or};
ghost use Rattle.std.specs.Prelude.{MatchOption, Some, None, Contains, vec_len, vec_capacity};
ghost use Rattle.std.specs.Prelude.{filter};
ghost use Rattle.slab.specs.Slab.{get};
ghost use Rattle.do_store.specs.{Listing.{Rising, pair_serial, listed, is_live}, Objects.stored_at};

use crate::object::{Object, Pair};
use slab::Slab;

/// The key that a serial leads to.
fn key_of(pairs: &[Pair], serial: u64) -> Option<usize>
    ensures { (top : ℕ) → Rising pair_serial 0 pairs.now top → MatchOption result
        ((j : ℕ) (d : Pair) → j < length pairs.now → (get_or pairs.now j d).serial ≢ serial)
        (λ key. Contains pairs.now (record { serial = serial; key = key })) }
{
    let mut low = 0;
    let mut high = pairs.len();
    while low < high {
        let middle = low + (high - low) / 2;
        let pair = pairs[middle];
        if pair.serial == serial {
            return Some(pair.key);
        }
        if pair.serial < serial {
            low = middle + 1;
        } else {
            high = middle;
        }
    }
    None
}

/// The key of the object with a serial. None exactly where it is not stored.
pub fn find(slots: &Slab<Object>, pairs: &Vec<Pair>, serial: u64) -> Option<usize>
    ensures { (top : ℕ) → Rising pair_serial 0 pairs.now.items top → MatchOption result
        (stored_at (listed (get slots.now) pairs.now.items) serial ≡ None)
        (λ key. Contains pairs.now.items (record { serial = serial; key = key }) × (o : Object)
        × (get slots.now key ≡ Some o) × (o.serial ≡ serial)) }
{
    let key = key_of(pairs.as_slice(), serial)?;
    let object = slots.get(key)?;
    if object.serial != serial {
        return None;
    }
    Some(key)
}

/// Whether a pair leads to its object.
pub fn leads(slots: &Slab<Object>, pair: &Pair) -> bool
    ensures { result ≡ is_live (get slots.now) pair.now }
{
    match slots.get(pair.key) {
        Some(object) => object.serial == pair.serial,
        None => false,
    }
}

/// Drops the pairs that lead to no object of theirs.
pub(crate) fn close_up(pairs: &mut Vec<Pair>, slots: &Slab<Object>)
    ensures items { pairs.new.items ≡ filter (is_live (get slots.now)) pairs.old.items }
    ensures len { vec_len pairs.new ≤ vec_len pairs.old }
    ensures capacity { vec_capacity pairs.new ≡ vec_capacity pairs.old }
{
    pairs.retain(|pair| leads(slots, pair));
}

/// Appends a pair, in room that was made before.
pub fn push_pair(pairs: &mut Vec<Pair>, pair: Pair)
    requires { vec_len pairs.old + 1 ≤ vec_capacity pairs.old }
    ensures items { pairs.new.items ≡ pairs.old.items ++ pair ∷ [] }
    ensures len { vec_len pairs.new ≡ vec_len pairs.old + 1 }
    ensures capacity { vec_capacity pairs.old ≤ vec_capacity pairs.new }
{
    let _ = pairs.push(pair);
}
