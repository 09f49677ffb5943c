//! A map in the order of its keys, with room that is made beforehand.
//!
//! It stands on std alone: a balanced tree whose places are made before a key is put in, which the
//! ordered map of std cannot do. It promises each look-up and change exactly, and that a key can be
//! put in wherever there is room. The form is this project's own.
#![tactic(auto)]

mod tree;

ghost use Rattle.std.specs.Prelude.{◌≡◌, ◌+◌, ◌-◌, ◌<◌, ◌≤◌, [], length, OnOk, OnErr, IfOk, IfErr};
ghost use Rattle.std.specs.Prelude.{IsTrue, is_some, IsSome, Some, T, if◌then◌else◌, slice_get};
ghost use Rattle.std.specs.{Prelude.{vec_len, vec_capacity}, Option.option_copied, List.remove};
ghost use Rattle.std.specs.{List.Retain.IsFiltered, Fn.CalledAt, FinMap.{find, put, is_sorted}};
ghost use Rattle.do_sorted.specs.{Places.{IsRowOf, IsGapFor}, Rows.{without, first_from}};

use std::alloc::{AllocError, Global};
use std::marker::Model;
use tree::{Places, Tree};

/// A map that contracts see as the list of its keys and values, by rising key, and the room left.
///
/// A look-up and a change take steps as the logarithm of the length. Room for a key is two places
/// of a tree, which are made beforehand, and are free again when a key is taken out.
#[derive(Debug, Drop)]
pub struct Sorted<K: Ord, V> {
    rows: Tree<(K, V)>,
    free: Vec<Places<(K, V)>>,
}

impl<K: Ord, V> Model for Sorted<K, V> {
    ghost use Rattle.std.specs.Prelude.{T, ◌+◌, ◌≤◌, length, vec_len, vec_capacity};
    ghost use Rattle.std.specs.FinMap.{is_sorted};
    ghost use Rattle.do_sorted.specs.Rows.{Rows, rows_code, HasPlaces};

    ghost Value = { Rows K V };

    ghost coded = { rows_code K.code V.code };

    ghost view = { λ s. record { rows = s.rows; spare = vec_len s.free } };

    ghost invariant = { λ s. T (is_sorted K.cmp s.rows) × HasPlaces s.rows s.free };
}

impl<K: Ord + Copy, V: Drop> Sorted<K, V> {
    /// An empty map, for which no memory is taken.
    pub fn new(alloc: Global) -> Sorted<K, V>
        ensures { result ≡ record { rows = []; spare = 0 } }
    {
        Sorted {
            rows: Tree::new(),
            free: Vec::new(alloc),
        }
    }

    /// How many keys there are.
    pub fn len(&self) -> usize
        ensures { result ≡ length self.now.rows }
    {
        self.rows.len()
    }

    /// How many more keys can be put in with no memory taken.
    pub fn spare(&self) -> usize
        ensures { result ≡ self.now.spare }
    {
        self.free.len()
    }

    /// How many keys fit with no memory taken, those that are there included.
    pub fn capacity(&self) -> usize
        ensures { result ≡ length self.now.rows + self.now.spare }
    {
        self.rows.len() + self.free.len()
    }

    /// Makes room for `more` keys at least.
    ///
    /// If memory runs out, the map is unchanged.
    pub fn reserve(&mut self, more: usize) -> Result<(), AllocError>
        ensures rows { self.new.rows ≡ self.old.rows }
        ensures ok { OnOk result (more ≤ self.new.spare) }
        ensures kept { self.old.spare ≤ self.new.spare }
        ensures err { OnErr result (self.new ≡ self.old) }
    {
        let had = self.free.len();
        if more <= had {
            return Ok(());
        }
        let Some(all) = (more - had).checked_add(self.rows.len()) else {
            return Err(AllocError);
        };
        self.free.reserve(all)?;
        add_places(&mut self.free, more - had)
    }

    /// Where the key stands, or else where it would go.
    fn search(&self, key: &K) -> Result<usize, usize>
        ensures found { IfOk result (IsRowOf K.cmp key.now self.now.rows) }
        ensures absent { IfErr result (IsGapFor K.cmp key.now self.now.rows) }
        ensures sorted { T (is_sorted K.cmp self.now.rows) }
    {
        self.rows.search(key)
    }

    /// Where the first row from a key on stands.
    fn place(&self, key: &K) -> usize
        ensures { slice_get self.now.rows result ≡ first_from K.cmp key.now self.now.rows }
    {
        match self.search(key) {
            Ok(at) => at,
            Err(at) => at,
        }
    }

    /// The value of a key. None exactly where the map does not have it.
    pub fn get(&self, key: &K) -> Option<&V>
        ensures { option_copied result ≡ find K.cmp key.now self.now.rows }
    {
        self.rows.find(key)
    }

    /// Whether the map has the key.
    pub fn has(&self, key: &K) -> bool
        ensures { result ≡ is_some (find K.cmp key.now self.now.rows) }
    {
        self.get(key).is_some()
    }

    /// The first row from a key on. None exactly where all keys are below it.
    pub fn first_from(&self, key: &K) -> Option<&(K, V)>
        ensures { option_copied result ≡ first_from K.cmp key.now self.now.rows }
    {
        self.rows.get(self.place(key))
    }

    /// The row at a place, by rising key. None exactly from the number of keys on.
    pub fn row(&self, at: usize) -> Option<&(K, V)>
        ensures value { option_copied result ≡ slice_get self.now.rows at }
        ensures sorted { T (is_sorted K.cmp self.now.rows) }
    {
        self.rows.get(at)
    }

    /// The allocator that the map was made with.
    pub fn allocator(&self) -> Global {
        *self.free.allocator()
    }

    /// The row with the lowest key. None exactly where there is none.
    pub fn first(&self) -> Option<&(K, V)>
        ensures value { option_copied result ≡ slice_get self.now.rows 0 }
        ensures sorted { T (is_sorted K.cmp self.now.rows) }
    {
        self.rows.get(0)
    }

    /// Puts a value at a key, into room that was made before, and hands back what stood there.
    pub fn put(&mut self, key: K, value: V) -> Option<V>
        requires { 0 < self.old.spare }
        ensures before { result ≡ find K.cmp key self.old.rows }
        ensures after { self.new.rows ≡ put K.cmp key value self.old.rows }
        ensures spare { self.new.spare + (if is_some result then 0 else 1) ≡ self.old.spare }
        ensures capacity { length self.new.rows + self.new.spare
            ≡ length self.old.rows + self.old.spare }
    {
        match self.search(&key) {
            Ok(_) => Some(self.rows.replace(&key, value)),
            Err(at) => {
                let Some(places) = self.free.pop() else {
                    unreachable!();
                };
                self.rows.insert(at, (key, value), places);
                None
            }
        }
    }

    /// Puts another value at a key that is there, and hands back what stood there.
    pub fn set(&mut self, key: &K, value: V) -> V
        requires { IsSome (find K.cmp key.now self.old.rows) }
        ensures before { find K.cmp key.now self.old.rows ≡ Some result }
        ensures after { self.new.rows ≡ put K.cmp key.now value self.old.rows }
        ensures spare { self.new.spare ≡ self.old.spare }
    {
        self.rows.replace(key, value)
    }

    /// Takes out a key, whose place is room again, and gives its value. None exactly where the map
    /// does not have it.
    pub fn remove(&mut self, key: &K) -> Option<V>
        ensures before { result ≡ find K.cmp key.now self.old.rows }
        ensures after { self.new.rows ≡ without K.cmp key.now self.old.rows }
        ensures spare { self.new.spare ≡ self.old.spare + (if is_some result then 1 else 0) }
        ensures capacity { length self.new.rows + self.new.spare
            ≡ length self.old.rows + self.old.spare }
    {
        let Ok(at) = self.search(key) else {
            return None;
        };
        Some(self.remove_at(at).1)
    }

    /// Takes out the row at a place, which is room again.
    fn remove_at(&mut self, at: usize) -> (K, V)
        requires { at < length self.old.rows }
        ensures row { slice_get self.old.rows at ≡ Some result }
        ensures rest { self.new.rows ≡ remove self.old.rows at }
        ensures spare { self.new.spare ≡ self.old.spare + 1 }
    {
        let (row, places) = self.rows.remove(at);
        let Ok(()) = self.free.push(places) else {
            unreachable!();
        };
        row
    }
}

impl<K: Ord + Copy, V: Copy> Sorted<K, V> {
    /// Keeps the rows that pass a test, and takes out all others.
    pub fn retain<F: FnMut(&(K, V)) -> bool>(&mut self, mut keep: F)
        requires { F.IsAlwaysCallable keep }
        ensures filtered { IsFiltered (CalledAt F.FnMut) keep self.old.rows self.new.rows }
        ensures spare { self.old.spare ≤ self.new.spare }
        ensures capacity { length self.new.rows + self.new.spare
            ≡ length self.old.rows + self.old.spare }
    {
        let mut at = 0;
        while at < self.len() {
            let Some(row) = self.row(at) else {
                unreachable!();
            };
            if keep(row) {
                at += 1;
            } else {
                self.remove_at(at);
            }
        }
    }
}

/// Adds places that are free, for which there is room.
///
/// If memory runs out, there are as many as before.
fn add_places<T: Drop>(free: &mut Vec<Places<T>>, more: usize) -> Result<(), AllocError>
    requires { vec_len free.old + more ≤ vec_capacity free.old }
    ensures ok { OnOk result (vec_len free.new ≡ vec_len free.old + more) }
    ensures err { OnErr result (vec_len free.new ≡ vec_len free.old) }
    ensures capacity { vec_capacity free.old ≤ vec_capacity free.new }
{
    let had = free.len();
    let all = had + more;
    let alloc = *free.allocator();
    while free.len() < all {
        let Ok(places) = Places::new(alloc) else {
            free.truncate(had);
            return Err(AllocError);
        };
        let Ok(()) = free.push(places) else {
            unreachable!();
        };
    }
    Ok(())
}
