//! Names are kept in the kit's `indexmap`, which finds a name without a walk and keeps the
//! order in which names came. Std's ordered map would keep them by their bytes, and a plain
//! list would be walked at each call. Taking out a name closes the gap, which moves the entries
//! behind it. To move the last into the gap would be faster, but would change the order that
//! slots show.

ghost use Rattle.std.specs.Prelude.{◌≡◌, ◌<◌, [], not, is_some, length, slice_get, Some, IfOk};
ghost use Rattle.std.specs.{Prelude.{OnOk, OnErr, map, take}, Map.keys_of, Option.option_copied};
ghost use Rattle.do_table.specs.Entries.{added, entry_shown, once, removed, replaced, value_of};

use crate::entry::Entry;
use crate::key::Key;
use do_base::{Text, Texts};
use indexmap::IndexMap;
use std::alloc::{AllocError, Global};
use std::marker::Model;

/// Values by name, in the order in which the names came; no name is there twice.
///
/// Contracts see the list of names with their values.
#[derive(Drop)]
pub struct Table<V> {
    map: IndexMap<Key, V>,
}

impl<V> Model for Table<V> {
    ghost use Rattle.std.specs.{Prelude.{List, ℕ}, Coded.{coded×, coded_ℕ, coded_list}};

    ghost Value = { List (List ℕ × V) };

    ghost coded = { coded_list (coded× (coded_list coded_ℕ) V.code) };

    ghost view = { λ t. t.map.entries };
}

impl<V: Drop> Table<V> {
    /// An empty table, for which no memory is taken.
    pub fn new(alloc: Global) -> Table<V>
        ensures { result ≡ [] }
    {
        Table {
            map: IndexMap::new(alloc),
        }
    }

    /// The table of these rows, in their order; none exactly where a name is there twice.
    pub fn of<E: Entry<V>>(alloc: Global, rows: &[E]) -> Result<Option<Table<V>>, AllocError>
        ensures { IfOk result (λ table. table ≡ once (map E.entry rows.now)) }
    {
        let mut table = Table::new(alloc);
        for row in rows {
            if !table.add(row.name()?, row.kept()?)? {
                return Ok(None);
            }
        }
        Ok(Some(table))
    }

    /// The allocator that the table was made with.
    pub fn allocator(&self) -> Global {
        *self.map.allocator()
    }

    /// How many names there are.
    pub fn len(&self) -> usize
        ensures { result ≡ length self.now }
    {
        self.map.len()
    }

    /// The value of a name; none exactly where the name is not there.
    pub fn get(&self, name: &Text) -> Option<&V>
        ensures { option_copied result ≡ value_of self.now name.now }
    {
        self.map.get(name.as_slice())
    }

    /// The entry at a place, from 0.
    pub fn entry(&self, at: usize) -> (&Text, &V)
        requires { at < length self.now }
        ensures { slice_get self.now at ≡ Some (entry_shown result) }
    {
        let Some((key, value)) = self.map.get_index(at) else {
            unreachable!()
        };
        (key.text(), value)
    }

    /// The names, in order.
    pub fn names(&self) -> Result<Texts, AllocError>
        ensures { IfOk result (λ names. names ≡ keys_of self.now) }
    {
        let mut names = Texts::with_capacity(self.allocator(), self.len())?;
        for at in 0..self.len() {
            let (name, _) = self.entry(at);
            names.push(name.clone()?)?;
        }
        Ok(names)
    }

    /// Adds a name behind the others, and answers whether it was new. A name that is there keeps
    /// its value and its place. If memory runs out, the table is unchanged.
    pub fn add(&mut self, name: Text, value: V) -> Result<bool, AllocError>
        ensures new { IfOk result (λ new. new ≡ not (is_some (value_of self.old name))) }
        ensures ok { OnOk result (self.new ≡ added self.old name value) }
        ensures err { OnErr result (self.new ≡ self.old) }
    {
        if self.map.contains_key(name.as_slice()) {
            return Ok(false);
        }
        match self.map.insert(Key::new(name), value) {
            Ok(_) => Ok(true),
            Err(_) => Err(AllocError),
        }
    }

    /// Puts a value in the place of that of a name, and answers whether the name is there. Names
    /// and their order stay.
    pub fn set(&mut self, name: &Text, value: V) -> bool
        ensures there { result ≡ is_some (value_of self.old name.now) }
        ensures new { self.new ≡ replaced self.old name.now value }
    {
        match self.map.get_index_of(name.as_slice()) {
            Some(at) => {
                self.map[at] = value;
                true
            }
            None => false,
        }
    }

    /// Keeps the first names, at most as many, and takes out those behind them.
    pub fn truncate(&mut self, count: usize)
        ensures { self.new ≡ take count self.old }
    {
        self.map.truncate(count);
    }

    /// Takes out a name, and answers with its value. The others keep their order.
    pub fn remove(&mut self, name: &Text) -> Option<V>
        ensures was { result ≡ value_of self.old name.now }
        ensures left { self.new ≡ removed self.old name.now }
    {
        self.map.shift_remove(name.as_slice())
    }
}
