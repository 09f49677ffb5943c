//! Calls of a table by name.

use call_rows::{
    Part, call_of, count_at, count_value, no_call, number_at, number_or_nil, pair_value, text_at,
};
use do_base::{Text, Value, Values};
use do_native_acts::{as_number, show_list};
use do_table::Table;
use std::alloc::Global;
use std::test::Fail;

/// What a row calls.
#[derive(Clone, Copy)]
enum Call {
    Get,
    Entry,
    Len,
    Names,
    Add,
    Set,
    Remove,
    Truncate,
}

/// The words of the calls.
const CALLS: [(&[u8], Call); 8] = [
    (b"get", Call::Get),
    (b"entry", Call::Entry),
    (b"len", Call::Len),
    (b"names", Call::Names),
    (b"add", Call::Add),
    (b"set", Call::Set),
    (b"remove", Call::Remove),
    (b"truncate", Call::Truncate),
];

/// A table of numbers.
#[derive(Drop)]
pub(crate) struct TableCalls {
    table: Table<i64>,
    alloc: Global,
}

impl TableCalls {
    /// An empty table.
    pub(crate) fn new(alloc: Global) -> TableCalls {
        TableCalls {
            table: Table::new(alloc),
            alloc,
        }
    }

    /// Adds a name with its number, and tells whether it is new.
    fn add(&mut self, args: &Values) -> Result<Value, Fail> {
        let number = number_at(args, 1)?;
        let name = text_at(args, 0)?.clone()?;
        Ok(as_number(self.table.add(name, number)?))
    }

    /// Sets the number of a name, and tells whether it is there.
    fn set(&mut self, args: &Values) -> Result<Value, Fail> {
        let number = number_at(args, 1)?;
        Ok(as_number(self.table.set(text_at(args, 0)?, number)))
    }

    /// The number of a name, or nil.
    fn get(&self, args: &Values) -> Result<Value, Fail> {
        let found = self.table.get(text_at(args, 0)?);
        Ok(number_or_nil(found.copied()))
    }

    /// The name and the number at a place, or nil behind the last.
    fn entry(&self, args: &Values) -> Result<Value, Fail> {
        let at = usize::from(count_at(args, 0)?);
        if at >= self.table.len() {
            return Ok(Value::Nil);
        }
        let (name, number) = self.table.entry(at);
        let name = Value::Text(name.clone()?);
        pair_value(self.alloc, name, Value::Num(*number))
    }

    /// The names in order.
    fn names(&self) -> Result<Value, Fail> {
        Ok(show_list::<Text>(&self.table.names()?)?)
    }

    /// Takes out a name, and tells its number, or nil.
    fn remove(&mut self, args: &Values) -> Result<Value, Fail> {
        let number = self.table.remove(text_at(args, 0)?);
        Ok(number_or_nil(number))
    }

    /// Leaves the first names.
    fn truncate(&mut self, args: &Values) -> Result<Value, Fail> {
        let few = usize::from(count_at(args, 0)?);
        self.table.truncate(few);
        Ok(Value::Nil)
    }
}

impl Part for TableCalls {
    fn call(&mut self, word: &[u8], args: &Values) -> Result<Value, Fail> {
        match call_of(&CALLS, word) {
            Some(Call::Get) => self.get(args),
            Some(Call::Entry) => self.entry(args),
            Some(Call::Len) => count_value(self.table.len()),
            Some(Call::Names) => self.names(),
            Some(Call::Add) => self.add(args),
            Some(Call::Set) => self.set(args),
            Some(Call::Remove) => self.remove(args),
            Some(Call::Truncate) => self.truncate(args),
            None => no_call(),
        }
    }
}
