//! Names with their ports, as a slot keeps them.
ghost use Rattle.std.specs.{Prelude.{◌≡◌, IfOk}, Option.option_copied};
ghost use Rattle.do_names.specs.Core.{name_in, row};

use do_base::{Items, Text, Value, Values};
use do_native_acts::{Row, port_in};
use std::alloc::AllocError;
use std::marker::Model;

/// A name and its port. Contracts see the pair of them.
#[derive(Debug, Drop)]
pub(crate) struct Entry {
    pub(crate) name: Text,
    pub(crate) port: u16,
}

/// Entries, in order.
pub(crate) type Entries = Items<Entry>;

impl Model for Entry {
    ghost use Rattle.std.specs.{Prelude.{List, ℕ}, Coded.{coded×, coded_ℕ, coded_list}};

    ghost Value = { List ℕ × ℕ };

    ghost coded = { coded× (coded_list coded_ℕ) coded_ℕ };

    ghost view = { λ e. (e.name, e.port) };
}

/// The name that a value is: a text that is not empty.
pub(crate) fn name_in(value: &Value) -> Option<&Text>
    ensures { option_copied result ≡ name_in value.now }
{
    value.text().filter(|name| !name.is_empty())
}

/// A name with its port as a value.
pub(crate) fn row(name: &Text, port: u16) -> Result<Value, AllocError>
    ensures { IfOk result (λ value. value ≡ row (name.now, port)) }
{
    let mut row = Values::with_capacity(name.allocator(), 2)?;
    row.push(Value::Text(name.clone()?))?;
    row.push(Value::Num(port as i64))?;
    Ok(Value::List(row))
}

impl Row for Entry {
    ghost use Rattle.do_names.specs.Core.{entry_in, row};

    ghost read = { entry_in };

    ghost shown = { row };

    fn read(value: &Value) -> Result<Option<Entry>, AllocError> {
        let Some(items) = value.items() else {
            return Ok(None);
        };
        let [name, port] = items.as_slice() else {
            return Ok(None);
        };
        let Some(name) = name_in(name) else {
            return Ok(None);
        };
        let Some(port) = port_in(port) else {
            return Ok(None);
        };
        let name = name.clone()?;
        Ok(Some(Entry { name, port }))
    }

    fn shown(&self) -> Result<Value, AllocError> {
        row(&self.name, self.port)
    }
}

impl do_table::Entry<u16> for Entry {
    ghost entry = { λ e. e };

    fn name(&self) -> Result<Text, AllocError> {
        Ok(self.name.clone()?)
    }

    fn kept(&self) -> Result<u16, AllocError> {
        Ok(self.port)
    }
}
