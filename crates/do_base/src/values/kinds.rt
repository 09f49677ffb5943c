//! Questions on a value: which of the five kinds it is, and what it holds.
ghost use Rattle.std.specs.{Prelude.◌≡◌, Option.option_copied};
ghost use Rattle.do_base.specs.values.Kinds.{number, counted, text, object, items, is_nil};

use crate::names::node::Oid;
use crate::values::text::Text;
use crate::values::value::{Value, Values};

impl Value {
    /// The number, if the value is one.
    pub fn number(&self) -> Option<i64>
        ensures { result ≡ number self.now }
    {
        match self {
            Value::Num(n) => Some(*n),
            _ => None,
        }
    }

    /// The number that the value counts as in arithmetic: nil counts as 0, and no other kind
    /// counts.
    pub fn counted(&self) -> Option<i64>
        ensures { result ≡ counted self.now }
    {
        match self {
            Value::Nil => Some(0),
            Value::Num(n) => Some(*n),
            _ => None,
        }
    }

    /// The text, if the value is one.
    pub fn text(&self) -> Option<&Text>
        ensures { option_copied result ≡ text self.now }
    {
        match self {
            Value::Text(bytes) => Some(bytes),
            _ => None,
        }
    }

    /// The object's name, if the value is one.
    pub fn object(&self) -> Option<Oid>
        ensures { result ≡ object self.now }
    {
        match self {
            Value::Obj(oid) => Some(*oid),
            _ => None,
        }
    }

    /// The items, if the value is a list.
    pub fn items(&self) -> Option<&Values>
        ensures { option_copied result ≡ items self.now }
    {
        match self {
            Value::List(values) => Some(values),
            _ => None,
        }
    }

    /// Whether the value is nil.
    pub fn is_nil(&self) -> bool
        ensures { result ≡ is_nil self.now }
    {
        match self {
            Value::Nil => true,
            _ => false,
        }
    }
}
