//! What the slots of a pasteboard keep in lists.
ghost use Rattle.std.specs.Prelude.{◌≡◌};

use do_base::{Items, Oid, Text, Value, Values};
use do_native_acts::Row;
use do_table::Entry;
use std::alloc::AllocError;
use std::marker::Model;

/// A type and its data. Contracts see the pair of them.
#[derive(Debug, Drop)]
pub(crate) struct Content {
    pub(crate) kind: Text,
    pub(crate) data: Text,
}

/// Types with their data, in order.
pub(crate) type Contents = Items<Content>;

impl Model for Content {
    ghost use Rattle.do_pboard.specs.Core.{Content, text_code};
    ghost use Rattle.std.specs.Coded.{coded×};

    ghost Value = { Content };

    ghost coded = { coded× text_code text_code };

    ghost view = { λ c. (c.kind, c.data) };
}

impl Row for Content {
    ghost use Rattle.do_pboard.specs.Core.{content_in, content_row};

    ghost read = { content_in };

    ghost shown = { content_row };

    fn read(value: &Value) -> Result<Option<Content>, AllocError> {
        let Some(items) = value.items() else {
            return Ok(None);
        };
        let [kind, data] = items.as_slice() else {
            return Ok(None);
        };
        let Some(kind) = kind.text() else {
            return Ok(None);
        };
        let Some(data) = data.text() else {
            return Ok(None);
        };
        let kind = kind.clone()?;
        let data = data.clone()?;
        Ok(Some(Content { kind, data }))
    }

    fn shown(&self) -> Result<Value, AllocError> {
        let mut row = Values::with_capacity(self.kind.allocator(), 2)?;
        row.push(Value::Text(self.kind.clone()?))?;
        row.push(Value::Text(self.data.clone()?))?;
        Ok(Value::List(row))
    }
}

/// A declared type, with its data if there is any. Contracts see the pair of them.
#[derive(Debug, Drop)]
pub(crate) struct Declared {
    pub(crate) kind: Text,
    pub(crate) data: Option<Text>,
}

/// Declared types, in order.
pub(crate) type DeclaredTypes = Items<Declared>;

impl Model for Declared {
    ghost use Rattle.do_pboard.specs.Core.{Declared, text_code};
    ghost use Rattle.std.specs.Coded.{coded×, coded_option};

    ghost Value = { Declared };

    ghost coded = { coded× text_code (coded_option text_code) };

    ghost view = { λ d. (d.kind, d.data) };
}

impl Entry<Option<Text>> for Declared {
    ghost entry = { λ d. d };

    fn name(&self) -> Result<Text, AllocError> {
        Ok(self.kind.clone()?)
    }

    fn kept(&self) -> Result<Option<Text>, AllocError> {
        match &self.data {
            Some(data) => Ok(Some(data.clone()?)),
            None => Ok(None),
        }
    }
}

/// A name, and the pasteboard that is kept under it. Contracts see the pair of them.
#[derive(Debug, Drop)]
pub(crate) struct NamedBoard {
    pub(crate) name: Text,
    pub(crate) board: Oid,
}

/// Named pasteboards, in order.
pub(crate) type NamedBoards = Items<NamedBoard>;

impl Model for NamedBoard {
    ghost use Rattle.do_pboard.specs.Core.{NamedBoard, object_code, text_code};
    ghost use Rattle.std.specs.Coded.{coded×};

    ghost Value = { NamedBoard };

    ghost coded = { coded× text_code object_code };

    ghost view = { λ b. (b.name, b.board) };
}

impl Row for NamedBoard {
    ghost use Rattle.do_pboard.specs.Core.{board_in, board_row};

    ghost read = { board_in };

    ghost shown = { board_row };

    fn read(value: &Value) -> Result<Option<NamedBoard>, AllocError> {
        let Some(items) = value.items() else {
            return Ok(None);
        };
        let [name, board] = items.as_slice() else {
            return Ok(None);
        };
        let Some(name) = name.text() else {
            return Ok(None);
        };
        let Some(board) = board.object() else {
            return Ok(None);
        };
        let name = name.clone()?;
        Ok(Some(NamedBoard { name, board }))
    }

    fn shown(&self) -> Result<Value, AllocError> {
        let mut row = Values::with_capacity(self.name.allocator(), 2)?;
        row.push(Value::Text(self.name.clone()?))?;
        row.push(Value::Obj(self.board))?;
        Ok(Value::List(row))
    }
}

impl Entry<Oid> for NamedBoard {
    ghost entry = { λ b. b };

    fn name(&self) -> Result<Text, AllocError> {
        Ok(self.name.clone()?)
    }

    fn kept(&self) -> Result<Oid, AllocError> {
        Ok(self.board)
    }
}
