//! The change count, the owner and the named pasteboards, as slots keep them.
ghost use Rattle.std.specs.Prelude.{◌≡◌, ◌<◌, ◌^◌, IfOk, Some, None, if◌then◌else◌};
ghost use Rattle.do_pboard.specs.Core.{are_boards, count_in, count_value, owner_value};
ghost use Rattle.do_pboard.specs.Changes.{same_owner};

use crate::board::MAX_BOARDS;
use crate::kept::{NamedBoard, NamedBoards};
use do_base::{Oid, Value};
use do_table::Table;
use std::alloc::AllocError;

/// The change count that a slot holds: nil for 0.
pub(crate) fn count_in(slot: &Value) -> Option<u64>
    ensures { result ≡ count_in slot.now }
{
    match slot {
        Value::Nil => Some(0),
        Value::Num(count) if *count > 0 => Some(*count as u64),
        _ => None,
    }
}

/// The change count as a slot keeps it.
pub(crate) fn count_value(count: u64) -> Value
    requires { count < 2 ^ 63 }
    ensures { result ≡ count_value count }
{
    if count > 0 {
        Value::Num(count as i64)
    } else {
        Value::Nil
    }
}

/// The owner as a slot keeps it.
pub(crate) fn owner_value(owner: Option<Oid>) -> Value
    ensures { result ≡ owner_value owner }
{
    match owner {
        Some(owner) => Value::Obj(owner),
        None => Value::Nil,
    }
}

/// Whether both are none, or the same object.
pub(crate) fn same_owner(owner: &Option<Oid>, other: &Option<Oid>) -> bool
    ensures { result ≡ same_owner owner.now other.now }
{
    match (owner, other) {
        (None, None) => true,
        (Some(owner), Some(other)) => owner == other,
        _ => false,
    }
}

/// The table of named pasteboards; none where they are too many, or a name is there twice.
pub(crate) fn boards_of(rows: &NamedBoards) -> Result<Option<Table<Oid>>, AllocError>
    ensures { IfOk result (λ table. table ≡ (if are_boards rows.now then Some rows.now else None)) }
{
    if rows.len() > MAX_BOARDS {
        return Ok(None);
    }
    Table::of(rows.allocator(), rows.as_slice())
}

/// The named pasteboards of a table, in order.
pub(crate) fn board_rows(boards: &Table<Oid>) -> Result<NamedBoards, AllocError>
    ensures { IfOk result (λ rows. rows ≡ boards.now) }
{
    let mut rows = NamedBoards::with_capacity(boards.allocator(), boards.len())?;
    for at in 0..boards.len() {
        let (name, board) = boards.entry(at);
        let name = name.clone()?;
        rows.push(NamedBoard {
            name,
            board: *board,
        })?;
    }
    Ok(rows)
}
