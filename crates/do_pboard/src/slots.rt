//! The slots of a pasteboard.
ghost use Rattle.std.specs.Prelude.{◌≡◌, ◌++◌, ◌^◌, ◌&&◌, [], nat_lt, IsTrue, IfOk, IfSome, OnOk};
ghost use Rattle.std.specs.{Prelude.{Some, None, map}, Map.keys_of};
ghost use Rattle.do_base.specs.declared.values.value.Value.TheVariants.{Text as TextValue};
ghost use Rattle.do_grammar.specs.Words.{◌>>?◌};
ghost use Rattle.do_native_acts.specs.Rows.{listed};
ghost use Rattle.do_pboard.specs.Core.{are_boards, are_declared, begins_empty, boards_read};
ghost use Rattle.do_pboard.specs.Core.{boards_slot, content_row, contents, from_slots, of_parts};
ghost use Rattle.do_pboard.specs.Core.{to_slots, types_read};

use crate::board::Board;
use crate::kept::{Content, NamedBoard};
use crate::parts::{board_rows, boards_of, count_in, count_value, owner_value};
use crate::types::{TypeTable, contents_of, merged_table};
use do_base::{Oid, Text, Value, Values};
use do_native_acts::{owner_in, read_rows, show_rows};
use do_table::Table;
use std::alloc::{AllocError, Global};

/// Whether a pasteboard can begin so: its change count has 63 bits, and where nothing was declared
/// yet there is no owner and no type.
fn can_begin(count: u64, owner: &Option<Oid>, types: &TypeTable) -> bool
    ensures { result ≡ (nat_lt count (2 ^ 63) && begins_empty
        (record { count = count; owner = owner.now; types = types.now; boards = [] })) }
{
    count < 1 << 63 && (count > 0 || (owner.is_none() && types.len() == 0))
}

/// A pasteboard of these parts; none where no pasteboard has them.
fn of_parts(count: u64, owner: Option<Oid>, types: TypeTable, boards: Table<Oid>) -> Option<Board>
    requires types { IsTrue (are_declared types) }
    requires boards { IsTrue (are_boards boards) }
    ensures { result ≡ of_parts
        (record { count = count; owner = owner; types = types; boards = boards }) }
{
    if !can_begin(count, &owner, &types) {
        return None;
    }
    Some(Board {
        count,
        owner,
        types,
        boards,
    })
}

/// The declared types that two slots hold, where a pasteboard can have them.
fn types_read(alloc: Global, types: &Value, kept: &Value) -> Result<Option<TypeTable>, AllocError>
    ensures { IfOk result (λ table. table ≡ types_read types.now kept.now) }
{
    let Some(types) = read_rows::<Text>(alloc, types)? else {
        return Ok(None);
    };
    let Some(contents) = read_rows::<Content>(alloc, kept)? else {
        return Ok(None);
    };
    merged_table(&types, &contents)
}

/// The named pasteboards that a slot holds, where a pasteboard can have them.
fn boards_read(alloc: Global, slot: &Value) -> Result<Option<Table<Oid>>, AllocError>
    ensures { IfOk result (λ table. table ≡ boards_read slot.now) }
{
    match read_rows::<NamedBoard>(alloc, slot)? {
        Some(rows) => boards_of(&rows),
        None => Ok(None),
    }
}

/// The declared types as a slot keeps them.
fn types_slot(types: &TypeTable) -> Result<Value, AllocError>
    ensures { IfOk result (λ value. value ≡ listed (map TextValue (keys_of types.now))) }
{
    show_rows::<Text>(&types.names()?)
}

/// The types that have data, with it, as a slot keeps them.
fn contents_slot(types: &TypeTable) -> Result<Value, AllocError>
    ensures { IfOk result (λ value. value ≡ listed (map content_row (contents types.now))) }
{
    show_rows::<Content>(&contents_of(types)?)
}

/// The named pasteboards as a slot keeps them.
pub(crate) fn boards_slot(boards: &Table<Oid>) -> Result<Value, AllocError>
    ensures { IfOk result (λ value. value ≡ boards_slot boards.now) }
{
    show_rows::<NamedBoard>(&board_rows(boards)?)
}

impl Board {
    /// The core of this change count and owner, and of what the other slots hold.
    fn from_others(
        alloc: Global,
        count: u64,
        owner: Option<Oid>,
        types: &Value,
        kept: &Value,
        boards: &Value,
    ) -> Result<Option<Board>, AllocError>
        ensures { IfOk result (λ read. read ≡ (types_read types.now kept.now >>? λ ts.
            boards_read boards.now >>? λ bs.
            of_parts (record { count = count; owner = owner; types = ts; boards = bs }))) }
    {
        let Some(types) = types_read(alloc, types, kept)? else {
            return Ok(None);
        };
        match boards_read(alloc, boards)? {
            Some(boards) => Ok(of_parts(count, owner, types, boards)),
            None => Ok(None),
        }
    }

    /// The core whose slots these are.
    fn read(slots: &Values) -> Result<Option<Board>, AllocError>
        ensures { IfOk result (λ read. read ≡ from_slots slots.now) }
    {
        let [count, owner, types, kept, boards] = slots.as_slice() else {
            return Ok(None);
        };
        let Some(count) = count_in(count) else {
            return Ok(None);
        };
        match owner_in(owner) {
            Some(owner) => {
                Board::from_others(slots.allocator(), count, owner, types, kept, boards)
            }
            None => Ok(None),
        }
    }

    /// The core whose slots these are; none exactly where no core has these slots.
    pub fn from_slots(slots: &Values) -> Result<Option<Board>, AllocError>
        ensures value { IfOk result (λ read. read ≡ from_slots slots.now) }
        ensures exact { IfOk result (λ read. IfSome read (λ board. to_slots board ≡ slots.now)) }
    {
        Board::read(slots)
    }

    /// Appends the slots of the core.
    fn push_slots(&self, slots: &mut Values) -> Result<(), AllocError>
        ensures ok { OnOk result (slots.new ≡ slots.old ++ to_slots self.now) }
    {
        slots.push(count_value(self.count))?;
        slots.push(owner_value(self.owner))?;
        slots.push(types_slot(&self.types)?)?;
        slots.push(contents_slot(&self.types)?)?;
        slots.push(boards_slot(&self.boards)?)?;
        Ok(())
    }

    /// The slots of the core.
    fn slots(&self) -> Result<Values, AllocError>
        ensures { IfOk result (λ slots. slots ≡ to_slots self.now) }
    {
        let mut slots = Values::with_capacity(self.types.allocator(), 5)?;
        self.push_slots(&mut slots)?;
        Ok(slots)
    }

    /// The slots of the core.
    pub fn to_slots(&self) -> Result<Values, AllocError>
        ensures value { IfOk result (λ slots. slots ≡ to_slots self.now) }
        ensures exact { IfOk result (λ slots. from_slots slots ≡ Some self.now) }
    {
        let _ = &self.count;
        self.slots()
    }
}
