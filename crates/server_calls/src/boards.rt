//! Calls of a pasteboard.

mod changes;

use crate::boards::changes::{add_types, declare, fill, keep, perform, read, set_data};
use call_rows::{Part, call_of, count_value, no_call, object_or_nil, text_at, texts_at};
use do_base::{Text, Value, Values};
use do_native_acts::{are_types, as_number, show_list};
use do_pboard::{Board, BoardData};
use std::alloc::Global;
use std::test::Fail;

/// What a row calls.
#[derive(Clone, Copy)]
enum Call {
    Count,
    Owner,
    Types,
    CountTypes,
    Slots,
    DataFor,
    Named,
    Available,
    AreTypes,
    Declare,
    AddTypes,
    SetData,
    Perform,
    New,
    Read,
    Keep,
    Fill,
}

/// The words of the calls.
const CALLS: [(&[u8], Call); 17] = [
    (b"count", Call::Count),
    (b"owner", Call::Owner),
    (b"types", Call::Types),
    (b"count_types", Call::CountTypes),
    (b"slots", Call::Slots),
    (b"data_for", Call::DataFor),
    (b"named", Call::Named),
    (b"available", Call::Available),
    (b"are_types", Call::AreTypes),
    (b"declare", Call::Declare),
    (b"add_types", Call::AddTypes),
    (b"set_data", Call::SetData),
    (b"perform", Call::Perform),
    (b"new", Call::New),
    (b"read", Call::Read),
    (b"keep", Call::Keep),
    (b"fill", Call::Fill),
];

/// A pasteboard.
#[derive(Drop)]
pub(crate) struct BoardCalls {
    board: Board,
    alloc: Global,
}

/// The data, whom to ask for it, or nil.
fn data_value(data: BoardData) -> Value {
    match data {
        BoardData::Here(content) => Value::Text(content),
        BoardData::Ask(owner) => Value::Obj(owner),
        BoardData::Absent => Value::Nil,
    }
}

/// The place of the first of the texts that is a declared type, or nil.
fn available(board: &Board, args: &Values) -> Result<Value, Fail> {
    let types = texts_at(args, 0)?;
    match board.available(&types) {
        Some(at) => count_value(at),
        None => Ok(Value::Nil),
    }
}

/// Whether texts can be types.
fn tells_types(args: &Values) -> Result<Value, Fail> {
    let types = texts_at(args, 0)?;
    Ok(as_number(are_types(&types)))
}

impl BoardCalls {
    /// An empty pasteboard.
    pub(crate) fn new(alloc: Global) -> BoardCalls {
        BoardCalls {
            board: Board::new(alloc),
            alloc,
        }
    }

    /// Begins anew with an empty pasteboard.
    fn begin(&mut self) -> Value {
        self.board = Board::new(self.alloc);
        Value::Nil
    }

    /// The types in order.
    fn types(&self) -> Result<Value, Fail> {
        Ok(show_list::<Text>(&self.board.types()?)?)
    }

    /// How many types there are.
    fn count_types(&self) -> Result<Value, Fail> {
        count_value(self.board.types()?.len())
    }

    /// The slots that keep the pasteboard.
    fn slots(&self) -> Result<Value, Fail> {
        Ok(Value::List(self.board.to_slots()?))
    }

    /// The data of a type, whom to ask for it, or nil.
    fn data_for(&self, args: &Values) -> Result<Value, Fail> {
        let data = self.board.data_for(text_at(args, 0)?)?;
        Ok(data_value(data))
    }

    /// The object under a name, or nil.
    fn named(&self, args: &Values) -> Result<Value, Fail> {
        let name = text_at(args, 0)?;
        Ok(object_or_nil(self.board.named(name)))
    }
}

impl Part for BoardCalls {
    fn call(&mut self, word: &[u8], args: &Values) -> Result<Value, Fail> {
        let (alloc, board) = (self.alloc, &mut self.board);
        match call_of(&CALLS, word) {
            Some(Call::Count) => Ok(Value::Num(board.change_count())),
            Some(Call::Owner) => Ok(object_or_nil(board.owner())),
            Some(Call::Types) => self.types(),
            Some(Call::CountTypes) => self.count_types(),
            Some(Call::Slots) => self.slots(),
            Some(Call::DataFor) => self.data_for(args),
            Some(Call::Named) => self.named(args),
            Some(Call::Available) => available(board, args),
            Some(Call::AreTypes) => tells_types(args),
            Some(Call::Declare) => declare(alloc, board, args),
            Some(Call::AddTypes) => add_types(alloc, board, args),
            Some(Call::SetData) => set_data(board, args),
            Some(Call::Perform) => perform(board, args),
            Some(Call::New) => Ok(self.begin()),
            Some(Call::Read) => read(board, args),
            Some(Call::Keep) => keep(alloc, board, args),
            Some(Call::Fill) => fill(alloc, board, args),
            None => no_call(),
        }
    }
}
