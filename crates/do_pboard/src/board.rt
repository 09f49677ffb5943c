ghost use Rattle.std.specs.Prelude.{◌≡◌, ◌+◌, pos, IsTrue, IfOk, IfErr, IfSome, OnOk, OnErr, Some};
ghost use Rattle.std.specs.{Prelude.{List, is_some}, Map.keys_of};
ghost use Rattle.do_native_acts.specs.{Faults.FaultOf, Types.are_types};
ghost use Rattle.do_table.specs.Entries.{value_of};
ghost use Rattle.do_pboard.specs.{Core.empty, Changes.{available, can_grow, data_for, declared}};
ghost use Rattle.do_pboard.specs.Changes.{extended, is_owned, keeps, supplied, takes};
ghost use Rattle.do_pboard.specs.{History.after, Meaning.{told_count, told_for, told_owner}};
ghost use Rattle.do_pboard.specs.{Meaning.told_types, declared.calls.Call.Call};

use crate::parts::same_owner;
use crate::types::{TypeTable, add_types, bare_table};
use do_base::{Oid, Text, Texts};
use do_native_acts::CoreFault;
use do_table::Table;
use std::alloc::{AllocError, Global};
use std::marker::Model;

/// The most named pasteboards.
pub(crate) const MAX_BOARDS: usize = 256;

/// The greatest change count.
const LAST_COUNT: u64 = 9_223_372_036_854_775_807;

/// The core of a pasteboard: its change count, the owner and the types of the last declaration with
/// their data, and the pasteboards that are kept under names.
///
/// Contracts see these parts.
#[derive(Drop)]
pub struct Board {
    pub(crate) count: u64,
    pub(crate) owner: Option<Oid>,
    pub(crate) types: TypeTable,
    pub(crate) boards: Table<Oid>,
}

impl Model for Board {
    ghost use Rattle.std.specs.Prelude.{IsTrue};
    ghost use Rattle.do_pboard.specs.Core.{Pasteboard, pasteboard_code, is_board};

    ghost Value = { Pasteboard };

    ghost coded = { pasteboard_code };

    ghost view = { λ b.
        record { count = b.count; owner = b.owner; types = b.types; boards = b.boards } };

    ghost invariant = { λ b. IsTrue (is_board
        (record { count = b.count; owner = b.owner; types = b.types; boards = b.boards })) };
}

/// What a pasteboard has for a type.
#[derive(Debug, PartialEq, Eq, Drop)]
pub enum BoardData {
    /// The data.
    Here(Text),
    /// An owner, to be asked for it.
    Ask(Oid),
    /// Nothing.
    Absent,
}

impl Board {
    /// A pasteboard with nothing in it.
    pub fn new(alloc: Global) -> Board
        ensures { result ≡ empty }
    {
        Board {
            count: 0,
            owner: None,
            types: Table::new(alloc),
            boards: Table::new(alloc),
        }
    }

    /// How often types were declared, as the calls made so far tell it.
    pub fn change_count(&self) -> i64
        ensures value { result ≡ pos self.now.count }
        ensures meaning { (h : List Call) → self.now ≡ after h → result ≡ pos (told_count h) }
    {
        self.count as i64
    }

    /// Who declared the types last, as the calls made so far tell it; none where it was nobody.
    pub fn owner(&self) -> Option<Oid>
        ensures value { result ≡ self.now.owner }
        ensures meaning { (h : List Call) → self.now ≡ after h → result ≡ told_owner h }
    {
        self.owner
    }

    /// The declared types, in order.
    fn type_names(&self) -> Result<Texts, AllocError>
        ensures { IfOk result (λ types. types ≡ keys_of self.now.types) }
    {
        self.types.names()
    }

    /// The declared types in order, as the calls made so far tell them.
    pub fn types(&self) -> Result<Texts, AllocError>
        ensures value { IfOk result (λ types. types ≡ keys_of self.now.types) }
        ensures meaning { (h : List Call) → self.now ≡ after h
            → IfOk result (λ types. types ≡ told_types h) }
    {
        self.type_names()
    }

    /// Whether types may be declared once more: the change count must not pass 2^63 - 1.
    pub fn can_declare(&self) -> bool
        ensures { result ≡ can_grow self.now.count }
    {
        self.count < LAST_COUNT
    }

    /// Declares these types without data, in place of those that were declared before. Answers the
    /// new change count, and who was the owner before.
    ///
    /// If memory runs out, the pasteboard is unchanged.
    pub fn declare(
        &mut self,
        types: Texts,
        owner: Option<Oid>,
    ) -> Result<(i64, Option<Oid>), AllocError>
        requires types { IsTrue (are_types types) }
        requires room { IsTrue (can_grow self.old.count) }
        ensures new { OnOk result (self.new ≡ declared self.old types owner) }
        ensures answer { IfOk result (λ a. a ≡ (pos (self.old.count + 1), self.old.owner)) }
        ensures err { OnErr result (self.new ≡ self.old) }
    {
        let Some(table) = bare_table(&types)? else {
            unreachable!()
        };
        let former = self.owner;
        self.types = table;
        self.owner = owner;
        self.count += 1;
        Ok((self.count as i64, former))
    }

    /// Adds types behind those that are declared, each that is new, and answers the change count.
    /// It is 0, and nothing changes, where none were declared yet or the owner is another one.
    ///
    /// Where there would be more than 64 types, that is refused as `Full(64)`. On any error the
    /// pasteboard is unchanged.
    pub fn add_types(&mut self, types: Texts, owner: Option<Oid>) -> Result<i64, CoreFault>
        requires { IsTrue (are_types types) }
        ensures done { IfOk result (λ count.
            extended self.old types owner ≡ Some (self.new, count)) }
        ensures fault { IfErr result (FaultOf 64 (extended self.old types owner)) }
        ensures err { OnErr result (self.new ≡ self.old) }
    {
        if !self.is_owned(owner) {
            return Ok(0);
        }
        match add_types(&mut self.types, &types) {
            Ok(()) => Ok(self.count as i64),
            Err(fault) => Err(fault),
        }
    }

    /// Whether types were declared, by this owner.
    fn is_owned(&self, owner: Option<Oid>) -> bool
        ensures { result ≡ is_owned self.now owner }
    {
        self.count > 0 && same_owner(&owner, &self.owner)
    }

    /// Whether a type is declared.
    fn has_type(&self, kind: &Text) -> bool
        ensures { result ≡ is_some (value_of self.now.types kind.now) }
    {
        self.types.get(kind).is_some()
    }

    /// Whether data of a type is kept at this change count.
    fn takes(&self, kind: &Text, count: i64) -> bool
        ensures { result ≡ takes self.now kind.now count }
    {
        count == self.count as i64 && self.has_type(kind)
    }

    /// Keeps data of a type, and answers whether it did: the type is declared, and the change count
    /// is this one.
    pub fn set_data(&mut self, content: Text, kind: &Text, count: i64) -> bool
        ensures { (self.new, result) ≡ supplied self.old content kind.now count }
    {
        if !self.takes(kind, count) {
            return false;
        }
        self.types.set(kind, Some(content));
        true
    }

    /// The data of a type, or whom to ask for it.
    fn found(&self, kind: &Text) -> Result<BoardData, AllocError>
        ensures { IfOk result (λ found. found ≡ data_for self.now kind.now) }
    {
        match self.types.get(kind) {
            None => Ok(BoardData::Absent),
            Some(Some(content)) => Ok(BoardData::Here(content.clone()?)),
            Some(None) => match self.owner {
                Some(owner) => Ok(BoardData::Ask(owner)),
                None => Ok(BoardData::Absent),
            },
        }
    }

    /// The data of a type, or whom to ask for it, as the calls made so far tell it.
    pub fn data_for(&self, kind: &Text) -> Result<BoardData, AllocError>
        ensures value { IfOk result (λ found. found ≡ data_for self.now kind.now) }
        ensures meaning { (h : List Call) → self.now ≡ after h
            → IfOk result (λ found. found ≡ told_for h kind.now) }
    {
        self.found(kind)
    }

    /// The place of the first of these texts that is a declared type; none where there is none.
    pub fn available(&self, types: &Texts) -> Option<usize>
        ensures { result ≡ available self.now types.now }
    {
        types.as_slice().iter().position(|kind| self.has_type(kind))
    }

    /// The pasteboard that is kept under a name; none where there is none.
    pub fn named(&self, name: &Text) -> Option<Oid>
        ensures { result ≡ value_of self.now.boards name.now }
    {
        self.boards.get(name).copied()
    }

    /// Keeps a pasteboard under a name, and answers what is kept there now: a name keeps what it
    /// has.
    ///
    /// Where there are 256 names a new one is refused as `Full(256)`. On any error the pasteboard
    /// is unchanged.
    pub fn keep(&mut self, name: Text, board: Oid) -> Result<Oid, CoreFault>
        ensures done { IfOk result (λ kept. keeps self.old name board ≡ Some (self.new, kept)) }
        ensures fault { IfErr result (FaultOf 256 (keeps self.old name board)) }
        ensures err { OnErr result (self.new ≡ self.old) }
    {
        match self.named(&name) {
            Some(had) => Ok(had),
            None => {
                if self.boards.len() >= MAX_BOARDS {
                    return Err(CoreFault::Full(MAX_BOARDS as u64));
                }
                self.boards.add(name, board)?;
                Ok(board)
            }
        }
    }
}
