//! The names that a peer's frames named lately, whose table is handed out to a reader.
//!
//! A frame that was read changes the names of its link only when it is kept. A frame that may
//! name objects is read into the link's own table, which is handed out for it. Meanwhile the
//! link keeps the names as a flat list, 256 at most. The table comes back with the frame that
//! is kept, and is made anew of the list only behind a frame that was dropped. One of any other
//! kind needs neither.
ghost use Rattle.std.specs.Prelude.{◌≡◌, [], IfOk};
ghost use Rattle.do_coder.specs.Recent.{IsRecent};
ghost use Rattle.do_streams.specs.Names.{pairs_of};

use do_base::Items;
use do_coder::{NameLog, Pair, Recent};
use std::alloc::{AllocError, Global};
use std::marker::Model;
use std::mem;

/// How names are held.
#[derive(Drop)]
pub enum Held {
    /// In a table.
    Table(Recent),
    /// As a list: their table was handed out, and none was put back yet.
    Listed(Items<Pair>),
}

/// The names that a peer's frames named lately.
///
/// A frame is read into their table, which is handed out for it and put back once the frame is
/// kept. Until then the names stay as they are, as a flat list of at most 256 pairs, which is far
/// cheaper than a copy of the table. A table is made of the list only behind a frame that was
/// dropped.
///
/// Contracts see the names as the list of their pairs, the oldest first.
#[derive(Drop)]
pub struct Names {
    held: Held,
}

impl Model for Names {
    ghost use Rattle.std.specs.Prelude.{List};
    ghost use Rattle.do_coder.specs.{declared.recent.pair.Pair.Pair, Recent.IsRecent};
    ghost use Rattle.do_streams.specs.Names.{pairs_of};

    ghost Value = { List Pair };

    ghost view = { λ n. pairs_of n.held };

    ghost invariant = { λ n. IsRecent (pairs_of n.held) };
}

/// The pairs of a table, as a list.
fn listed(table: &mut Recent) -> Result<Items<Pair>, AllocError>
    ensures pairs { IfOk result (λ pairs. pairs ≡ table.old) }
    ensures same { table.new ≡ table.old }
{
    let log = table.take_log();
    let pairs = Items::from_slice(log.allocator(), log.pairs());
    table.keep(log);
    pairs
}

/// The table of a list of pairs.
#[tactic(auto, using(do_coder::proofs::tables::NameLogLaws::copying))]
fn table_of(pairs: &Items<Pair>) -> Result<Recent, AllocError>
    requires { IsRecent pairs.now }
    ensures { IfOk result (λ table. table ≡ pairs.now) }
{
    let alloc = pairs.allocator();
    let mut log = NameLog::new(alloc);
    for pair in pairs.as_slice() {
        log.add(*pair)?;
    }
    let mut table = Recent::new(alloc);
    table.keep(log);
    Ok(table)
}

/// A list of the pairs that are held.
fn pairs_in(held: &mut Held) -> Result<Items<Pair>, AllocError>
    ensures pairs { IfOk result (λ pairs. pairs ≡ pairs_of held.old) }
    ensures same { pairs_of held.new ≡ pairs_of held.old }
{
    match held {
        Held::Table(table) => listed(table),
        Held::Listed(pairs) => Items::from_slice(pairs.allocator(), pairs.as_slice()),
    }
}

impl Names {
    /// No names, for which no memory is taken.
    pub fn new(alloc: Global) -> Names
        ensures { result ≡ [] }
    {
        Names {
            held: Held::Table(Recent::new(alloc)),
        }
    }

    /// Hands out the table of the names, which stay as they are.
    pub(crate) fn hand_out(&mut self) -> Result<Recent, AllocError>
        ensures table { IfOk result (λ table. table ≡ self.old) }
        ensures same { self.new ≡ self.old }
    {
        let pairs = pairs_in(&mut self.held)?;
        match mem::replace(&mut self.held, Held::Listed(pairs)) {
            Held::Table(table) => Ok(table),
            Held::Listed(pairs) => table_of(&pairs),
        }
    }

    /// A table of the names, which stay as they are.
    pub fn copy(&self) -> Result<Recent, AllocError>
        ensures { IfOk result (λ table. table ≡ self.now) }
    {
        match &self.held {
            Held::Table(table) => table.copy(),
            Held::Listed(pairs) => table_of(pairs),
        }
    }

    /// Puts a table in the place of the names, for which no memory is taken.
    pub fn put(&mut self, table: Recent)
        ensures { self.new ≡ table }
    {
        let _few = table.len();
        self.held = Held::Table(table);
    }
}
