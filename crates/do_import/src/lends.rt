//! The names of foreign objects that a node lent to third nodes.
ghost use Rattle.std.specs.FinMap as map;
ghost use Rattle.std.specs.Prelude.{◌≡◌, ◌+◌, ◌<◌, ◌≤◌, ◌^◌, is_some, OnOk, OnErr, MatchOption};
ghost use Rattle.std.specs.{Prelude.{Some, if◌then◌else◌, slice_get, length}, Option.option_copied};
ghost use Rattle.do_export.specs.Counts.{HasNoneFrom, IsLowestFrom, others_of};

use do_base::{NodeId, Oid};
use do_sorted::Sorted;
use std::alloc::{AllocError, Global};
use std::marker::Model;

/// The lends that are not settled, with the next token's number and the room left.
///
/// A lend is kept under its borrower's port and the token's number, and has the object that was
/// lent.
#[derive(Debug, Drop)]
pub struct Lends {
    lends: Sorted<(u16, u64), Oid>,
    next: u64,
}

impl Model for Lends {
    ghost use Rattle.std.specs.FinMap as map;
    ghost use Rattle.std.specs.Prelude.{T};
    ghost use Rattle.do_export.specs.Counts.{entry_cmp};
    ghost use Rattle.do_import.specs.Lent.{Lent, lent_code};

    ghost Value = { Lent };

    ghost coded = { lent_code };

    ghost view = { λ l.
        record { lends = map.from_sorted l.lends.rows; next = l.next; spare = l.lends.spare } };

    ghost invariant = { λ l. T (map.is_sorted entry_cmp l.lends.rows) };
}

impl Lends {
    /// No lend and no room, for which no memory is taken. Tokens are numbered from 1.
    pub fn new(alloc: Global) -> Lends
        ensures { result ≡ record { lends = map.empty; next = 1; spare = 0 } }
    {
        Lends {
            lends: Sorted::new(alloc),
            next: 1,
        }
    }

    /// The number that the next lend gets.
    pub fn next_token(&self) -> u64
        ensures { result ≡ self.now.next }
    {
        self.next
    }

    /// Makes room for `more` lends at least.
    ///
    /// If memory runs out, the lends are unchanged.
    pub fn reserve(&mut self, more: u64) -> Result<(), AllocError>
        ensures lends { self.new.lends ≡ self.old.lends }
        ensures next { self.new.next ≡ self.old.next }
        ensures ok { OnOk result (more ≤ self.new.spare) }
        ensures kept { self.old.spare ≤ self.new.spare }
        ensures err { OnErr result (self.new ≡ self.old) }
    {
        self.lends.reserve(more as usize)
    }

    /// How many more lends fit with no memory taken.
    pub fn spare(&self) -> u64
        ensures { result ≡ self.now.spare }
    {
        self.lends.spare() as u64
    }

    /// Keeps a lend under the next number, in room that was made before, and tells the number.
    pub fn lend(&mut self, oid: Oid, borrower: NodeId) -> u64
        requires room { 0 < self.old.spare }
        requires small { self.old.next < 2 ^ 63 }
        ensures token { result ≡ self.old.next }
        ensures lends { self.new.lends
            ≡ map.insert self.old.lends (borrower, self.old.next) oid }
        ensures next { self.new.next ≡ self.old.next + 1 }
        ensures spare { self.old.spare ≤ self.new.spare + 1 }
    {
        let token = self.next;
        self.lends.put((borrower.port(), token), oid);
        self.next = token + 1;
        token
    }

    /// Ends a lend to a borrower, and tells its object. None exactly where no such lend is kept.
    pub fn settle(&mut self, token: u64, borrower: NodeId) -> Option<Oid>
        ensures which { result ≡ map.get self.old.lends (borrower, token) }
        ensures lends { self.new.lends ≡ map.remove self.old.lends (borrower, token) }
        ensures next { self.new.next ≡ self.old.next }
        ensures spare { self.old.spare ≤ self.new.spare }
    {
        self.lends.remove(&(borrower.port(), token))
    }

    /// The object of a lend to a borrower. None exactly where no such lend is kept.
    pub fn object(&self, token: u64, borrower: NodeId) -> Option<Oid>
        ensures { result ≡ map.get self.now.lends (borrower, token) }
    {
        self.lends.get(&(borrower.port(), token)).copied()
    }

    /// How many lends there are.
    pub(crate) fn len(&self) -> usize
        ensures { result ≡ length (map.entries self.now.lends) }
    {
        self.lends.len()
    }

    /// The lend at a place, by borrower and number. None exactly from their number on.
    pub(crate) fn row(&self, at: usize) -> Option<&((u16, u64), Oid)>
        ensures { option_copied result ≡ slice_get (map.entries self.now.lends) at }
    {
        self.lends.row(at)
    }

    /// The number of the borrower's first lend from `from` on. None exactly where there is none.
    ///
    /// With `end_peer` it ends all lends to a peer: read each, and then take all out at once.
    pub(crate) fn next_lend(&self, borrower: NodeId, from: u64) -> Option<u64>
        ensures { MatchOption result (HasNoneFrom self.now.lends borrower from)
            (IsLowestFrom self.now.lends borrower from) }
    {
        let Some(&((port, token), _)) = self.lends.first_from(&(borrower.port(), from)) else {
            return None;
        };
        if port != borrower.port() {
            return None;
        }
        Some(token)
    }

    /// Ends all lends to a peer in one go.
    pub fn end_peer(&mut self, borrower: NodeId)
        ensures lends { self.new.lends ≡ others_of self.old.lends borrower }
        ensures next { self.new.next ≡ self.old.next }
        ensures spare { self.old.spare ≤ self.new.spare }
    {
        let port = borrower.port();
        self.lends.retain(|row| row.0.0 != port);
    }
}
