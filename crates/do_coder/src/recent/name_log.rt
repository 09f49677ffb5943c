//! The table of recent names while a message is read or written.
//!
//! The table is a log of pairs of which its 256 are the last, so that taking back a refused
//! message is two assignments and needs no memory. An ordered map finds a pair, with two places
//! of each: one in what was kept, and one in what is new. An entry counts only where the log
//! has the pair, so that taking back repairs nothing. When log or map has 4,096 entries both
//! are made anew; if memory runs out there, they go on as they are.
ghost use Rattle.std.specs.Prelude.{◌≡◌, ◌∷◌, ◌++◌, [], ◌<◌, length, get_or, None, IfOk, OnOk};
ghost use Rattle.std.specs.Prelude.{OnErr};
ghost use Rattle.do_coder.specs.{Recent.{pair, place_in, newest, IsRecent}, NameLog.Tables};

use crate::recent::index::{Places, append, find};
use crate::recent::pair::Pair;
use do_base::Items;
use std::alloc::{AllocError, Global};
use std::collections::BTreeMap;
use std::marker::Model;
use std::mem;

/// The most pairs of a table.
const MOST_PAIRS: usize = 256;

/// The length of a log or an index from which on it is made anew.
const LONG_LOG: usize = 4_096;

/// The table as it is now, and as it was before the message at hand.
///
/// Both are parts of one log, to which pairs are only added, so that keeping and undoing what was
/// added copies nothing.
#[derive(Debug, Drop)]
pub struct NameLog {
    log: Items<Pair>,
    start: usize,
    kept_start: usize,
    kept_end: usize,
    index: BTreeMap<Pair, Places>,
}

impl Model for NameLog {
    ghost use Rattle.std.specs.Prelude.{drop, take};
    ghost use Rattle.do_coder.specs.NameLog.{Tables, IsNameLog};

    ghost Value = { Tables };

    ghost view = { λ s. record
        { now = drop s.start s.log; kept = drop s.kept_start (take s.kept_end s.log) } };

    ghost invariant = { λ s. IsNameLog s.log s.start s.kept_start s.kept_end s.index };
}

impl NameLog {
    /// The empty table.
    pub fn new(alloc: Global) -> NameLog
        ensures { result ≡ record { now = []; kept = [] } }
    {
        NameLog {
            log: Items::new(alloc),
            start: 0,
            kept_start: 0,
            kept_end: 0,
            index: BTreeMap::new(alloc),
        }
    }

    /// The allocator that the log was made with.
    pub fn allocator(&self) -> Global {
        self.log.allocator()
    }

    /// How many pairs there are.
    pub fn len(&self) -> usize
        ensures value { result ≡ length self.now.now }
        ensures recent { IsRecent self.now.now }
    {
        self.log.len() - self.start
    }

    /// The pair at a place, from 0 at the oldest.
    pub fn at(&self, k: usize) -> Pair
        requires { k < length self.now.now }
        ensures { result ≡ get_or self.now.now k (pair 0 0) }
    {
        self.log.as_slice()[self.start + k]
    }

    /// The pairs, the oldest first.
    pub fn pairs(&self) -> &[Pair]
        ensures { result.now ≡ self.now.now }
    {
        &self.log.as_slice()[self.start..]
    }

    /// The place of a pair, from 0 at the oldest.
    pub fn place(&self, pair: &Pair) -> Option<usize>
        ensures { result ≡ place_in pair.now self.now.now }
    {
        find(self.log.as_slice(), self.start, &self.index, pair)
    }

    /// Adds a pair that isn't there, in place of the oldest of 257. If memory runs out the table is
    /// unchanged.
    pub fn add(&mut self, pair: Pair) -> Result<(), AllocError>
        requires { place_in pair self.old.now ≡ None }
        ensures ok { OnOk result (self.new ≡ record
            { now = newest 256 (self.old.now ++ pair ∷ []); kept = self.old.kept }) }
        ensures err { OnErr result (self.new ≡ self.old) }
    {
        append(
            &mut self.log,
            self.start,
            self.kept_start,
            self.kept_end,
            &mut self.index,
            pair,
        )?;
        if self.log.len() - self.start > MOST_PAIRS {
            self.start += 1;
        }
        Ok(())
    }

    /// Takes back what was added since the table was last kept.
    pub fn undo(&mut self)
        ensures { self.new ≡ record { now = self.old.kept; kept = self.old.kept } }
    {
        self.log.truncate(self.kept_end);
        self.start = self.kept_start;
    }

    /// Keeps what was added. A long log is made anew, if there is memory for it.
    pub fn keep(&mut self)
        ensures { self.new ≡ record { now = self.old.now; kept = self.old.now } }
    {
        self.settle();
        // The index also keeps pairs that were undone, and the log pairs that came more than once.
        if self.log.len() >= LONG_LOG || self.index.len() >= LONG_LOG {
            self.shorten();
        }
    }

    fn settle(&mut self)
        ensures { self.new ≡ record { now = self.old.now; kept = self.old.now } }
    {
        self.kept_start = self.start;
        self.kept_end = self.log.len();
    }

    fn shorten(&mut self)
        requires { self.old.kept ≡ self.old.now }
        ensures { self.new ≡ self.old }
    {
        if let Ok(fresh) = self.copy() {
            let _old = mem::replace(self, fresh);
        }
    }

    /// A log of the table as it is now, which is kept there.
    #[tactic(auto, using(crate::proofs::tables::NameLogLaws::copying))]
    pub fn copy(&self) -> Result<NameLog, AllocError>
        ensures { IfOk result (λ copy. copy ≡ record { now = self.now.now; kept = self.now.now }) }
    {
        let mut copy = NameLog::new(self.log.allocator());
        for place in 0..self.len() {
            copy.add(self.at(place))?;
        }
        copy.settle();
        Ok(copy)
    }
}
