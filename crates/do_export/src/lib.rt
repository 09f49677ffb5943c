//! How many names of its objects a node has sent to each peer and not had back.
//!
//! It stands on do_base and on do_sorted, which keeps the entries by peer and serial. It promises
//! each change of the counts exactly, that no count goes below zero, and that a name counts without
//! memory where there is room.
//!
//! A peer whose end closes is forgotten in one pass (`end_peer`); who wants its entries first
//! asks for them one by one (`next_entry`).
//!
//! `name`, `got`, `refer`, `lend` and `ask` ask for room and answer no error.
#![tactic(auto)]

ghost use Rattle.std.specs.FinMap as map;
ghost use Rattle.std.specs.Prelude.{◌≡◌, ◌+◌, ◌-◌, ◌<◌, ◌≤◌, ◌^◌, OnOk, OnErr, IfOk, IfErr};
ghost use Rattle.std.specs.Prelude.{MatchOption, MatchResult, if◌then◌else◌};
ghost use Rattle.do_export.specs.Counts.{count_of, raised, lowered, HasNone, IsLowest, HasNoneFrom};
ghost use Rattle.do_export.specs.Counts.{IsLowestFrom, IsPositive, others_of};

mod over_release;

use do_base::NodeId;
use do_sorted::Sorted;
pub use over_release::OverRelease;
use std::alloc::{AllocError, Global};
use std::marker::Model;

/// The counts of the names that each peer was sent and has not given back, and the room left.
///
/// An entry is a peer's port and an own serial. This is what Apple's documentation of Distributed
/// Objects leaves to the connection: an object that was vended stays as long as a proxy of it does.
#[derive(Debug, Drop)]
pub struct Exports {
    counts: Sorted<(u16, u64), u64>,
}

impl Model for Exports {
    ghost use Rattle.std.specs.FinMap as map;
    ghost use Rattle.do_export.specs.Counts.{Exported, exported_code, AreEntries};

    ghost Value = { Exported };

    ghost coded = { exported_code };

    ghost view = { λ e. record { counts = map.from_sorted e.counts.rows; spare = e.counts.spare } };

    ghost invariant = { λ e. AreEntries e.counts.rows };
}

impl Exports {
    /// No entry and no room, for which no memory is taken.
    pub fn new(alloc: Global) -> Exports
        ensures { result ≡ record { counts = map.empty; spare = 0 } }
    {
        Exports {
            counts: Sorted::new(alloc),
        }
    }

    /// Makes room for `more` entries at least.
    ///
    /// If memory runs out, the entries and the room are unchanged.
    pub fn reserve(&mut self, more: u64) -> Result<(), AllocError>
        ensures counts { self.new.counts ≡ self.old.counts }
        ensures ok { OnOk result (more ≤ self.new.spare) }
        ensures kept { self.old.spare ≤ self.new.spare }
        ensures err { OnErr result (self.new ≡ self.old) }
    {
        self.counts.reserve(more as usize)
    }

    /// How many more entries fit with no memory taken.
    pub fn spare(&self) -> u64
        ensures { result ≡ self.now.spare }
    {
        self.counts.spare() as u64
    }

    /// How many entries there are. Each counts something.
    pub fn len(&self) -> u64
        ensures many { result ≡ map.len self.now.counts }
        ensures positive { IsPositive self.now.counts }
    {
        self.counts.len() as u64
    }

    /// The count of an entry, 0 where there is none.
    pub fn count(&self, peer: NodeId, serial: u64) -> u64
        ensures { result ≡ count_of self.now.counts peer serial }
    {
        match self.counts.get(&(peer.port(), serial)) {
            Some(count) => *count,
            None => 0,
        }
    }

    /// Whether an object has an entry for the peer.
    pub fn has(&self, peer: NodeId, serial: u64) -> bool
        ensures { result ≡ map.contains_key self.now.counts (peer, serial) }
    {
        self.counts.has(&(peer.port(), serial))
    }

    /// Counts one more name that the peer is sent, in room that was made before.
    pub fn name(&mut self, peer: NodeId, serial: u64)
        requires room { 0 < self.old.spare }
        requires small { count_of self.old.counts peer serial < 2 ^ 64 - 1 }
        ensures counts { self.new.counts ≡ raised self.old.counts peer serial }
        ensures spare { self.new.spare
            + (if map.contains_key self.old.counts (peer, serial) then 0 else 1) ≡ self.old.spare }
    {
        let count = self.count(peer, serial);
        self.counts.put((peer.port(), serial), count + 1);
    }

    /// Takes off what the peer gave back, and tells what is left. At 0 the entry is gone.
    ///
    /// It is refused exactly where the peer gives back more names than it was sent.
    pub fn give_back(&mut self, peer: NodeId, serial: u64, n: u64) -> Result<u64, OverRelease>
        requires { 0 < n }
        ensures which { MatchResult result
            (λ left. (left + n ≡ count_of self.old.counts peer serial)
            × (self.new.counts ≡ lowered self.old.counts peer serial n))
            (λ over. (over.had < n) × (over.had ≡ count_of self.old.counts peer serial)
            × (over.asked ≡ n) × (self.new ≡ self.old)) }
        ensures spare { self.old.spare ≤ self.new.spare }
    {
        let had = self.count(peer, serial);
        if had < n {
            return Err(OverRelease { had, asked: n });
        }
        let left = had - n;
        if left == 0 {
            self.counts.remove(&(peer.port(), serial));
            return Ok(0);
        }
        self.counts.set(&(peer.port(), serial), left);
        Ok(left)
    }

    /// Takes out an entry, at any count.
    pub fn forget(&mut self, peer: NodeId, serial: u64)
        ensures counts { self.new.counts ≡ map.remove self.old.counts (peer, serial) }
        ensures spare { self.old.spare ≤ self.new.spare }
    {
        self.counts.remove(&(peer.port(), serial));
    }

    /// The peer's entry with the lowest serial from `from` on. None exactly where there is none.
    ///
    /// With `end_peer` it closes a peer of many entries: read each, then take all out at once.
    pub fn next_entry(&self, peer: NodeId, from: u64) -> Option<u64>
        ensures { MatchOption result (HasNoneFrom self.now.counts peer from)
            (IsLowestFrom self.now.counts peer from) }
    {
        let Some(&((port, serial), _)) = self.counts.first_from(&(peer.port(), from)) else {
            return None;
        };
        if port != peer.port() {
            return None;
        }
        Some(serial)
    }

    /// Takes out the peer's entry with the lowest serial, and tells the serial.
    ///
    /// None exactly where the peer has no entry.
    pub fn drop_next(&mut self, peer: NodeId) -> Option<u64>
        ensures which { MatchOption result
            (HasNone self.old.counts peer × (self.new ≡ self.old))
            (λ serial. IsLowest self.old.counts peer serial
            × (self.new.counts ≡ map.remove self.old.counts (peer, serial))) }
        ensures spare { self.old.spare ≤ self.new.spare }
    {
        let Some(serial) = self.next_entry(peer, 0) else {
            return None;
        };
        self.counts.remove(&(peer.port(), serial));
        Some(serial)
    }

    /// Takes out all entries of the peer in one go.
    pub fn end_peer(&mut self, peer: NodeId)
        ensures counts { self.new.counts ≡ others_of self.old.counts peer }
        ensures spare { self.old.spare ≤ self.new.spare }
    {
        let port = peer.port();
        self.counts.retain(|row| row.0.0 != port);
    }
}
