//! All that a node has of foreign objects: what it received, uses, lends and asks for.
//!
//! `Imports` is made of three parts, each exact: `Holdings`, `Lends`, `Asks`. `uses` counts
//! every reason to keep a foreign object: slots, invocations, lends and asks. `granted` asks
//! for room, as `got` does, since the object is then received. The counts of lends and asks by
//! object are shown beside the lends and asks, so that `named` and `class_of` look through
//! nothing.
mod asking;
mod ending;
mod lending;
mod using;

ghost use Rattle.std.specs.FinMap as map;
ghost use Rattle.std.specs.Prelude.{◌≡◌, ◌≤◌, ◌||◌, OnOk, IfOk, is_some, map as each};
ghost use Rattle.do_export.specs.Counts.{count_of, IsPositive};
ghost use Rattle.do_import.specs.{Asked.{CountsAsks, ask_key}, ByObject.object_of, Imported.IsTied};

use crate::asks::Asks;
use crate::by_object::ByObject;
use crate::holdings::Holdings;
use crate::lends::Lends;
use do_base::{NodeId, Oid, Oids, Token};
use do_class::ClassId;
use std::alloc::{AllocError, Global};
use std::marker::Model;

/// The foreign objects of a node, its lends to third nodes and its asks, with the room left.
///
/// Contracts see the counts of each object, the lends, the asks and the classes. A lend and an ask
/// use their object, so that it does not leave. A class is kept of each object that was received or
/// asked for, and the first class named stays for as long.
#[derive(Debug, Drop)]
pub struct Imports {
    own: NodeId,
    holdings: Holdings,
    named: ByObject<u64>,
    asked: ByObject<u64>,
    lends: Lends,
    asks: Asks,
    classes: ByObject<ClassId>,
}

impl Model for Imports {
    ghost use Rattle.do_import.specs.Imported.{Imported, imported_code, imported_of, IsTied};

    ghost Value = { Imported };

    ghost coded = { imported_code };

    ghost view = { λ i. imported_of i.own i.holdings i.named i.asked i.lends i.asks i.classes };

    ghost invariant = { λ i.
        IsTied (imported_of i.own i.holdings i.named i.asked i.lends i.asks i.classes) };
}

impl Imports {
    /// The imports of a node that has none yet, for which no memory is taken. Tokens are numbered
    /// from 1.
    pub fn new(alloc: Global, own: NodeId) -> Imports
        ensures own { result.own ≡ own }
        ensures received { result.received ≡ map.empty }
        ensures uses { result.uses ≡ map.empty }
        ensures named { result.named ≡ map.empty }
        ensures asked { result.asked ≡ map.empty }
        ensures lends { result.lends ≡ map.empty }
        ensures next { result.next ≡ 1 }
        ensures asks { result.asks ≡ map.empty }
        ensures classes { result.classes ≡ map.empty }
    {
        Imports {
            own,
            holdings: Holdings::new(alloc),
            named: ByObject::new(alloc),
            asked: ByObject::new(alloc),
            lends: Lends::new(alloc),
            asks: Asks::new(alloc),
            classes: ByObject::new(alloc),
        }
    }

    /// Makes room to use so many objects more at least, and for so many links: to receive, lend and
    /// ask for so many.
    ///
    /// If memory runs out, all but the room is unchanged.
    pub fn reserve(&mut self, uses: u64, links: u64) -> Result<(), AllocError>
        ensures same { self.new ≡ record self.old {
          spare = self.new.spare;
          links = self.new.links;
        } }
        ensures used { OnOk result (uses ≤ self.new.spare) }
        ensures linked { OnOk result (links ≤ self.new.links) }
        ensures spare { self.old.spare ≤ self.new.spare }
        ensures links { self.old.links ≤ self.new.links }
    {
        self.holdings.reserve(uses, links)?;
        self.named.reserve(links)?;
        self.asked.reserve(links)?;
        self.lends.reserve(links)?;
        self.asks.reserve(links)?;
        self.classes.reserve(links)
    }

    /// How many more objects can be used with no memory taken.
    pub fn spare(&self) -> u64
        ensures { result ≡ self.now.spare }
    {
        self.holdings.spare()
    }

    /// How many more objects, lends and asks fit with no memory taken, of whichever fewest fit.
    pub fn links(&self) -> u64
        ensures { result ≡ self.now.links }
    {
        let counts = self.named.spare().min(self.asked.spare());
        let rows = self.lends.spare().min(self.asks.spare());
        self.holdings
            .places()
            .min(counts)
            .min(rows)
            .min(self.classes.spare())
    }

    /// The number that the next lend gets.
    pub fn next_token(&self) -> u64
        ensures { result ≡ self.now.next }
    {
        self.lends.next_token()
    }

    /// The class of an object. None exactly where it was neither received nor asked for.
    pub fn class_of(&self, oid: Oid) -> Option<ClassId>
        ensures class { result ≡ map.get self.now.classes (oid.node, oid.serial) }
        ensures known { is_some result
            ≡ (map.contains_key self.now.received (oid.node, oid.serial)
            || map.contains_key self.now.asked (oid.node, oid.serial)) }
    {
        self.classes.get(oid.node, oid.serial)
    }

    /// How many objects were received and not given back. Each was received once at least.
    pub fn len(&self) -> u64
        ensures many { result ≡ map.len self.now.received }
        ensures positive { IsPositive self.now.received }
    {
        self.holdings.len()
    }

    /// How often an object was received and not given back.
    pub fn received(&self, oid: Oid) -> u64
        ensures { result ≡ count_of self.now.received oid.node oid.serial }
    {
        self.holdings.received(oid)
    }

    /// How often an object is used, lends and asks included. No object is kept that is used 0
    /// times.
    pub fn uses(&self, oid: Oid) -> u64
        ensures count { result ≡ count_of self.now.uses oid.node oid.serial }
        ensures positive { IsPositive self.now.uses }
    {
        self.holdings.uses(oid)
    }

    /// How many lends and asks are of an object.
    pub fn names(&self, oid: Oid) -> u64
        ensures { result ≡ count_of self.now.named oid.node oid.serial }
    {
        self.named.count(oid)
    }

    /// Whether a lend to a borrower is kept.
    pub fn has_lend(&self, borrower: NodeId, number: u64) -> bool
        ensures { result ≡ map.contains_key self.now.lends (borrower, number) }
    {
        self.lends.object(number, borrower).is_some()
    }

    /// Whether an ask is kept.
    pub fn has_ask(&self, oid: Oid, token: Token) -> bool
        ensures { result ≡ map.contains_key self.now.asks (ask_key oid token) }
    {
        self.asks.has(oid, token)
    }

    /// How many asks are kept, of all objects.
    pub fn all_asks(&self) -> u64
        ensures { result ≡ map.len self.now.asks }
    {
        self.asks.len()
    }

    /// How many asks are of an object. The counts are those of the asks.
    pub fn asks(&self, oid: Oid) -> u64
        ensures count { result ≡ count_of self.now.asked oid.node oid.serial }
        ensures counted { CountsAsks self.now.asked self.now.asks }
    {
        self.asked.count(oid)
    }

    /// The classes are those of what was received or asked for, lends and asks are counted by
    /// object, each lend has a number below the next one, and nothing is counted 0 times.
    pub fn counts_are_tied(&self)
        ensures tied { IsTied self.now }
        ensures received { IsPositive self.now.received }
        ensures used { IsPositive self.now.uses }
    {
        let _many = self.holdings.len();
    }

    /// The objects of the lends and asks, each once, by port and serial.
    pub fn named(&self) -> Result<Oids, AllocError>
        ensures { IfOk result (λ oids. oids ≡ each object_of (map.keys self.now.named)) }
    {
        self.named.objects()
    }
}
