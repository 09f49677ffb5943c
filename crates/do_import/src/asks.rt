//! The objects that a node asked their homes for, by the tokens under which they were lent to it.
ghost use Rattle.std.specs.FinMap as map;
ghost use Rattle.std.specs.Prelude.{◌≡◌, ◌+◌, ◌<◌, ◌≤◌, not, OnOk, OnErr, MatchOption};
ghost use Rattle.std.specs.{Prelude.if◌then◌else◌, Option.option_copied};
ghost use Rattle.do_import.specs.Asked.{ask_key, HasNoAsk, IsLowestAsk};

use do_base::{NodeId, Oid, Token};
use do_class::ClassId;
use do_sorted::Sorted;
use std::alloc::{AllocError, Global};
use std::marker::Model;

/// The asks that are not answered yet, each with its object's class.
///
/// They are kept by home, lender, token number and serial, in this order.
#[derive(Debug, Drop)]
pub struct Asks {
    asks: Sorted<((NodeId, NodeId), (u64, u64)), ClassId>,
}

impl Model for Asks {
    ghost use Rattle.std.specs.FinMap as map;
    ghost use Rattle.std.specs.Prelude.{T};
    ghost use Rattle.do_import.specs.Asked.{Asked, asked_code, ask_cmp};

    ghost Value = { Asked };

    ghost coded = { asked_code };

    ghost view = { λ a. record { asks = map.from_sorted a.asks.rows; spare = a.asks.spare } };

    ghost invariant = { λ a. T (map.is_sorted ask_cmp a.asks.rows) };
}

impl Asks {
    /// No ask and no room, for which no memory is taken.
    pub fn new(alloc: Global) -> Asks
        ensures { result ≡ record { asks = map.empty; spare = 0 } }
    {
        Asks {
            asks: Sorted::new(alloc),
        }
    }

    /// Makes room for `more` asks at least.
    ///
    /// If memory runs out, the asks are unchanged.
    pub fn reserve(&mut self, more: u64) -> Result<(), AllocError>
        ensures asks { self.new.asks ≡ self.old.asks }
        ensures ok { OnOk result (more ≤ self.new.spare) }
        ensures kept { self.old.spare ≤ self.new.spare }
        ensures err { OnErr result (self.new ≡ self.old) }
    {
        self.asks.reserve(more as usize)
    }

    /// How many more asks fit with no memory taken.
    pub fn spare(&self) -> u64
        ensures { result ≡ self.now.spare }
    {
        self.asks.spare() as u64
    }

    /// How many asks are kept.
    pub fn len(&self) -> u64
        ensures { result ≡ map.len self.now.asks }
    {
        self.asks.len() as u64
    }

    /// Whether an ask is kept.
    pub fn has(&self, oid: Oid, token: Token) -> bool
        ensures { result ≡ map.contains_key self.now.asks (ask_key oid token) }
    {
        self.has_key(&key_of(oid, token))
    }

    /// The class that an ask has of its object. None exactly where no such ask is kept.
    pub fn class(&self, oid: Oid, token: Token) -> Option<ClassId>
        ensures { result ≡ map.get self.now.asks (ask_key oid token) }
    {
        self.class_at(&key_of(oid, token))
    }

    /// Keeps an ask, in room that was made before.
    ///
    /// False exactly where it is kept already, and then nothing changes.
    pub fn ask(&mut self, oid: Oid, token: Token, class: ClassId) -> bool
        requires { 0 < self.old.spare }
        ensures which { result ≡ not (map.contains_key self.old.asks (ask_key oid token)) }
        ensures asks { self.new.asks ≡ (if result
            then map.insert self.old.asks (ask_key oid token) class else self.old.asks) }
        ensures spare { self.old.spare ≤ self.new.spare + 1 }
    {
        let key = key_of(oid, token);
        if self.has_key(&key) {
            return false;
        }
        self.put(&key, class);
        true
    }

    /// Ends an ask. False exactly where it is not kept, and then nothing changes.
    pub fn end(&mut self, oid: Oid, token: Token) -> bool
        ensures which { result ≡ map.contains_key self.old.asks (ask_key oid token) }
        ensures asks { self.new.asks
            ≡ (if result then map.remove self.old.asks (ask_key oid token) else self.old.asks) }
        ensures spare { self.old.spare ≤ self.new.spare }
    {
        let key = key_of(oid, token);
        if !self.has_key(&key) {
            return false;
        }
        self.remove(&key);
        true
    }

    /// The lowest ask whose home is a peer: its object and token.
    ///
    /// None exactly where no ask has that home. The order is by lender, token number and serial.
    pub(crate) fn next_ask(&self, peer: NodeId) -> Option<(Oid, Token)>
        ensures { MatchOption result (HasNoAsk self.now.asks peer)
            (λ ask. (ask.0.node ≡ peer) × IsLowestAsk self.now.asks ask.0 ask.1) }
    {
        let Some(least) = NodeId::new(1) else {
            unreachable!();
        };
        let start = ((peer, least), (0, 0));
        let Some(&(((home, lender), (number, serial)), _)) = self.asks.first_from(&start) else {
            return None;
        };
        if home != peer {
            return None;
        }
        Some((Oid { node: home, serial }, Token { lender, number }))
    }

    /// Whether the ask of a key is kept.
    fn has_key(&self, key: &((NodeId, NodeId), (u64, u64))) -> bool
        ensures { result ≡ map.contains_key self.now.asks key.now }
    {
        self.asks.has(key)
    }

    /// The class of the ask of a key.
    fn class_at(&self, key: &((NodeId, NodeId), (u64, u64))) -> Option<ClassId>
        ensures { result ≡ map.get self.now.asks key.now }
    {
        self.asks.get(key).copied()
    }

    /// Keeps the ask of a key.
    fn put(&mut self, key: &((NodeId, NodeId), (u64, u64)), class: ClassId)
        requires { 0 < self.old.spare }
        ensures asks { self.new.asks ≡ map.insert self.old.asks key.now class }
        ensures spare { self.old.spare ≤ self.new.spare + 1 }
    {
        self.asks.put(*key, class);
    }

    /// Ends the ask of a key.
    fn remove(&mut self, key: &((NodeId, NodeId), (u64, u64)))
        ensures asks { self.new.asks ≡ map.remove self.old.asks key.now }
        ensures spare { self.old.spare ≤ self.new.spare }
    {
        self.asks.remove(key);
    }
}

/// The key of an ask.
fn key_of(oid: Oid, token: Token) -> ((NodeId, NodeId), (u64, u64))
    ensures { result ≡ ask_key oid token }
{
    ((oid.node, token.lender), (token.number, oid.serial))
}
