//! Asks: kept, granted, and ended.
ghost use Rattle.std.specs.FinMap as map;
ghost use Rattle.std.specs.Prelude.{◌≡◌, ◌+◌, ◌<◌, ◌≤◌, ◌^◌, ◌-◌, ◌||◌, Some, MatchOption, not};
ghost use Rattle.std.specs.Prelude.{false, IsTrue, if◌then◌else◌};
ghost use Rattle.do_export.specs.Counts.{count_of};
ghost use Rattle.do_import.specs.Asked.{ask_key, HasNoAsk, IsLowestAsk};
ghost use Rattle.do_import.specs.ByObject.{added, taken_off, first_kept, left_of};
ghost use Rattle.do_class.specs.declared.ids.ClassId.{ClassId};

use super::Imports;
use crate::by_object::ByObject;
use crate::holdings::Holdings;
use do_base::{NodeId, Oid, Token};
use do_class::ClassId;

/// Whether the class of an object stays: it was received or asked for.
fn stays(holdings: &Holdings, asked: &ByObject<u64>, oid: Oid) -> bool
    ensures { result ≡ (map.contains_key holdings.now.received (oid.node, oid.serial)
        || map.contains_key asked.now.rows (oid.node, oid.serial)) }
{
    holdings.has(oid) || asked.has(oid.node, oid.serial)
}

impl Imports {
    /// Keeps an ask, in room that was made before.
    ///
    /// False exactly where it is kept already, and then nothing changes.
    pub fn ask(&mut self, oid: Oid, class: ClassId, token: Token) -> bool
        requires room { 0 < self.old.spare }
        requires linked { 0 < self.old.links }
        requires uses { count_of self.old.uses oid.node oid.serial < 2 ^ 64 - 1 }
        requires named { count_of self.old.named oid.node oid.serial < 2 ^ 64 - 1 }
        requires asked { count_of self.old.asked oid.node oid.serial < 2 ^ 64 - 1 }
        ensures which { result ≡ not (map.contains_key self.old.asks (ask_key oid token)) }
        ensures same { self.new ≡ (if result then record self.old {
          uses = added self.old.uses oid;
          named = added self.old.named oid;
          asked = added self.old.asked oid;
          asks = map.insert self.old.asks (ask_key oid token) class;
          classes = first_kept self.old.classes oid class;
          spare = self.new.spare;
          links = self.new.links;
        } else record self.old {
          spare = self.new.spare;
          links = self.new.links;
        }) }
        ensures spare { self.old.spare ≤ self.new.spare + 1 }
        ensures links { self.old.links ≤ self.new.links + 1 }
    {
        if !self.asks.ask(oid, token, class) {
            return false;
        }
        self.holdings.refer(oid);
        self.named.add(oid);
        self.asked.add(oid);
        self.classes.keep(oid, class);
        true
    }

    /// Ends the ask of an object, which was granted and counts as received once more.
    ///
    /// False exactly where no such ask is kept, and then nothing changes.
    pub fn granted(&mut self, oid: Oid, token: Token) -> bool
        requires linked { 0 < self.old.links }
        requires small { count_of self.old.received oid.node oid.serial < 2 ^ 64 - 1 }
        ensures which { result ≡ map.contains_key self.old.asks (ask_key oid token) }
        ensures none { result ≡ false → self.new ≡ self.old }
        ensures same { (class : ClassId)
            → map.get self.old.asks (ask_key oid token) ≡ Some class
            → self.new ≡ record self.old {
              received = added self.old.received oid;
              uses = taken_off self.old.uses oid;
              named = taken_off self.old.named oid;
              asked = taken_off self.old.asked oid;
              asks = map.remove self.old.asks (ask_key oid token);
              classes = first_kept self.old.classes oid class;
              spare = self.new.spare;
              links = self.new.links;
            } }
        ensures spare { self.old.spare ≤ self.new.spare }
        ensures links { self.old.links ≤ self.new.links + 1 }
    {
        let Some(class) = self.asks.class(oid, token) else {
            return false;
        };
        self.asks.end(oid, token);
        self.holdings.take_off(oid);
        self.named.take_off(oid);
        self.asked.take_off(oid);
        self.holdings.got(oid);
        self.classes.keep(oid, class);
        true
    }

    /// Ends an ask that is kept, and forgets its object's class unless it stays.
    fn end_ask(&mut self, oid: Oid, token: Token)
        requires { IsTrue (map.contains_key self.old.asks (ask_key oid token)) }
        ensures same { self.new ≡ record self.old {
          uses = taken_off self.old.uses oid;
          named = taken_off self.old.named oid;
          asked = taken_off self.old.asked oid;
          asks = map.remove self.old.asks (ask_key oid token);
          classes = left_of self.old.classes oid
              (map.contains_key self.old.received (oid.node, oid.serial)
              || map.contains_key (taken_off self.old.asked oid) (oid.node, oid.serial));
          spare = self.new.spare;
          links = self.new.links;
        } }
        ensures spare { self.old.spare ≤ self.new.spare }
        ensures links { self.old.links ≤ self.new.links }
    {
        self.asks.end(oid, token);
        self.holdings.take_off(oid);
        self.named.take_off(oid);
        self.asked.take_off(oid);
        let stays = stays(&self.holdings, &self.asked, oid);
        self.classes.leave(oid, stays);
    }

    /// Ends the ask of an object that is gone. False exactly where no such ask is kept, and then
    /// nothing changes.
    pub fn gone(&mut self, oid: Oid, token: Token) -> bool
        ensures which { result ≡ map.contains_key self.old.asks (ask_key oid token) }
        ensures same { self.new ≡ (if result then record self.old {
          uses = taken_off self.old.uses oid;
          named = taken_off self.old.named oid;
          asked = taken_off self.old.asked oid;
          asks = map.remove self.old.asks (ask_key oid token);
          classes = left_of self.old.classes oid
              (map.contains_key self.old.received (oid.node, oid.serial)
              || map.contains_key (taken_off self.old.asked oid) (oid.node, oid.serial));
          spare = self.new.spare;
          links = self.new.links;
        } else record self.old {
          spare = self.new.spare;
          links = self.new.links;
        }) }
        ensures spare { self.old.spare ≤ self.new.spare }
        ensures links { self.old.links ≤ self.new.links }
    {
        if !self.asks.has(oid, token) {
            return false;
        }
        self.end_ask(oid, token);
        true
    }

    /// Ends the lowest ask whose home is a peer, and tells its object and token.
    ///
    /// None exactly where no ask has that home. The order is by lender, token number and serial.
    pub fn ended_ask(&mut self, home: NodeId) -> Option<(Oid, Token)>
        ensures which { MatchOption result
            (HasNoAsk self.old.asks home × (self.new ≡ self.old))
            (λ ask. (ask.0.node ≡ home) × IsLowestAsk self.old.asks ask.0 ask.1
            × (self.new ≡ record self.old {
              uses = taken_off self.old.uses ask.0;
              named = taken_off self.old.named ask.0;
              asked = taken_off self.old.asked ask.0;
              asks = map.remove self.old.asks (ask_key ask.0 ask.1);
              classes = left_of self.old.classes ask.0
                  (map.contains_key self.old.received (ask.0.node, ask.0.serial)
                  || map.contains_key (taken_off self.old.asked ask.0)
                  (ask.0.node, ask.0.serial));
              spare = self.new.spare;
              links = self.new.links;
            })) }
        ensures spare { self.old.spare ≤ self.new.spare }
        ensures links { self.old.links ≤ self.new.links }
    {
        let Some((oid, token)) = self.asks.next_ask(home) else {
            return None;
        };
        self.end_ask(oid, token);
        Some((oid, token))
    }
}
