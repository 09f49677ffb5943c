//! Lends: kept and settled.
ghost use Rattle.std.specs.FinMap as map;
ghost use Rattle.std.specs.Prelude.{◌≡◌, ◌+◌, ◌<◌, ◌≤◌, ◌^◌, ◌-◌, ◌==◌, None, MatchOption};
ghost use Rattle.std.specs.Prelude.{if◌then◌else◌};
ghost use Rattle.do_export.specs.Counts.{count_of};
ghost use Rattle.do_import.specs.ByObject.{added, taken_off};

use super::Imports;
use do_base::{NodeId, Oid, Token};

impl Imports {
    /// Keeps a lend under the next number, in room that was made before, and tells its token.
    pub fn lend(&mut self, oid: Oid, borrower: NodeId) -> Token
        requires room { 0 < self.old.spare }
        requires linked { 0 < self.old.links }
        requires next { self.old.next < 2 ^ 63 }
        requires uses { count_of self.old.uses oid.node oid.serial < 2 ^ 64 - 1 }
        requires named { count_of self.old.named oid.node oid.serial < 2 ^ 64 - 1 }
        ensures token { result ≡ record { lender = self.old.own; number = self.old.next } }
        ensures same { self.new ≡ record self.old {
          uses = added self.old.uses oid;
          named = added self.old.named oid;
          lends = map.insert self.old.lends (borrower, self.old.next) oid;
          next = self.old.next + 1;
          spare = self.new.spare;
          links = self.new.links;
        } }
        ensures spare { self.old.spare ≤ self.new.spare + 1 }
        ensures links { self.old.links ≤ self.new.links + 1 }
    {
        let number = self.lends.lend(oid, borrower);
        self.holdings.refer(oid);
        self.named.add(oid);
        Token {
            lender: self.own,
            number,
        }
    }

    /// Ends an own lend to a borrower, and tells its object. None exactly where no such lend is
    /// kept, and then nothing changes.
    pub fn settle(&mut self, token: Token, borrower: NodeId) -> Option<Oid>
        ensures which { result ≡ (if token.lender == self.old.own
            then map.get self.old.lends (borrower, token.number) else None) }
        ensures same { MatchOption result (self.new ≡ record self.old {
          spare = self.new.spare;
          links = self.new.links;
        })
            (λ oid. self.new ≡ record self.old {
              uses = taken_off self.old.uses oid;
              named = taken_off self.old.named oid;
              lends = map.remove self.old.lends (borrower, token.number);
              spare = self.new.spare;
              links = self.new.links;
            }) }
        ensures spare { self.old.spare ≤ self.new.spare }
        ensures links { self.old.links ≤ self.new.links }
    {
        if token.lender != self.own {
            return None;
        }
        let Some(oid) = self.lends.object(token.number, borrower) else {
            return None;
        };
        self.lends.settle(token.number, borrower);
        self.holdings.take_off(oid);
        self.named.take_off(oid);
        Some(oid)
    }
}
