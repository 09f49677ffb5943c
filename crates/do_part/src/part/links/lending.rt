//! Lends: foreign objects that the node named to third nodes.
ghost use Rattle.std.specs.Prelude.{◌≡◌, ◌≢◌, ◌+◌, ◌<◌, ◌≤◌, ◌^◌, ◌∷◌, []};
ghost use Rattle.do_machine.specs.lend.Lending.{lending, with_settled};

use crate::part::Part;
use do_base::{NodeId, Oid, Token};

impl Part {
    /// Lends a foreign object to a borrower, in room that was made before, and tells the lend's
    /// number.
    pub fn lend(&mut self, oid: Oid, borrower: NodeId) -> u64
        requires foreign { oid.node ≢ self.old.own.node.port }
        requires room { 0 < self.old.room.names }
        requires linked { 0 < self.old.room.entries }
        requires next { self.old.own.node.next_token < 2 ^ 63 }
        ensures number { result ≡ self.old.own.node.next_token }
        ensures own { self.new.own ≡ record self.old.own {
          node = lending (record {
            number = self.old.own.node.next_token;
            object = oid;
            borrower = borrower;
          } ∷ []) self.old.own.node;
        } }
        ensures objects { self.new.room.objects ≡ self.old.room.objects }
        ensures invocations { self.new.room.invocations ≡ self.old.room.invocations }
        ensures names { self.old.room.names ≤ self.new.room.names + 1 }
        ensures entries { self.old.room.entries ≤ self.new.room.entries + 1 }
    {
        self.holders.imports.counts_are_tied();
        let token = self.holders.imports.lend(oid, borrower);
        self.holders.imports.counts_are_tied();
        self.holders.count_name();
        token.number
    }

    /// Ends a lend to a borrower. Where there is none of this number nothing changes.
    pub fn settle(&mut self, borrower: NodeId, number: u64)
        ensures own { self.new.own ≡ record self.old.own {
          node = with_settled borrower number self.old.own.node;
        } }
        ensures objects { self.new.room.objects ≡ self.old.room.objects }
        ensures invocations { self.new.room.invocations ≡ self.old.room.invocations }
        ensures names { self.old.room.names ≤ self.new.room.names }
        ensures entries { self.old.room.entries ≤ self.new.room.entries }
    {
        let lender = self.holders.node;
        self.holders.imports.counts_are_tied();
        self.holders
            .imports
            .settle(Token { lender, number }, borrower);
        self.holders.imports.counts_are_tied();
    }
}
