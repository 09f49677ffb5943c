//! Asks: what the node was lent and asked the home for.
ghost use Rattle.std.specs.Prelude.{◌≡◌, ◌≢◌, ◌+◌, ◌<◌, ◌≤◌, not, true, if◌then◌else◌};
ghost use Rattle.std.specs.List.{list_any};
ghost use Rattle.do_import.specs.ByObject.{added, first_kept};
ghost use Rattle.do_machine.specs.Objects.{joined};
ghost use Rattle.do_machine.specs.lend.Asking.{same_wanted, wanted, with_wanted, without_wanted};
ghost use Rattle.do_network.specs.Counting.{of_known};

use crate::part::Part;
use do_base::{Oid, Token};
use do_class::ClassId;

impl Part {
    /// Keeps an ask, in room that was made before. False exactly where it is kept already, and then
    /// nothing changes.
    pub fn ask_home(&mut self, oid: Oid, class: ClassId, token: Token) -> bool
        requires foreign { oid.node ≢ self.old.own.node.port }
        requires room { 0 < self.old.room.names }
        requires linked { 0 < self.old.room.entries }
        ensures which { result
            ≡ not (list_any (same_wanted (wanted oid token.lender token.number))
            self.old.own.node.asked) }
        ensures own { self.new.own ≡ (if result then record self.old.own {
          node = with_wanted (wanted oid token.lender token.number) self.old.own.node;
          classes = first_kept self.old.own.classes oid class;
        } else self.old.own) }
        ensures objects { self.new.room.objects ≡ self.old.room.objects }
        ensures invocations { self.new.room.invocations ≡ self.old.room.invocations }
        ensures names { self.old.room.names ≤ self.new.room.names + 1 }
        ensures entries { self.old.room.entries ≤ self.new.room.entries + 1 }
    {
        let _lender = token.lender.port();
        self.holders.imports.counts_are_tied();
        let asked = self.holders.imports.ask(oid, class, token);
        self.holders.imports.counts_are_tied();
        self.holders.count_name();
        asked
    }

    /// Ends an ask that was granted, in room that was made before: its object counts as received
    /// once more.
    pub fn granted(&mut self, oid: Oid, token: Token)
        requires room { 0 < self.old.room.names }
        requires linked { 0 < self.old.room.entries }
        requires asked { list_any (same_wanted (wanted oid token.lender token.number))
            self.old.own.node.asked ≡ true }
        ensures own { self.new.own ≡ record self.old.own {
          node = without_wanted (wanted oid token.lender token.number)
              (record self.old.own.node { held = joined self.old.own.node.held oid });
          received = added self.old.own.received oid;
        } }
        ensures objects { self.new.room.objects ≡ self.old.room.objects }
        ensures invocations { self.new.room.invocations ≡ self.old.room.invocations }
        ensures names { self.old.room.names ≤ self.new.room.names + 1 }
        ensures entries { self.old.room.entries ≤ self.new.room.entries + 1 }
    {
        self.holders.imports.counts_are_tied();
        self.holders.imports.granted(oid, token);
        self.holders.imports.counts_are_tied();
        self.holders.count_name();
    }

    /// Ends the ask of an object that is gone. Its class is forgotten, unless it is known
    /// otherwise. Where there is no such ask nothing changes.
    pub fn gone(&mut self, oid: Oid, token: Token)
        ensures own { self.new.own ≡ record self.old.own {
          node = without_wanted (wanted oid token.lender token.number) self.old.own.node;
          classes = of_known (without_wanted (wanted oid token.lender token.number)
              self.old.own.node) self.old.own.classes;
        } }
        ensures objects { self.new.room.objects ≡ self.old.room.objects }
        ensures invocations { self.new.room.invocations ≡ self.old.room.invocations }
        ensures names { self.old.room.names ≤ self.new.room.names }
        ensures entries { self.old.room.entries ≤ self.new.room.entries }
    {
        self.holders.imports.counts_are_tied();
        self.holders.imports.gone(oid, token);
        self.holders.imports.counts_are_tied();
    }
}
