//! What a part tells of its lends and asks.
ghost use Rattle.std.specs.FinMap as map;
ghost use Rattle.std.specs.{Prelude.{◌≡◌, ◌++◌, length, map as each, IfOk}, List.list_any};
ghost use Rattle.do_base.specs.names.Names.{ObjectName};
ghost use Rattle.do_packet.specs.Met.{has_object};
ghost use Rattle.do_machine.specs.{State.is_known, lend.Asking.{same_wanted, wanted}};
ghost use Rattle.do_machine.specs.lend.Lending.{is_lend};

use crate::part::Part;
use do_base::{NodeId, Oid, Oids, Token};
use std::alloc::AllocError;

impl Part {
    /// Whether a lend to a borrower is not settled.
    pub fn is_lent(&self, borrower: NodeId, number: u64) -> bool
        ensures { result ≡ list_any (is_lend borrower number) self.now.own.node.lent }
    {
        self.holders.imports.has_lend(borrower, number)
    }

    /// Whether an ask is not answered.
    pub fn is_asked(&self, oid: Oid, token: Token) -> bool
        ensures { result ≡ list_any (same_wanted (wanted oid token.lender token.number))
            self.now.own.node.asked }
    {
        self.holders.imports.has_ask(oid, token)
    }

    /// How many asks are not answered.
    pub fn asks(&self) -> u64
        ensures { result ≡ length self.now.own.node.asked }
    {
        self.holders.imports.all_asks()
    }

    /// A class is kept of just the objects that the node holds or asked for.
    pub fn classes_are_known(&self)
        ensures { (o : ObjectName) → is_known self.now.own.node o
            ≡ map.contains_key self.now.own.classes (o.node, o.serial) }
    {
        self.holders.imports.counts_are_tied();
    }

    /// The objects of the lends and asks, each once, by port and serial.
    pub fn named(&self) -> Result<Oids, AllocError>
        ensures { IfOk result (λ oids. (o : ObjectName) → has_object oids o
            ≡ has_object (each (λ l. l.object) self.now.own.node.lent
            ++ each (λ w. w.object) self.now.own.node.asked) o) }
    {
        self.holders.imports.counts_are_tied();
        self.holders.imports.named()
    }
}
