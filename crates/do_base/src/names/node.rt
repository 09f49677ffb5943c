//! The names of nodes, objects, calls and loans.
ghost use Rattle.std.specs.Prelude.{◌≡◌, ◌<◌, ◌↔◌, ℕ, IsNone, IfSome};

use crate::lists::exact::{ExactClone, ExactEq};
use crate::lists::items::Items;
use std::marker::Model;

/// A node, named by its port, which contracts see as that number.
///
/// Ports are 1 to 65,535, and 0 is none. They are TCP ports of this machine, as those of Apple's
/// `NSSocketPort`.
#[derive(Clone, Copy, Debug, PartialEq, Eq, PartialOrd, Ord)]
pub struct NodeId {
    port: u16,
}

impl Model for NodeId {
    ghost Value = { ℕ };

    ghost view = { λ n. n.port };

    ghost invariant = { λ n. 0 < n.port };

    ghost inverse = { λ p. record { port = p } };
}

impl NodeId {
    /// The node at a port. None exactly for 0.
    pub fn new(port: u16) -> Option<NodeId>
        ensures none { IsNone result ↔ (port ≡ 0) }
        ensures some { IfSome result (λ n. n ≡ port) }
    {
        if port == 0 {
            None
        } else {
            Some(NodeId { port })
        }
    }

    /// The node's port, 1 to 65,535.
    pub fn port(&self) -> u16
        ensures value { result ≡ self.now }
        ensures above { 0 < result }
    {
        self.port
    }
}

/// An object, named by its home and its serial there.
///
/// A home gives each serial once, from 1. The form is this project's own, for what GNUstep's
/// `NSDistantObject` calls a target of a connection.
#[derive(Clone, Copy, Debug, PartialEq, Eq, PartialOrd, Ord)]
pub struct Oid {
    /// The object's home, where it lives.
    pub node: NodeId,
    /// Its number there.
    pub serial: u64,
}

impl Model for Oid {
    ghost use Rattle.do_base.specs.names.Names.{ObjectName};

    ghost Value = { ObjectName };

    ghost view = { λ o. record { node = o.node; serial = o.serial } };

    ghost inverse = { λ o. record { node = o.node; serial = o.serial } };
}

impl ExactClone for NodeId {
    ghost exact_clone = { λ x y e. e };
}

impl ExactClone for Oid {
    ghost exact_clone = { λ x y e. e };
}

impl ExactEq for NodeId {
    ghost use Rattle.std.proofs.Common.{rules};

    ghost exact_eq = { λ x y. Prim.search rules };
}

impl ExactEq for Oid {
    ghost use Rattle.std.proofs.Common.{rules};

    ghost exact_eq = { λ x y. Prim.search rules };
}

/// A list of nodes.
pub type Peers = Items<NodeId>;

/// A list of objects.
pub type Oids = Items<Oid>;

/// A call, named by the node that made it and its number there.
///
/// A node gives each number once, from 1. The form is this project's own.
#[derive(Clone, Copy, Debug, PartialEq, Eq, PartialOrd, Ord)]
pub struct CallId {
    /// The caller.
    pub node: NodeId,
    /// The call's number there.
    pub number: u64,
}

impl Model for CallId {
    ghost use Rattle.do_base.specs.names.Names.{CallName};

    ghost Value = { CallName };

    ghost view = { λ o. record { node = o.node; number = o.number } };

    ghost inverse = { λ o. record { node = o.node; number = o.number } };
}

impl ExactClone for CallId {
    ghost exact_clone = { λ x y e. e };
}

impl ExactEq for CallId {
    ghost use Rattle.std.proofs.Common.{rules};

    ghost exact_eq = { λ x y. Prim.search rules };
}

/// A loan of an object's name to a third node, named by the lender and its number there.
///
/// A lender gives each number once, from 1. The form is this project's own.
#[derive(Clone, Copy, Debug, PartialEq, Eq, PartialOrd, Ord)]
pub struct Token {
    /// The node that named the object.
    pub lender: NodeId,
    /// The loan's number there.
    pub number: u64,
}

impl Model for Token {
    ghost use Rattle.do_base.specs.names.Names.{TokenName};

    ghost Value = { TokenName };

    ghost view = { λ o. record { lender = o.lender; number = o.number } };

    ghost inverse = { λ o. record { lender = o.lender; number = o.number } };
}

impl ExactClone for Token {
    ghost exact_clone = { λ x y e. e };
}

impl ExactEq for Token {
    ghost use Rattle.std.proofs.Common.{rules};

    ghost exact_eq = { λ x y. Prim.search rules };
}
