//! The part of a node: what a caller sees of it, and what it has at the start.
mod heap;
mod links;
mod reading;
mod reserving;
mod stack;

ghost use Rattle.std.specs.FinMap as map;
ghost use Rattle.std.specs.Prelude.{◌≡◌, ◌≤◌, [], None, IfOk, OnOk, OnErr, length, ℕ, ◌==◌};
ghost use Rattle.std.specs.List.{IsDistinct};

use crate::holders::Holders;
use do_base::{Items, NodeId, Peers};
use do_export::Exports;
use do_import::Imports;
use do_ported::Ports;
use do_stack::Stack;
use do_store::Store;
use std::alloc::{AllocError, Global};
use std::marker::Model;

/// What a node has of its own.
///
/// Contracts see do_machine's node, how many names of each own object each peer was sent and has
/// not given back, how many of each foreign object were received and not given back, the classes of
/// foreign objects, and the room left. Each count of holders and uses is kept beside and not seen.
#[derive(Drop)]
pub struct Part {
    holders: Holders,
    exports: Exports,
    stack: Stack,
    root: Option<u64>,
    next_call: u64,
    ends: Ports,
}

impl Model for Part {
    ghost use Rattle.do_machine.specs.contracts.node.Node as node;
    ghost use Rattle.do_part.specs.Owned.{Owned, owned_code};

    ghost Value = { Owned };

    ghost coded = { owned_code node.the_row.coded };

    ghost use Rattle.do_part.specs.{Seen.owned_of, Sound.IsSound};

    ghost view = { owned_of };

    ghost invariant = { IsSound };
}

impl Part {
    /// A part with no object, no invocation and no root, whose ends to these peers are open.
    pub fn new(alloc: Global, node: NodeId, ends: Peers) -> Result<Part, AllocError>
        requires few { length ends ≤ 64 }
        requires distinct { IsDistinct (λ (p q : ℕ). p == q) ends }
        ensures { IfOk result (λ p. p.own ≡ record {
          node = record {
            port = node;
            heap = [];
            root = None;
            stack = [];
            next_serial = 1;
            next_call = 1;
            next_token = 1;
            open_to = ends;
            held = [];
            lent = [];
            asked = [];
            late = [];
          };
          counts = map.empty;
          received = map.empty;
          classes = map.empty;
        }) }
    {
        let store = Store::new(alloc, node)?;
        Ok(Part {
            holders: Holders {
                node,
                store,
                imports: Imports::new(alloc, node),
                names: 0,
            },
            exports: Exports::new(alloc),
            stack: Stack::new(alloc),
            root: None,
            next_call: 1,
            ends: Ports::new(ends),
        })
    }
}
