//! What is asked of a node.
ghost use Rattle.std.specs.{Prelude.◌≡◌, Option.option_copied};
ghost use Rattle.do_packet.specs.Met.{has_object};
ghost use Rattle.do_machine.specs.Context.{own_class};
ghost use Rattle.do_machine.specs.State.{has_asked, holds, is_known, is_open, own, stored};
ghost use Rattle.do_machine.specs.{run.Fresh.is_full, take.Take.{can_serve, can_take}};

pub(crate) mod methods;
pub(crate) mod named;
pub(crate) mod naming;
pub(crate) mod objects;

use crate::lists::{Test, has};
use do_base::{Items, NodeId, Oid, Oids};
use do_behave::{InvState, Invocation};
use do_class::ClassId;
use do_machine::{Heap, Node, Shared, Stored, Wanted};

/// The most invocations of a node.
const MOST: usize = 256;

impl Test<NodeId> for NodeId {
    ghost use Rattle.std.specs.Prelude.{◌==◌};

    ghost passes = { λ node other. other == node };

    fn passes(&self, other: &NodeId) -> bool {
        *other == *self
    }
}

impl Test<Oid> for Oid {
    ghost use Rattle.do_packet.specs.Met.{same_object};

    ghost passes = { same_object };

    fn passes(&self, other: &Oid) -> bool {
        *self == *other
    }
}

impl Test<Wanted> for Oid {
    ghost use Rattle.do_packet.specs.Met.{same_object};

    ghost passes = { λ object wanted. same_object object wanted.object };

    fn passes(&self, wanted: &Wanted) -> bool {
        *self == wanted.object
    }
}

/// Whether the node's end towards a peer is open.
pub fn is_open(node: &Node, peer: NodeId) -> bool
    ensures { result ≡ is_open node.now peer }
{
    has(node.open_to.as_slice(), &peer)
}

/// Whether an object is among others.
pub fn has_object(objects: &Oids, object: &Oid) -> bool
    ensures { result ≡ has_object objects.now object.now }
{
    has(objects.as_slice(), object)
}

/// Whether the node counts as a holder of a foreign object.
pub(crate) fn holds(node: &Node, object: &Oid) -> bool
    ensures { result ≡ holds node.now object.now }
{
    has_object(&node.held, object)
}

/// Whether the node waits for a foreign object's home to let it hold it.
fn has_asked(node: &Node, object: &Oid) -> bool
    ensures { result ≡ has_asked node.now object.now }
{
    has(node.asked.as_slice(), object)
}

/// Whether the node may use a foreign object.
pub(crate) fn is_known(node: &Node, object: &Oid) -> bool
    ensures { result ≡ is_known node.now object.now }
{
    holds(node, object) || has_asked(node, object)
}

/// The name of an own object.
pub fn own(node: &Node, serial: u64) -> Oid
    ensures { result ≡ own node.now serial }
{
    Oid {
        node: node.port,
        serial,
    }
}

/// The stored object of a serial, as it is shared.
fn shared(heap: &Heap, serial: u64) -> Option<&Shared<Stored>>
    ensures { option_copied result ≡ stored serial heap.now }
{
    heap.as_slice()
        .iter()
        .find(|stored| stored.get().serial == serial)
}

/// The stored object of a serial.
pub(crate) fn stored(heap: &Heap, serial: u64) -> Option<&Stored>
    ensures { option_copied result ≡ stored serial heap.now }
{
    match shared(heap, serial) {
        Some(stored) => Some(stored.get()),
        None => None,
    }
}

/// The class of an own object.
pub(crate) fn own_class(node: &Node, serial: u64) -> Option<ClassId>
    ensures { result ≡ own_class node.now serial }
{
    match stored(node.heap.get(), serial) {
        Some(stored) => Some(stored.class),
        None => None,
    }
}

/// Whether the node has as many invocations as it may have.
pub(crate) fn is_full(node: &Node) -> bool
    ensures { result ≡ is_full node.now }
{
    node.stack.len() >= MOST
}

/// Whether there is no invocation, or the top one waits.
fn can_serve(stack: &Items<Invocation>) -> bool
    ensures { result ≡ can_serve stack.now }
{
    let [top, ..] = stack.as_slice() else {
        return true;
    };
    match &top.state {
        InvState::Waits { .. } => true,
        InvState::Running => false,
        InvState::Below => false,
        InvState::Answered(_) => false,
    }
}

/// Whether a node may take an item of a peer: its end is open, and it can serve.
pub fn can_take(node: &Node, from: NodeId) -> bool
    ensures { result ≡ can_take from node.now }
{
    is_open(node, from) && can_serve(&node.stack)
}
