//! What one step of a node does. A step begins with the node as it is, and does one thing after
//! another; if memory runs out, what it did so far is dropped.
ghost use Rattle.std.specs.Prelude.{◌≡◌, IfOk, IsOk, OnOk};
ghost use Rattle.do_machine.specs.Effect.{only, queueing, showing};
ghost use Rattle.do_rules.specs.Doing.{and_then};

use do_base::{Items, NodeId, Shown, ShownList};
use do_machine::{Effect, Item, Node, Parcel, Shared};
use std::alloc::AllocError;

/// Whether what changes its argument was done; its one error is that memory ran out, or that a
/// number would pass what a machine can count.
pub(crate) type Done = Result<(), AllocError>;

/// The node as it is; nothing is sent, and nothing shown.
pub(crate) fn unchanged(node: &Node) -> Result<Effect, AllocError>
    ensures { IfOk result (λ e. e ≡ only node.now) }
{
    let alloc = node.stack.allocator();
    let node = node.clone()?;
    Ok(Effect {
        node,
        sent: Items::new(alloc),
        shown: ShownList::new(alloc),
    })
}

/// Queues one item to a peer.
pub(crate) fn queue(effect: &mut Effect, peer: NodeId, item: Item) -> Done
    ensures { OnOk result (effect.new ≡ and_then effect.old (queueing peer item)) }
{
    let item = Shared::new(effect.node.stack.allocator(), item)?;
    effect.sent.push(Parcel { to: peer, item })
}

/// Shows one thing.
pub(crate) fn show(effect: &mut Effect, line: Shown) -> Done
    ensures { OnOk result (effect.new ≡ and_then effect.old (showing line)) }
{
    effect.shown.push(line)
}

/// A value, if what was to change it was done.
pub(crate) fn given<T: Drop>(value: T, done: Done) -> Result<T, AllocError>
    ensures same { IfOk result (λ x. x ≡ value) }
    ensures done { IfOk result (λ x. IsOk done) }
{
    match done {
        Ok(()) => Ok(value),
        Err(error) => Err(error),
    }
}
