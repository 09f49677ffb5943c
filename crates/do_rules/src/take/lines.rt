//! What is shown of an item that is taken.
ghost use Rattle.std.specs.Prelude.{◌≡◌, IfOk};
ghost use Rattle.do_machine.specs.{Objects.object_at, take.Lines.item_line};

use do_base::{NodeId, Oid, Took};
use do_machine::Item;
use std::alloc::AllocError;

/// The object of a node with a serial.
pub(crate) fn object_at(node: NodeId, serial: u64) -> Oid
    ensures { result ≡ object_at node serial }
{
    Oid { node, serial }
}

/// What a transcript shows of an item that is taken, on its way from a node to another: its kind,
/// with the selector, the exception or the object that it names.
///
/// An object is that of the node which owns it: of the sender in a grant and where an object is
/// gone, of the receiver where one is asked for or left. `AllocError` comes where memory runs out.
pub fn item_line(from: NodeId, to: NodeId, item: &Item) -> Result<Took, AllocError>
    ensures { IfOk result (λ line. line ≡ item_line from to item.now) }
{
    match item {
        Item::Call { message, .. } => Ok(Took::Call(message.selector.clone()?)),
        Item::Oneway { message } => Ok(Took::Oneway(message.selector.clone()?)),
        Item::Reply { .. } => Ok(Took::Reply),
        Item::Raised { exc, .. } => Ok(Took::Raised(exc.clone()?)),
        Item::RootAsk { .. } => Ok(Took::RootAsk),
        Item::RootAnswer { .. } => Ok(Took::RootAnswer),
        Item::Ask { serial, .. } => Ok(Took::Ask(object_at(to, *serial))),
        Item::Granted { serial, .. } => Ok(Took::Granted(object_at(from, *serial))),
        Item::Gone { serial, .. } => Ok(Took::Gone(object_at(from, *serial))),
        Item::Left { serial } => Ok(Took::Left(object_at(to, *serial))),
        Item::Settled { .. } => Ok(Took::Settled),
        Item::End { .. } => Ok(Took::End),
    }
}
