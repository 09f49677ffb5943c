//! What a node does with the message of an item that it takes.
ghost use Rattle.std.specs.Prelude.{◌≡◌, OnOk};
ghost use Rattle.do_machine.specs.{Effect.each, take.{Receipt.receiving_name, Requests.refusing}};
ghost use Rattle.do_rules.specs.{Doing.and_then, Ruling.{gaining, names_in}};

use crate::effect::{Done, queue, show};
use crate::lend::asking::ask;
use crate::run::fresh::store;
use do_base::{Exc, NodeId, Shown, Token};
use do_behave::Reason;
use do_class::Name;
use do_machine::{Effect, Item, Wanted};
use do_packet::ObjList;

/// A name is received: an object of a third node is asked for.
fn receive_name(effect: &mut Effect, from: NodeId, name: &Name) -> Done
    ensures { OnOk result (effect.new ≡ and_then effect.old (receiving_name from name.now)) }
{
    match name {
        Name::Mine { .. } => Ok(()),
        Name::Yours { .. } => Ok(()),
        Name::Lent { oid, token, .. } => {
            let token = Token {
                lender: from,
                number: *token,
            };
            let wanted = Wanted {
                object: *oid,
                token,
            };
            ask(effect, &wanted)
        }
    }
}

/// Names are received in their order.
fn receive_names(effect: &mut Effect, from: NodeId, names: &[Name]) -> Done
    ensures { OnOk result (effect.new
        ≡ and_then effect.old (each (receiving_name from) names.now)) }
{
    let [first, rest @ ..] = names else {
        return Ok(());
    };
    receive_name(effect, from, first)?;
    receive_names(effect, from, rest)
}

/// The names of an item's message are received in their order.
fn receive(effect: &mut Effect, from: NodeId, item: &Item) -> Done
    ensures { OnOk result (effect.new
        ≡ and_then effect.old (each (receiving_name from) (names_in item.now))) }
{
    match item {
        Item::Call { message, .. } => {
            receive_names(effect, from, message.packet.names.as_slice())
        }
        Item::Oneway { message } => receive_names(effect, from, message.packet.names.as_slice()),
        Item::Reply { packet, .. } => receive_names(effect, from, packet.names.as_slice()),
        Item::RootAnswer { packet, .. } => receive_names(effect, from, packet.names.as_slice()),
        Item::Raised { .. } => Ok(()),
        Item::RootAsk { .. } => Ok(()),
        Item::Ask { .. } => Ok(()),
        Item::Granted { .. } => Ok(()),
        Item::Gone { .. } => Ok(()),
        Item::Left { .. } => Ok(()),
        Item::Settled { .. } => Ok(()),
        Item::End { .. } => Ok(()),
    }
}

/// Copies become objects, and the names of the item's message are received in their order.
pub(crate) fn gain(effect: &mut Effect, from: NodeId, item: &Item, copies: &ObjList) -> Done
    ensures { OnOk result (effect.new
        ≡ and_then effect.old (gaining from item.now copies.now)) }
{
    store(&mut effect.node, copies)?;
    receive(effect, from, item)
}

/// A call that is refused goes back as an exception, and of a oneway message that is shown.
pub(crate) fn refuse(effect: &mut Effect, exc: Exc, reason: Reason) -> Done
    ensures { OnOk result (effect.new ≡ and_then effect.old (refusing exc reason)) }
{
    match reason {
        Reason::Call { peer, number } => queue(effect, peer, Item::Raised { number, exc }),
        Reason::Start => show(effect, Shown::Raise(exc)),
        Reason::Local => show(effect, Shown::Raise(exc)),
        Reason::Oneway { .. } => show(effect, Shown::Raise(exc)),
    }
}
