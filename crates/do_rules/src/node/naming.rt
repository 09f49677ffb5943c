//! Which objects items name, and how.
ghost use Rattle.std.specs.{Prelude.{◌≡◌, ◌++◌, OnOk, map}, List.filter_map};
ghost use Rattle.do_machine.specs.Objects.{object_at};
ghost use Rattle.do_rules.specs.Exporting.{exports_of, mine_of, releases_of};

use crate::effect::Done;
use crate::take::lines::object_at;
use do_base::{Items, NodeId, Oids};
use do_class::Name;
use do_machine::Item;

/// Appends the sender's objects among those that a message names.
fn push_mine(objects: &mut Oids, from: NodeId, names: &[Name]) -> Done
    ensures { OnOk result (objects.new ≡ objects.old ++ filter_map (mine_of from) names.now) }
{
    let [first, rest @ ..] = names else {
        return Ok(());
    };
    match first {
        Name::Mine { serial, .. } => {
            objects.push(object_at(from, *serial))?;
            push_mine(objects, from, rest)
        }
        Name::Yours { .. } => push_mine(objects, from, rest),
        Name::Lent { .. } => push_mine(objects, from, rest),
    }
}

/// Appends the sender's objects that an item exports.
pub(crate) fn push_exports(objects: &mut Oids, from: NodeId, item: &Item) -> Done
    ensures { OnOk result (objects.new ≡ objects.old ++ exports_of from item.now) }
{
    match item {
        Item::Call { message, .. } => push_mine(objects, from, message.packet.names.as_slice()),
        Item::Oneway { message } => push_mine(objects, from, message.packet.names.as_slice()),
        Item::Reply { packet, .. } => push_mine(objects, from, packet.names.as_slice()),
        Item::RootAnswer { packet, .. } => push_mine(objects, from, packet.names.as_slice()),
        Item::Granted { serial, .. } => objects.push(object_at(from, *serial)),
        Item::Raised { .. } => Ok(()),
        Item::RootAsk { .. } => Ok(()),
        Item::Ask { .. } => Ok(()),
        Item::Gone { .. } => Ok(()),
        Item::Left { .. } => Ok(()),
        Item::Settled { .. } => Ok(()),
        Item::End { .. } => Ok(()),
    }
}

/// Appends the objects of a node with these serials.
fn push_all_at(objects: &mut Oids, node: NodeId, serials: &Items<u64>) -> Done
    ensures { OnOk result (objects.new ≡ objects.old ++ map (object_at node) serials.now) }
{
    for serial in serials.as_slice() {
        objects.push(object_at(node, *serial))?;
    }
    Ok(())
}

/// Appends the receiver's objects that an item releases.
pub(crate) fn push_releases(objects: &mut Oids, to: NodeId, item: &Item) -> Done
    ensures { OnOk result (objects.new ≡ objects.old ++ releases_of to item.now) }
{
    match item {
        Item::Left { serial } => objects.push(object_at(to, *serial)),
        Item::End { serials } => push_all_at(objects, to, serials),
        Item::Call { .. } => Ok(()),
        Item::Oneway { .. } => Ok(()),
        Item::Reply { .. } => Ok(()),
        Item::Raised { .. } => Ok(()),
        Item::RootAsk { .. } => Ok(()),
        Item::RootAnswer { .. } => Ok(()),
        Item::Ask { .. } => Ok(()),
        Item::Granted { .. } => Ok(()),
        Item::Gone { .. } => Ok(()),
        Item::Settled { .. } => Ok(()),
    }
}
