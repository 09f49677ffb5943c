//! The objects that items under way name.
ghost use Rattle.std.specs.{Prelude.{◌≡◌, ◌++◌, ◌∷◌, [], OnOk, map}, List.flat_map};
ghost use Rattle.do_machine.specs.Objects.{object_at};
ghost use Rattle.do_lost.specs.Named.{item_names, message_names, name_object};

use do_base::{Items, NodeId, Oid, Oids};
use do_class::{Name, NameList};
use do_machine::{Item, Message, Shared};
use std::alloc::AllocError;

/// The way of an item.
#[derive(Debug, Drop)]
pub struct Way {
    /// The node that sent it.
    pub from: NodeId,
    /// The node that takes it.
    pub to: NodeId,
    /// Whether the taker's end towards the sender is open.
    pub serving: bool,
}

/// The object that a message on its way names.
fn object_of(way: &Way, name: &Name) -> Oid
    ensures { result ≡ name_object way.now.from way.now.to name.now }
{
    match name {
        Name::Mine { serial, .. } => Oid {
            node: way.from,
            serial: *serial,
        },
        Name::Yours { serial } => Oid {
            node: way.to,
            serial: *serial,
        },
        Name::Lent { oid, .. } => *oid,
    }
}

/// Appends the objects that a message on its way names.
pub fn push_names(objects: &mut Oids, way: &Way, names: &NameList) -> Result<(), AllocError>
    ensures { OnOk result
        (objects.new ≡ objects.old ++ map (name_object way.now.from way.now.to) names.now) }
{
    for name in names.as_slice() {
        objects.push(object_of(way, name))?;
    }
    Ok(())
}

/// Appends the object that a message goes to, and those that it names.
#[tactic(auto, using(std::proofs::lemmas::List::append_assoc))]
fn push_message(objects: &mut Oids, way: &Way, message: &Message) -> Result<(), AllocError>
    ensures { OnOk result
        (objects.new ≡ objects.old ++ message_names way.now.from way.now.to message.now) }
{
    push_object(objects, way.to, message.target)?;
    push_names(objects, way, &message.packet.names)
}

/// Appends the object of a node with a serial.
fn push_object(objects: &mut Oids, node: NodeId, serial: u64) -> Result<(), AllocError>
    ensures { OnOk result (objects.new ≡ objects.old ++ object_at node serial ∷ []) }
{
    objects.push(Oid { node, serial })
}

/// Appends the objects of a node with these serials.
fn push_serials(objects: &mut Oids, node: NodeId, serials: &Items<u64>) -> Result<(), AllocError>
    ensures { OnOk result (objects.new ≡ objects.old ++ map (object_at node) serials.now) }
{
    for serial in serials.as_slice() {
        objects.push(Oid {
            node,
            serial: *serial,
        })?;
    }
    Ok(())
}

/// Appends what an item names. An end that waits before a closed end names nothing.
#[tactic(auto, using(crate::proofs::NamesAsObjects::names_mean))]
pub(crate) fn push_item(objects: &mut Oids, way: &Way, item: &Item) -> Result<(), AllocError>
    ensures { OnOk result
        (objects.new ≡ objects.old ++ item_names way.now.from way.now.to way.now.serving item.now) }
{
    match item {
        Item::Call { message, .. } | Item::Oneway { message } => {
            push_message(objects, way, message)
        }
        Item::Reply { packet, .. } | Item::RootAnswer { packet, .. } => {
            push_names(objects, way, &packet.names)
        }
        Item::Ask { serial, .. } | Item::Left { serial } => push_object(objects, way.to, *serial),
        Item::Granted { serial, .. } | Item::Gone { serial, .. } => {
            push_object(objects, way.from, *serial)
        }
        Item::End { serials } if way.serving => push_serials(objects, way.to, serials),
        _ => Ok(()),
    }
}

/// Appends what the items of a queue name.
pub(crate) fn push_items(
    objects: &mut Oids,
    way: &Way,
    items: &Items<Shared<Item>>,
) -> Result<(), AllocError>
    ensures { OnOk result (objects.new
        ≡ objects.old ++ flat_map (item_names way.now.from way.now.to way.now.serving) items.now) }
{
    for item in items.as_slice() {
        push_item(objects, way, item.get())?;
    }
    Ok(())
}
