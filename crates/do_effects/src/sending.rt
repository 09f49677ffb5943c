//! Items that are sent.
ghost use Rattle.std.specs.Prelude.{◌≡◌, ◌≤◌, ◌+◌, ◌<◌, ◌^◌, length, true};
ghost use Rattle.do_machine.specs.State.{is_open};
ghost use Rattle.do_base.specs.names.Names.{ObjectName};
ghost use Rattle.do_machine.specs.lend.Asking.{settling, wanted};
ghost use Rattle.do_effects.specs.Doing.{doing, does};
ghost use Rattle.do_effects.specs.Named.{all_named_to, item_named_to, named_to};
ghost use Rattle.do_effects.specs.Room.{HasRoom, IsWithin, PartHasRoom, PartKeepsRoom, to_name};
ghost use Rattle.do_effects.specs.{Room.{to_send, to_tell}, Sends.{CanName, CanNameAll, CanSend}};
ghost use Rattle.do_effects.specs.{Sends.{GivesNothingUp, names_counted, sends}, Tidy.IsTidy};

use crate::changing::Core;
use crate::framing::frame_of;
use do_base::{NodeId, Token};
use do_class::{Name, NameList};
use do_frames::Frame;
use do_machine::Item;
use do_part::Part;

/// Counts a name that is sent to a peer: an own object is named once more, and one of a third node
/// is lent.
fn name_one(part: &mut Part, to: NodeId, name: &Name)
    requires open { is_open part.old.own.node to ≡ true }
    requires can { CanName part.old.own.node.heap part.old.own.node.port
        part.old.own.node.next_token name.now }
    requires tokens { part.old.own.node.next_token < 2 ^ 62 }
    requires room { PartHasRoom (to_name 1) part.old.room }
    ensures own { part.new.own ≡ named_to to part.old.own name.now }
    ensures within { PartKeepsRoom (to_name 1) part.old.room part.new.room }
{
    match name {
        Name::Mine { serial, class: _ } => part.name(to, *serial),
        Name::Yours { serial: _ } => {}
        Name::Lent {
            oid,
            class: _,
            token: _,
        } => {
            part.lend(*oid, to);
        }
    }
}

/// Counts the names of a message that is sent to a peer.
fn name_all(part: &mut Part, to: NodeId, names: &NameList)
    requires open { is_open part.old.own.node to ≡ true }
    requires can { CanNameAll part.old.own.node.heap part.old.own.node.port
        part.old.own.node.next_token names.now }
    requires tokens { part.old.own.node.next_token + length names.now ≤ 2 ^ 62 }
    requires room { PartHasRoom (to_name (length names.now)) part.old.room }
    ensures own { part.new.own ≡ all_named_to to names.now part.old.own }
    ensures within { PartKeepsRoom (to_name (length names.now)) part.old.room part.new.room }
{
    for name in names.as_slice() {
        name_one(part, to, name);
    }
}

/// Counts what an item names to a peer.
fn name_item(part: &mut Part, to: NodeId, item: &Item)
    requires open { is_open part.old.own.node to ≡ true }
    requires can { CanSend part.old.own.node item.now }
    requires tokens { part.old.own.node.next_token + names_counted item.now ≤ 2 ^ 62 }
    requires room { PartHasRoom (to_name (names_counted item.now)) part.old.room }
    ensures own { part.new.own ≡ item_named_to to item.now part.old.own }
    ensures within { PartKeepsRoom (to_name (names_counted item.now)) part.old.room part.new.room }
{
    match item {
        Item::Call { number: _, message } => name_all(part, to, &message.packet.names),
        Item::Oneway { message } => name_all(part, to, &message.packet.names),
        Item::Reply { number: _, packet } => name_all(part, to, &packet.names),
        Item::RootAnswer { number: _, packet } => name_all(part, to, &packet.names),
        Item::Granted { serial, token: _ } => part.name(to, *serial),
        _ => {}
    }
}

impl Core {
    /// Sends an item that gives no object up to a peer over an open end, in room that was made
    /// before: each own object that it names counts as named once more, and each object of a third
    /// node is lent.
    pub fn send(&mut self, to: NodeId, item: Item)
        requires tidy { IsTidy self.old.part.own }
        requires open { is_open self.old.part.own.node to ≡ true }
        requires keeps { GivesNothingUp to item }
        requires can { CanSend self.old.part.own.node item }
        requires tokens { self.old.part.own.node.next_token + names_counted item ≤ 2 ^ 62 }
        requires room { HasRoom (to_send item) self.old }
        ensures sent { doing self.new
            ≡ does (doing self.old) (sends to item self.old.part.own.node) }
        ensures tidy { IsTidy self.new.part.own }
        ensures within { IsWithin (to_send item) self.old self.new }
    {
        name_item(&mut self.part, to, &item);
        self.streams.post(to, frame_of(item));
    }

    /// Tells the lender of what was lent that it is over, if the end towards it is open, in room
    /// that was made before.
    pub fn settle(&mut self, token: Token)
        requires tidy { IsTidy self.old.part.own }
        requires room { 0 < self.old.streams.room }
        ensures settled { (o : ObjectName) → doing self.new ≡ does (doing self.old)
            (settling (wanted o token.lender token.number) self.old.part.own.node) }
        ensures part { self.new.part ≡ self.old.part }
        ensures shown { self.new.streams.shown ≡ self.old.streams.shown }
        ensures bare { self.old.streams.bare ≤ self.new.streams.bare + 1 }
        ensures within { IsWithin (to_tell 1) self.old self.new }
    {
        if !self.part.is_open(token.lender) {
            return;
        }
        let number = token.number;
        self.streams.post(token.lender, Frame::Settle { number });
    }
}
