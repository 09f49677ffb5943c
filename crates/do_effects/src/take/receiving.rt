//! What comes in the message of a peer.
ghost use Rattle.std.specs.Prelude.{◌≡◌, ◌≤◌, ◌+◌, ◌∷◌, [], false, true, length, IsSome, OnErr};
ghost use Rattle.std.specs.{Prelude.{OnOk, option_map}, Option.option_copied};
ghost use Rattle.do_machine.specs.{State.is_open, run.Fresh.with_objects};
ghost use Rattle.do_network.specs.Counting.{packet_of};
ghost use Rattle.do_part.specs.{Filled.made_values, Names.{AreStored, values_of}};
ghost use Rattle.do_effects.specs.{Doing.doing, Room.{HasRoom, IsWithin}};
ghost use Rattle.do_rules.specs.Ruling.{names_in};
ghost use Rattle.do_effects.specs.{Taking.{gained, gains, to_gain}, Tidy.IsTidy};

use crate::changing::Core;
use do_base::{NodeId, Oid, Shown, Token};
use do_class::{ClassId, Name, NameList};
use do_frames::Frame;
use do_machine::Item;
use do_packet::ObjList;
use std::alloc::AllocError;

/// The names in the message of an item. None exactly where it has no message.
fn names_of(item: &Item) -> Option<&NameList>
    ensures { option_copied result ≡ option_map (λ packet. packet.names) (packet_of item.now) }
{
    match item {
        Item::Call { number: _, message } => Some(&message.packet.names),
        Item::Oneway { message } => Some(&message.packet.names),
        Item::Reply { number: _, packet } => Some(&packet.names),
        Item::RootAnswer { number: _, packet } => Some(&packet.names),
        _ => None,
    }
}

impl Core {
    /// An object of a third node is received, which a peer lent: its home is asked for it, or the
    /// lend is over where that cannot be.
    fn receive_lent(&mut self, oid: Oid, class: ClassId, token: Token)
        requires tidy { IsTidy self.old.part.own }
        requires open { is_open self.old.part.own.node token.lender ≡ true }
        requires apart { is_open self.old.part.own.node self.old.part.own.node.port ≡ false }
        requires room { HasRoom (to_gain 1 []) self.old }
        ensures done { doing self.new
            ≡ gains token.lender (Name.Lent oid class token.number ∷ []) (doing self.old) }
        ensures tidy { IsTidy self.new.part.own }
        ensures within { IsWithin (to_gain 1 []) self.old self.new }
    {
        self.part.classes_are_known();
        let reachable = self.part.is_open(oid.node);
        if !reachable {
            self.settle(token);
            return;
        }
        let asks = self.part.ask_home(oid, class, token);
        if !asks {
            return;
        }
        let serial = oid.serial;
        self.streams.post(oid.node, Frame::Retain { serial, token });
    }

    /// A name of a peer is received: an object of the peer is held, and one of a third node is
    /// asked for, or its lend is over where it cannot be.
    fn receive_name(&mut self, from: NodeId, name: &Name)
        requires tidy { IsTidy self.old.part.own }
        requires open { is_open self.old.part.own.node from ≡ true }
        requires apart { is_open self.old.part.own.node self.old.part.own.node.port ≡ false }
        requires room { HasRoom (to_gain 1 []) self.old }
        ensures done { doing self.new ≡ gains from (name.now ∷ []) (doing self.old) }
        ensures tidy { IsTidy self.new.part.own }
        ensures within { IsWithin (to_gain 1 []) self.old self.new }
    {
        match name {
            Name::Mine { serial, class } => {
                let serial = *serial;
                self.part.got(Oid { node: from, serial }, *class);
            }
            Name::Yours { serial: _ } => {}
            Name::Lent { oid, class, token } => {
                let number = *token;
                let token = Token {
                    lender: from,
                    number,
                };
                self.receive_lent(*oid, *class, token);
            }
        }
    }

    /// The names of a peer's message are received, in their order.
    fn receive_all(&mut self, from: NodeId, names: &NameList)
        requires tidy { IsTidy self.old.part.own }
        requires open { is_open self.old.part.own.node from ≡ true }
        requires apart { is_open self.old.part.own.node self.old.part.own.node.port ≡ false }
        requires room { HasRoom (to_gain (length names.now) []) self.old }
        ensures done { doing self.new ≡ gains from names.now (doing self.old) }
        ensures tidy { IsTidy self.new.part.own }
        ensures within { IsWithin (to_gain (length names.now) []) self.old self.new }
    {
        for name in names.as_slice() {
            self.part.classes_are_known();
            self.receive_name(from, name);
        }
    }

    /// What comes in the message of an item is received: copies become objects, the line of the
    /// item is shown, and names are received in their order. If memory runs out, nothing changes.
    pub fn gain(
        &mut self,
        from: NodeId,
        item: &Item,
        line: Shown,
        copies: ObjList,
    ) -> Result<(), AllocError>
        requires message { IsSome (packet_of item.now) }
        requires tidy { IsTidy self.old.part.own }
        requires open { is_open self.old.part.own.node from ≡ true }
        requires apart { is_open self.old.part.own.node self.old.part.own.node.port ≡ false }
        requires stored { AreStored (with_objects copies self.old.part.own.node)
            (values_of (made_values copies)) }
        requires room { HasRoom (record (to_gain (length (names_in item.now)) copies) {
          waiting = length (names_in item.now) + 1;
        }) self.old }
        ensures ok { OnOk result
            (doing self.new ≡ gained from item.now line copies (doing self.old)) }
        ensures err { OnErr result (doing self.new ≡ doing self.old) }
        ensures tidy { IsTidy self.new.part.own }
        ensures within { IsWithin (record (to_gain (length (names_in item.now)) copies) {
          waiting = length (names_in item.now) + 1;
        }) self.old self.new }
    {
        let Some(names) = names_of(item) else {
            return Ok(());
        };
        self.part.create_all(copies)?;
        self.streams.show(line);
        self.receive_all(from, names);
        Ok(())
    }
}
