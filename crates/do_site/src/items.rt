//! Frames as items.
ghost use Rattle.std.specs.Prelude.{◌≡◌};
ghost use Rattle.do_network.specs.Frames.{item_of};

use do_base::{Items, Text};
use do_class::Packet;
use do_frames::Frame;
use do_machine::{Item, Message};
use std::alloc::Global;

/// A message to an own object.
fn message(target: u64, selector: Text, packet: Packet) -> Message
    ensures { result ≡ record { target = target; selector = selector; packet = packet } }
{
    Message {
        target,
        selector,
        packet,
    }
}

/// A frame as an item: a release says no number of times there, and an end names nothing.
pub fn item_of(alloc: Global, frame: Frame) -> Item
    ensures { result ≡ item_of frame }
{
    match frame {
        Frame::Call {
            call,
            serial,
            selector,
            packet,
        } => Item::Call {
            number: call,
            message: message(serial, selector, packet),
        },
        Frame::Oneway {
            serial,
            selector,
            packet,
        } => Item::Oneway {
            message: message(serial, selector, packet),
        },
        Frame::Reply { call, packet } => Item::Reply {
            number: call,
            packet,
        },
        Frame::Raised { call, exc } => Item::Raised { number: call, exc },
        Frame::RootAsk { call } => Item::RootAsk { number: call },
        Frame::RootAnswer { call, packet } => Item::RootAnswer {
            number: call,
            packet,
        },
        Frame::Retain { serial, token } => Item::Ask { serial, token },
        Frame::Granted { serial, token } => Item::Granted { serial, token },
        Frame::Gone { serial, token } => Item::Gone { serial, token },
        Frame::Release { serial, amount: _ } => Item::Left { serial },
        Frame::Settle { number } => Item::Settled { number },
        Frame::Shutdown => Item::End {
            serials: Items::new(alloc),
        },
    }
}
