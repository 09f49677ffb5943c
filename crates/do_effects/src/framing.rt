//! Items as frames.
ghost use Rattle.std.specs.Prelude.{◌≡◌};
ghost use Rattle.do_network.specs.Frames.{frame_of};

use do_frames::Frame;
use do_machine::{Item, Message};

/// A call as a frame.
fn call_frame(call: u64, message: Message) -> Frame
    ensures { result ≡ frame_of 0 (Item.Call call message) }
{
    let Message {
        target,
        selector,
        packet,
    } = message;
    Frame::Call {
        call,
        serial: target,
        selector,
        packet,
    }
}

/// A message that nobody waits for as a frame.
fn oneway_frame(message: Message) -> Frame
    ensures { result ≡ frame_of 0 (Item.Oneway message) }
{
    let Message {
        target,
        selector,
        packet,
    } = message;
    Frame::Oneway {
        serial: target,
        selector,
        packet,
    }
}

/// An item as a frame; one that gives an object up says no number of times.
pub fn frame_of(item: Item) -> Frame
    ensures { result ≡ frame_of 0 item }
{
    match item {
        Item::Call { number, message } => call_frame(number, message),
        Item::Oneway { message } => oneway_frame(message),
        Item::Reply { number, packet } => Frame::Reply {
            call: number,
            packet,
        },
        Item::Raised { number, exc } => Frame::Raised { call: number, exc },
        Item::RootAsk { number } => Frame::RootAsk { call: number },
        Item::RootAnswer { number, packet } => Frame::RootAnswer {
            call: number,
            packet,
        },
        Item::Ask { serial, token } => Frame::Retain { serial, token },
        Item::Granted { serial, token } => Frame::Granted { serial, token },
        Item::Gone { serial, token } => Frame::Gone { serial, token },
        Item::Left { serial } => Frame::Release { serial, amount: 0 },
        Item::Settled { number } => Frame::Settle { number },
        Item::End { serials: _ } => Frame::Shutdown,
    }
}
