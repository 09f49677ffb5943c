//! What nodes send one another.
use crate::unread::Payload;
use do_base::{Exc, Items, Text, Token};
use do_class::Packet;

/// A message from one node to another, on its way.
///
/// The type itself keeps no limit on its numbers, texts and packets.
#[derive(Debug, PartialEq, Eq, Drop)]
pub enum Frame {
    /// A call of the receiver's object, which a `Reply` or `Raised` answers.
    Call {
        call: u64,
        serial: u64,
        selector: Text,
        packet: Packet,
    },
    /// A message to the receiver's object that nothing answers.
    Oneway {
        serial: u64,
        selector: Text,
        packet: Packet,
    },
    /// The result of a call, and then its out values in order.
    Reply {
        call: u64,
        packet: Packet,
    },
    /// What a call raised.
    Raised {
        call: u64,
        exc: Exc,
    },
    /// A question for the receiver's root.
    RootAsk {
        call: u64,
    },
    /// The root, as the packet's one value.
    RootAnswer {
        call: u64,
        packet: Packet,
    },
    /// The sender asks to hold an object of the receiver that the token's lender named.
    Retain {
        serial: u64,
        token: Token,
    },
    /// The sender's object may be held.
    Granted {
        serial: u64,
        token: Token,
    },
    /// The sender's object is no longer there to be held.
    Gone {
        serial: u64,
        token: Token,
    },
    /// The sender lets go of an object of the receiver, which was named to it so many times.
    Release {
        serial: u64,
        amount: u64,
    },
    /// A loan of the receiver is settled.
    Settle {
        number: u64,
    },
    /// The sender sends nothing more.
    Shutdown,
}

/// A frame whose payload is not read yet: the number of its kind, and the payload's bytes.
///
/// The type itself keeps no limit on either. The payload shares the bytes that it came in.
#[derive(Debug, Drop)]
pub struct RawFrame {
    /// The number of the kind, 1 to 12 for a frame that has one.
    pub kind: u8,
    /// The bytes of the payload.
    pub payload: Payload,
}

/// Frames whose payloads are not read yet, in order.
pub type RawFrames = Items<RawFrame>;
