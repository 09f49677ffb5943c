//! Frames: what nodes send one another, each as a kind, a length and a payload, and streams of
//! them.
//!
//! The crate stands on the packets of do_coder and on the buffers of bytes. It promises that what
//! `write` writes is what a `Reader`, fed it in any pieces, and then `read_raw` give back. Each
//! byte with which no frame goes on is refused at once.
//!
//! The form is this project's own. A stream begins with the six bytes 13, 0, 0, 0, 1, 2, which say
//! that it is of version 2; frames follow. A frame is its kind, four bytes of the payload's length,
//! the highest first, of at most 2,098,176 bytes, and the payload:
//!
//! | Kind | Frame | Payload |
//! |---|---|---|
//! | 1 | Call | call, serial, selector, packet |
//! | 2 | Oneway | serial, selector, packet |
//! | 3 | Reply | call, packet |
//! | 4 | Raised | call, exception |
//! | 5 | RootAsk | call |
//! | 6 | RootAnswer | call, packet |
//! | 7, 8, 9 | Retain, Granted, Gone | serial, the lender's port, token |
//! | 10 | Release | serial, amount |
//! | 11 | Settle | token |
//! | 12 | Shutdown | nothing |
//!
//! Calls, serials, tokens and amounts are numbers from 1 to 2^63 - 1. An exception is its number,
//! from 1 to 9 in the order of `Exc`, and for a user's a text of at most 1,048,575 bytes.
#![tactic(auto)]

mod fault;
mod frame;
mod kind;
mod payload;
mod stream;
mod unread;
mod writer;

pub use fault::{RawFault, StreamFault};
pub use frame::{Frame, RawFrame, RawFrames};
pub use payload::front::read_raw;
pub use stream::pieces::frames_of;
pub use stream::reader::Reader;
pub use unread::Payload;
pub use writer::{write, write_within};
