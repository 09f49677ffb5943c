//! Why a peer may not send what it sent.
use do_base::{CallId, Token};
use do_export::OverRelease;
use std::error::Error;
use std::fmt;

/// Why a peer may not send a frame. The end towards such a peer closes.
#[derive(Clone, Copy, Debug, PartialEq, Eq)]
pub enum PeerFault {
    /// The byte at this place of the payload, from 0, is the first with which no payload of the
    /// kind goes on; it is the payload's length where the payload ends too early, and 0 where no
    /// frame has the kind.
    BadFrame(usize),
    /// A release gives back more names of an object than the peer was sent.
    OverRelease(OverRelease),
    /// The frame ends a lend or an ask, by its token, that is not kept.
    UnknownToken(Token),
    /// The frame answers a call that no invocation waits for and that was not given up.
    UnknownCall(CallId),
}

impl fmt::Display for PeerFault {
    fn fmt<W: fmt::Write>(&self, f: &mut fmt::Formatter<W>) -> fmt::Result {
        match self {
            PeerFault::BadFrame(place) => write!(f, "no payload goes on at {place}"),
            PeerFault::OverRelease(over) => {
                write!(f, "{} names given back of {} sent", over.asked, over.had)
            }
            PeerFault::UnknownToken(token) => {
                let lender = token.lender.port();
                write!(f, "no lend or ask {} of {lender}", token.number)
            }
            PeerFault::UnknownCall(call) => write!(f, "nothing waits for call {}", call.number),
        }
    }
}

impl Error for PeerFault {}
