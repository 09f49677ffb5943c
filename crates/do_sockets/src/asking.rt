//! Streams that are asked for without a wait.
use crate::connecting::is_own;
use crate::timing::Deadline;
use crate::waiter::{OUTGOING, Waiter};
use do_base::NodeId;
use mio::Interest;
use mio::net::TcpStream;
use std::net::{Ipv4Addr, Net, SocketAddr};
use std::time::Clock;

/// For how many microseconds a peer is asked for a stream.
const ASK_TIME: u64 = 1_000_000;

/// For how many microseconds one ask waits. A full queue of streams answers nothing.
const TRY_TIME: u64 = 100_000;

/// How many microseconds pass between a refusal and the next ask.
const PAUSE: u64 = 1_000;

/// What an ask has come to.
pub enum Asked {
    /// This stream opened.
    Open(TcpStream),
    /// No stream so far.
    NotYet,
    /// The peer's time is over, and it was asked in vain once more.
    GivenUp,
}

/// Whether a stream that was asked for has opened.
fn is_open(stream: &TcpStream) -> bool {
    stream.peer_addr().is_ok()
}

/// Whether a stream that was asked for, and is not open, was refused.
fn is_refused(stream: &TcpStream) -> bool {
    !matches!(stream.take_error(), Ok(None))
}

/// A stream to a port of this machine, open or pending; none where it was refused or goes to
/// itself. It ends a wait once it opens.
fn begin<R: Net>(rt: &R, to: NodeId, waiter: &Waiter) -> Option<TcpStream> {
    let address = SocketAddr::from((Ipv4Addr::LOCALHOST, to.port()));
    let stream = TcpStream::connect(rt, address).ok()?;
    let near = stream.local_addr().ok()?;
    if is_own(near.port(), to) || (!is_open(&stream) && is_refused(&stream)) {
        return None;
    }
    stream.set_nodelay(true).ok()?;
    waiter
        .watch(&stream, OUTGOING, Interest::WRITABLE)
        .then_some(stream)
}

/// A stream to a peer that is asked for until it opens. No call waits.
#[derive(Drop)]
pub struct Asking {
    to: NodeId,
    /// The stream that was asked for last, unless it was refused.
    pending: Option<TcpStream>,
    /// When another is asked for.
    again: Deadline,
    /// When the peer is given up.
    end: Deadline,
}

impl Asking {
    /// Before the first ask.
    pub fn new(clock: &impl Clock, to: NodeId) -> Self {
        Asking {
            to,
            pending: None,
            again: Deadline::after(clock, 0),
            end: Deadline::after(clock, ASK_TIME),
        }
    }

    /// What the asks have come to. Another stream is asked for a thousandth of a second after a
    /// refusal, and where one was pending for a tenth of a second, which is then dropped.
    pub fn go_on<R: Net + Clock>(&mut self, rt: &R, waiter: &Waiter) -> Asked {
        let is_due = self.again.has_passed(rt);
        match self.pending.take() {
            Some(stream) if is_open(&stream) => Asked::Open(stream),
            Some(stream) if !is_due && !is_refused(&stream) => {
                self.pending = Some(stream);
                Asked::NotYet
            }
            None if !is_due => Asked::NotYet,
            _ => self.ask(rt, waiter),
        }
    }

    /// Asks for a stream. A peer whose time is over is given up only if that is in vain, so one
    /// that was not asked for long, by a node that was busy, is asked once more.
    fn ask<R: Net + Clock>(&mut self, rt: &R, waiter: &Waiter) -> Asked {
        let stream = match begin(rt, self.to, waiter) {
            Some(stream) if is_open(&stream) => return Asked::Open(stream),
            other => other,
        };
        if self.end.has_passed(rt) {
            return Asked::GivenUp;
        }
        let wait = if stream.is_some() { TRY_TIME } else { PAUSE };
        self.again = Deadline::after(rt, wait);
        self.pending = stream;
        Asked::NotYet
    }
}
