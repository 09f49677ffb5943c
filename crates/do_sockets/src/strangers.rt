//! Streams that have not said their port.
use crate::peer::Peer;
use crate::reading::{Got, read_some};
use crate::timing::Deadline;
use do_base::NodeId;
use mio::Token;
use std::alloc::{AllocError, Global};
use std::collections::VecDeque;
use std::io::Read;
use std::time::Clock;

/// How many may be kept.
const MOST_STRANGERS: usize = 512;

/// For how many microseconds a stream may be silent before it makes way for another.
const SILENT_TIME: u64 = 50_000;

/// A stream that has not said its port yet.
#[derive(Drop)]
struct Stranger<S> {
    stream: S,
    /// The token that its readiness is told under.
    token: Token,
    /// The first byte of the port, where it came.
    first: Option<u8>,
    /// When it makes way for another.
    deadline: Deadline,
}

/// Which port a stream said.
enum Naming {
    /// This one.
    Named(NodeId),
    /// None: it ended before, or said 0.
    Ended,
    /// None so far.
    NotYet,
}

impl<S: Read> Stranger<S> {
    /// Reads the first two bytes, which are the port.
    fn poll(&mut self) -> Naming {
        let mut one = [0u8; 1];
        for _ in 0..2 {
            match read_some(&mut self.stream, &mut one) {
                Got::Bytes(_) => match self.first {
                    Some(high) => return named(u16::from_be_bytes([high, one[0]])),
                    None => self.first = Some(one[0]),
                },
                Got::Ended => return Naming::Ended,
                Got::Nothing => return Naming::NotYet,
            }
        }
        Naming::NotYet
    }
}

/// The port that a stream said. No node has port 0.
fn named(port: u16) -> Naming {
    match NodeId::new(port) {
        Some(id) => Naming::Named(id),
        None => Naming::Ended,
    }
}

/// The streams that have not said their port, the oldest first.
#[derive(Drop)]
pub struct Strangers<S> {
    streams: VecDeque<Stranger<S>>,
}

impl<S: Read + Drop> Strangers<S> {
    /// No stream. It takes no memory.
    pub fn new(alloc: Global) -> Self {
        Strangers {
            streams: VecDeque::new(alloc),
        }
    }

    /// Makes room for as many as may be kept.
    pub fn reserve(&mut self) -> Result<(), AllocError> {
        self.streams.reserve(MOST_STRANGERS)
    }

    /// Whether one more may be kept. Where there are too many, the oldest makes way, but only once
    /// it had time to say its port. So streams that say nothing keep no peer out.
    pub fn make_room(&mut self, clock: &impl Clock) -> bool {
        if self.streams.len() < MOST_STRANGERS {
            return true;
        }
        let is_late = match self.streams.front() {
            Some(oldest) => oldest.deadline.has_passed(clock),
            None => true,
        };
        if is_late {
            let _ = self.streams.pop_front();
        }
        is_late
    }

    /// Keeps a stream that was accepted. It is dropped if memory runs out.
    pub fn hold(&mut self, clock: &impl Clock, stream: S, token: Token) {
        let _ = self.streams.push_back(Stranger {
            stream,
            token,
            first: None,
            deadline: Deadline::after(clock, SILENT_TIME),
        });
    }

    /// Gives each stream that has said its port to that peer, unless the peer had one or its end was
    /// told.
    pub fn name_all(&mut self, peers: &mut Vec<Peer<S>>) {
        let count = self.streams.len();
        for _ in 0..count {
            let Some(mut next) = self.streams.pop_front() else {
                return;
            };
            match next.poll() {
                Naming::Named(id) => give(peers, id, next.stream, next.token),
                Naming::Ended => {}
                Naming::NotYet => {
                    let _ = self.streams.push_back(next);
                }
            }
        }
    }
}

/// Gives a stream to the peer of this port, unless it had one already or its end was told.
fn give<S: Read + Drop>(peers: &mut Vec<Peer<S>>, id: NodeId, stream: S, token: Token) {
    for peer in peers.iter_mut() {
        if peer.id == id {
            if peer.is_awaited() {
                peer.begin(stream, token);
            }
            return;
        }
    }
}
