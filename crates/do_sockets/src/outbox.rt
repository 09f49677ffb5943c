//! The bytes that wait until a peer takes them.
ghost use Rattle.std.specs.Prelude.{◌≡◌, ◌<◌, ◌≤◌, ℕ, length};
ghost use Rattle.do_sockets.specs.declared.outbox.Took.TheVariants.{Bytes};

use crate::asking::{Asked, Asking};
use crate::timing::Deadline;
use crate::waiter::Waiter;
use do_base::NodeId;
use mio::net::TcpStream;
use std::alloc::{AllocError, Global};
use std::collections::VecDeque;
use std::io::{ErrorKind, Write};
use std::net::Net;
use std::time::Clock;

/// How many bytes wait for a peer before a send waits too: eight of the largest frames.
const MOST_WAITING: usize = 16_777_216;

/// For how many microseconds a peer whose queue is full may take until it has all that stood there.
const TAKE_TIME: u64 = 60_000_000;

/// How often a write begins again after a signal.
const TRIES: u32 = 1_000;

/// What a write that does not wait came to.
#[derive(Clone, Copy)]
enum Took {
    /// The stream took this number of bytes, one at least.
    Bytes(usize),
    /// It takes nothing now.
    Nothing,
    /// It failed.
    Failed,
}

/// Writes what a stream takes now.
fn write_some<S: Write>(stream: &mut S, bytes: &[u8]) -> Took
    ensures { (n : ℕ) → result ≡ Bytes n → (0 < n) × (n ≤ length bytes.now) }
{
    for _ in 0..TRIES {
        match stream.write(bytes) {
            Ok(0) => return Took::Failed,
            Ok(count) => return Took::Bytes(count),
            Err(e) if e.kind() == ErrorKind::Interrupted => {}
            Err(e) if e.kind() == ErrorKind::WouldBlock => return Took::Nothing,
            Err(_) => return Took::Failed,
        }
    }
    Took::Nothing
}

/// The way to a peer.
#[derive(Drop)]
enum Way {
    /// A stream that is asked for.
    Asked(Asking),
    /// One that is open.
    Open(TcpStream),
}

/// The way to a peer, and the bytes that it has not taken yet.
#[derive(Drop)]
pub struct Outbox {
    alloc: Global,
    way: Way,
    waiting: VecDeque<u8>,
    /// How many of the bytes that stood here when the queue was last full stand here still.
    due: usize,
    /// When the peer must have taken those.
    deadline: Option<Deadline>,
}

impl Outbox {
    /// A way that is asked for, over which the own port goes first.
    pub fn new(
        alloc: Global,
        clock: &impl Clock,
        to: NodeId,
        port: NodeId,
    ) -> Result<Self, AllocError> {
        let mut outbox = Outbox {
            alloc,
            way: Way::Asked(Asking::new(clock, to)),
            waiting: VecDeque::new(alloc),
            due: 0,
            deadline: None,
        };
        outbox.add(&port.port().to_be_bytes())?;
        Ok(outbox)
    }

    /// Whether bytes wait.
    pub fn is_waiting(&self) -> bool {
        !self.waiting.is_empty()
    }

    /// Whether so many bytes wait that no more may be added.
    pub fn is_full(&self) -> bool {
        self.waiting.len() >= MOST_WAITING
    }

    /// Gives the peer what it takes now of the bytes that wait. It says if the way is good: the
    /// stream has not failed, and the peer was not given up.
    pub fn flush<R: Net + Clock>(&mut self, rt: &R, waiter: &Waiter) -> bool {
        if let Way::Asked(asking) = &mut self.way {
            match asking.go_on(rt, waiter) {
                Asked::Open(stream) => self.way = Way::Open(stream),
                Asked::NotYet => return true,
                Asked::GivenUp => return false,
            }
        }
        self.write_waiting()
    }

    /// Writes what an open stream takes now of the bytes that wait. It says if the stream is good.
    fn write_waiting(&mut self) -> bool {
        for _ in 0..u64::MAX {
            let Way::Open(stream) = &mut self.way else {
                return true;
            };
            let (front, _) = self.waiting.as_slices();
            if front.is_empty() {
                return true;
            }
            match write_some(stream, front) {
                Took::Bytes(count) => self.took(count),
                Took::Nothing => return true,
                Took::Failed => return false,
            }
        }
        true
    }

    /// The stream took this number of the bytes that wait.
    fn took(&mut self, count: usize) {
        for _ in 0..count {
            let _ = self.waiting.pop_front();
        }
        self.due = self.due.saturating_sub(count);
        if self.waiting.is_empty() {
            // So that its memory is given back.
            self.waiting = VecDeque::new(self.alloc);
        }
    }

    /// Writes what the stream takes now, and lets the rest wait. It says if the stream is good.
    pub fn put(&mut self, bytes: &[u8]) -> Result<bool, AllocError> {
        let mut rest = bytes;
        for _ in 0..u64::MAX {
            let Way::Open(stream) = &mut self.way else {
                break;
            };
            if rest.is_empty() || !self.waiting.is_empty() {
                break;
            }
            match write_some(stream, rest) {
                Took::Bytes(count) => rest = &rest[count..],
                Took::Nothing => break,
                Took::Failed => return Ok(false),
            }
        }
        self.add(rest)?;
        Ok(true)
    }

    /// Lets more bytes wait. If memory runs out, none of them does.
    fn add(&mut self, bytes: &[u8]) -> Result<(), AllocError> {
        self.waiting.reserve(bytes.len())?;
        for byte in bytes {
            self.waiting.push_back(*byte)?;
        }
        Ok(())
    }

    /// Whether the peer is too slow for a full queue: since the queue was found full a minute has
    /// passed, and bytes that stood there then still do.
    pub fn is_overdue(&mut self, clock: &impl Clock) -> bool {
        if self.due == 0 {
            self.due = self.waiting.len();
            self.deadline = Some(Deadline::after(clock, TAKE_TIME));
        }
        match &self.deadline {
            Some(deadline) => deadline.has_passed(clock),
            None => false,
        }
    }
}
