//! The streams of one peer.
ghost use Rattle.std.specs.Prelude.{◌≡◌, ◌<◌, ◌≤◌, ℕ, length};
ghost use Rattle.do_sockets.specs.declared.reading.Got.TheVariants.{Bytes, Ended};

use crate::outbox::Outbox;
use crate::reading::{Got, read_some};
use crate::waiter::Waiter;
use do_base::NodeId;
use mio::Token;
use std::alloc::{AllocError, Global};
use std::collections::VecDeque;
use std::io::Read;
use std::net::Net;
use std::time::Clock;

/// How many bytes of a peer are kept while a send waits, before it is read no more: 16 MiB less
/// what one read gives, which are seven of the largest frames.
const MOST_KEPT: usize = 16_711_680;

/// The way to a peer.
#[derive(Drop)]
pub enum Outgoing {
    /// Nothing was sent so far.
    NotYet,
    /// It takes bytes.
    Open(Outbox),
    /// It failed, or a send has it.
    Closed,
}

/// The streams between the node and one peer.
#[derive(Drop)]
pub struct Peer<S> {
    alloc: Global,
    /// The peer's port.
    pub id: NodeId,
    /// The stream from it.
    pub incoming: Option<S>,
    /// The token of the first stream from it; none before there was one.
    pub token: Option<Token>,
    /// Whether that stream may have something to read.
    is_ready: bool,
    /// Whether it counts as ready until a read finds nothing, though one left room in its buffer.
    is_to_drain: bool,
    /// Whether bytes that waited for it were lost, and its end was not told since.
    is_lost: bool,
    /// Whether its end was told.
    has_ended: bool,
    /// The way to it.
    pub outgoing: Outgoing,
    /// What came while a send waited.
    kept: VecDeque<u8>,
}

impl<S: Read + Drop> Peer<S> {
    /// A peer of which nothing came.
    pub fn new(alloc: Global, id: NodeId) -> Self {
        Peer {
            alloc,
            id,
            incoming: None,
            token: None,
            is_ready: false,
            is_to_drain: false,
            is_lost: false,
            has_ended: false,
            outgoing: Outgoing::NotYet,
            kept: VecDeque::new(alloc),
        }
    }

    /// Whether no stream came from this peer so far, and its end was not told.
    pub fn is_awaited(&self) -> bool {
        self.token.is_none() && !self.has_ended
    }

    /// The first stream from this peer. Nothing is known of what it has.
    pub fn begin(&mut self, stream: S, token: Token) {
        self.incoming = Some(stream);
        self.token = Some(token);
        self.is_ready = true;
        self.is_to_drain = true;
    }

    /// The stream from this peer was found ready; it has an end or an error where it failed.
    pub fn found_ready(&mut self, failed: bool) {
        self.is_ready = true;
        self.is_to_drain = self.is_to_drain || failed;
    }

    /// Whether more of this peer may be there, without a look at its socket.
    pub fn has_more(&self) -> bool {
        self.is_ready || !self.kept.is_empty()
    }

    /// What the stream from this peer has. It is not read where nothing came since it had nothing
    /// more: a read that leaves room in the buffer has taken all that there was.
    fn read(&mut self, buf: &mut [u8]) -> Got
        ensures room { length buf.new ≡ length buf.old }
        ensures bytes { (n : ℕ) → result ≡ Bytes n → (0 < n) × (n ≤ length buf.new) }
    {
        let Some(stream) = &mut self.incoming else {
            return Got::Nothing;
        };
        if !self.is_ready {
            return Got::Nothing;
        }
        let got = read_some(stream, buf);
        match &got {
            Got::Bytes(count) => self.is_ready = self.is_to_drain || *count == buf.len(),
            Got::Ended => {}
            Got::Nothing => {
                self.is_ready = false;
                self.is_to_drain = false;
            }
        }
        got
    }

    /// Its end is told, and nothing more is heard of it.
    fn end(&mut self) -> Got
        ensures { result ≡ Ended }
    {
        self.incoming = None;
        self.is_lost = false;
        self.has_ended = true;
        Got::Ended
    }

    /// What comes next from this peer: first what was kept. Where bytes that waited for it were
    /// lost, its end comes once nothing else does.
    pub fn poll(&mut self, buf: &mut [u8]) -> Got
        ensures room { length buf.new ≡ length buf.old }
        ensures bytes { (n : ℕ) → result ≡ Bytes n → (0 < n) × (n ≤ length buf.new) }
    {
        let count = take_kept(&mut self.kept, buf);
        if count > 0 {
            if self.kept.is_empty() {
                // So that its memory is given back.
                self.kept = VecDeque::new(self.alloc);
            }
            return Got::Bytes(count);
        }
        self.is_ready = self.is_ready || self.is_lost;
        match self.read(buf) {
            Got::Ended => self.end(),
            Got::Nothing if self.is_lost => self.end(),
            got => got,
        }
    }

    /// What comes next from this peer, whether or not it was found ready.
    pub fn poll_now(&mut self, buf: &mut [u8]) -> Got
        ensures room { length buf.new ≡ length buf.old }
        ensures bytes { (n : ℕ) → result ≡ Bytes n → (0 < n) × (n ≤ length buf.new) }
    {
        self.is_ready = true;
        self.poll(buf)
    }

    /// Keeps what has come, unless much is kept: the peer then waits for its next poll. It says
    /// whether anything was kept.
    pub fn keep(&mut self, buf: &mut [u8]) -> Result<bool, AllocError> {
        if self.kept.len() >= MOST_KEPT {
            return Ok(false);
        }
        match self.read(buf) {
            Got::Bytes(count) => {
                for byte in &buf[..count] {
                    self.kept.push_back(*byte)?;
                }
                Ok(true)
            }
            // The end is read again by the next poll.
            _ => Ok(false),
        }
    }
}

impl<S: Drop> Peer<S> {
    /// Gives the peer what it takes now of the bytes that wait for it, and says whether some still
    /// do. Where the way failed they are lost.
    pub fn flush<R: Net + Clock>(&mut self, rt: &R, waiter: &Waiter) -> bool {
        let Outgoing::Open(outbox) = &mut self.outgoing else {
            return false;
        };
        if outbox.flush(rt, waiter) {
            return outbox.is_waiting();
        }
        self.outgoing = Outgoing::Closed;
        self.is_lost = !self.has_ended;
        false
    }
}

/// Takes from the front of what was kept.
fn take_kept(kept: &mut VecDeque<u8>, buf: &mut [u8]) -> usize
    ensures room { length buf.new ≡ length buf.old }
    ensures within { result ≤ length buf.new }
{
    for i in 0..buf.len() {
        match kept.pop_front() {
            Some(byte) => buf[i] = byte,
            None => return i,
        }
    }
    buf.len()
}
