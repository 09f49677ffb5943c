//! Sends to peers.
//!
//! Frames that wait for one peer are written one by one, since the list that a link tells has
//! for each send whether it failed.
use crate::outbox::Outbox;
use crate::peer::Outgoing;
use crate::streams::Streams;
use crate::timing::Deadline;
use do_base::NodeId;
use do_link::{LinkEvent, LinkFail};
use std::alloc::AllocError;
use std::mem;
use std::net::Net;
use std::time::Clock;

/// A thousandth of a second, in microseconds.
const MILLISECOND: u64 = 1_000;

/// For how many microseconds a link that is dropped waits until its peers have taken their bytes.
const LAST_TIME: u64 = 60_000_000;

impl<R: Net + Clock> Streams<R> {
    /// Sends all to a peer: the stream takes it, or it waits in the peer's queue. A way that failed
    /// is dropped, and later sends fail at once.
    pub fn send(&mut self, rt: &R, to: NodeId, bytes: &[u8]) -> Result<(), LinkFail> {
        self.flush_all(rt);
        let mut outbox = self.take_outbox(rt, to)?.ok_or(LinkFail::Failed)?;
        self.make_room(rt, &mut outbox)?;
        if !outbox.put(bytes)? {
            return Err(LinkFail::Failed);
        }
        self.is_waiting = self.is_waiting || outbox.is_waiting();
        self.put_outbox(to, outbox);
        Ok(())
    }

    /// The way to a peer with its queue, taken out; none where it failed.
    fn take_outbox(&mut self, rt: &R, to: NodeId) -> Result<Option<Outbox>, AllocError> {
        for (at, peer) in self.peers.iter_mut().enumerate() {
            if peer.id == to {
                // An answer may come soon.
                self.hot = at;
                return match mem::replace(&mut peer.outgoing, Outgoing::Closed) {
                    Outgoing::Open(outbox) => Ok(Some(outbox)),
                    Outgoing::NotYet => match self.port {
                        Some(port) => Ok(Some(Outbox::new(self.alloc, rt, to, port)?)),
                        None => Ok(None),
                    },
                    Outgoing::Closed => Ok(None),
                };
            }
        }
        Ok(None)
    }

    /// Puts the way to a peer back, with its queue.
    fn put_outbox(&mut self, to: NodeId, outbox: Outbox) {
        for peer in self.peers.iter_mut() {
            if peer.id == to {
                peer.outgoing = Outgoing::Open(outbox);
                return;
            }
        }
    }

    /// Waits until a queue has room. Meanwhile it keeps what comes in and gives the other peers
    /// their bytes, so that of two nodes that both send neither waits for the other.
    fn make_room(&mut self, rt: &R, outbox: &mut Outbox) -> Result<(), LinkFail> {
        for _ in 0..u64::MAX {
            let Some(waiter) = &self.waiter else {
                return Err(LinkFail::Failed);
            };
            if !outbox.flush(rt, waiter) {
                return Err(LinkFail::Failed);
            }
            if !outbox.is_full() {
                return Ok(());
            }
            if outbox.is_overdue(rt) {
                return Err(LinkFail::Failed);
            }
            self.flush_all(rt);
            let wait = if self.keep_all()? { 0 } else { MILLISECOND };
            self.look(rt, wait);
        }
        Err(LinkFail::Failed)
    }

    /// Gives each peer what it takes now of the bytes that wait for it.
    pub fn flush_all(&mut self, rt: &R) {
        let Some(waiter) = &self.waiter else {
            return;
        };
        if !self.is_waiting {
            return;
        }
        self.is_waiting = false;
        for peer in self.peers.iter_mut() {
            if peer.flush(rt, waiter) {
                self.is_waiting = true;
            }
        }
    }

    /// Gives all peers the bytes that wait for them, within a minute. What comes meanwhile is
    /// dropped, so that of two nodes that both end neither waits for the other.
    pub fn finish(&mut self, rt: &R) {
        let deadline = Deadline::after(rt, LAST_TIME);
        let mut buf = [0u8; 65536];
        for _ in 0..u64::MAX {
            self.flush_all(rt);
            if !self.is_waiting || deadline.has_passed(rt) {
                return;
            }
            let is_quiet = matches!(self.poll(&mut buf), LinkEvent::Quiet);
            self.look(rt, if is_quiet { MILLISECOND } else { 0 });
        }
    }
}
