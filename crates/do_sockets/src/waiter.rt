//! The sockets that a poll waits for.
//!
//! A poll waits for all sockets at once, and then reads, 3 to 5 µs more of a call and its reply
//! than a read that blocks. A read that blocks hears one peer alone.
use do_link::LinkFail;
use mio::event::Event;
use mio::unix::SourceFd;
use mio::{Events, Interest, Poll, Token};
use std::alloc::Global;
use std::net::Net;
use std::os::fd::AsRawFd;
use std::time::Duration;

/// The listener's token. Streams that are accepted have those from 1 on.
pub const LISTENER: Token = Token(0);

/// The token of all streams to peers: that they are ready ends a wait, and no more.
pub const OUTGOING: Token = Token(usize::MAX);

/// The sockets that a poll waits for, each under a token.
#[derive(Drop)]
pub struct Waiter {
    poll: Poll,
    events: Events,
}

impl Waiter {
    /// A waiter for no socket.
    pub fn new(rt: &impl Net, alloc: Global) -> Result<Self, LinkFail> {
        let poll = Poll::new(rt).map_err(|_| LinkFail::Failed)?;
        Ok(Waiter {
            poll,
            events: Events::with_capacity(alloc, 16)?,
        })
    }

    /// Waits for a socket from now on. It says whether the system does.
    pub fn watch(&self, socket: &impl AsRawFd, token: Token, interest: Interest) -> bool {
        let fd = socket.as_raw_fd();
        self.poll
            .registry()
            .register(&mut SourceFd(&fd), token, interest)
            .is_ok()
    }

    /// Waits until a socket is ready, at most this many microseconds.
    pub fn wait(&mut self, micros: u64) {
        let _ = self
            .poll
            .poll(&mut self.events, Some(Duration::from_micros(micros)));
    }

    /// What the last wait found, 16 sockets at most. What a socket is ready for is told once, until
    /// a call finds nothing there any more.
    pub fn found(&self) -> std::slice::Iter<'_, Event> {
        self.events.iter()
    }
}
