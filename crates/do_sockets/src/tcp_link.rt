//! The link over sockets of this machine.
ghost use Rattle.std.specs.Prelude.{◌≡◌, ◌∷◌, [], Some};

use crate::streams::Streams;
use do_base::NodeId;
use do_link::{Link, LinkEvent, LinkFail};
use do_told::{Call, Calls};
use std::alloc::Global;
use std::net::Net;
use std::time::Clock;

/// A link over sockets of this machine: a stream for each direction between two nodes, which begins
/// with the sender's port as two bytes, the high byte first.
///
/// The first send to a peer begins a stream to it, and does not wait until it opens. A peer that
/// does not listen yet, or whose queue of streams is full, is asked again for a second by later
/// polls and sends, and then given up. A stream that goes to itself is dropped. So is an incoming
/// stream that ends before it said its port, that says one of no peer, one for the second time, or
/// one whose end was told; and so is the oldest of 512 streams that have said nothing, once it is
/// 50 milliseconds old and another comes.
///
/// A poll that finds nothing waits for a socket, at most as long as it was made to. Where an answer
/// came soon before, it first reads the peer that was heard or sent to last, 50 microseconds at
/// most; a node to which nothing comes sleeps.
///
/// What a peer does not take at once waits in a queue, and is given on by later polls and sends,
/// and by the drop of the link. A send is done once its bytes were taken or wait. Where 16 MiB wait
/// for its peer, the send waits for room first. It is `Failed` where a minute later some of the
/// bytes that stood there are not taken; the peer is then given up, and so is one whose stream
/// breaks. Where bytes were lost that waited for a peer that is given up, a poll tells its end, once
/// what came from it was given. Sends to a peer that is given up are `Failed`.
///
/// Meanwhile it keeps what comes in, so that of two nodes that both send neither waits for the
/// other. Of each peer 16 MiB are kept so at most; it is read no more then, until a poll gave them.
/// A poll reads 64 KiB at most, and nothing is read between polls.
///
/// It tells each listen, each event and each send. No contract can see what a socket makes of them.
pub struct TcpLink<R: Net + Clock> {
    rt: R,
    streams: Streams<R>,
    calls: Calls,
    faults: u64,
    quiets: u64,
    wait: u64,
}

impl<R: Net + Clock + Drop> TcpLink<R> {
    /// A link before its listen. A poll that finds nothing waits `wait` microseconds at most for a
    /// socket; the system may round them up to a millisecond. For 0 it does not wait.
    pub fn new(alloc: Global, rt: R, wait: u64) -> Self {
        TcpLink {
            rt,
            streams: Streams::new(alloc),
            calls: Calls::new(),
            faults: 0,
            quiets: 0,
            wait,
        }
    }
}

impl<R: Net + Clock + Drop> Drop for TcpLink<R> {
    /// Waits until the peers have taken the bytes that wait for them, a minute at most.
    fn drop(mut self) {
        self.streams.finish(&self.rt);
        let TcpLink {
            rt: _,
            streams: _,
            calls: _,
            faults: _,
            quiets: _,
            wait: _,
        } = self;
    }
}

impl<R: Net + Clock> Link for TcpLink<R> {
    ghost told = { λ s. Some s.calls.list };

    ghost faults = { λ s. s.faults };

    ghost quiets = { λ s. s.quiets };

    fn listen(&mut self, port: NodeId, peers: &[NodeId]) -> Result<(), LinkFail> {
        let listened = self.streams.listen(&self.rt, port, peers);
        match &listened {
            Ok(()) => self.calls = self.calls.with(&Call::Listened(port, peers, false)),
            Err(LinkFail::Failed) => {
                self.faults = self.faults.saturating_add(1);
                self.calls = self.calls.with(&Call::Listened(port, peers, true));
            }
            Err(LinkFail::Memory) => {}
        }
        listened
    }

    fn next(&mut self, buf: &mut [u8]) -> LinkEvent {
        let event = self.streams.hear(&self.rt, buf, self.wait);
        if matches!(&event, LinkEvent::Quiet) {
            self.quiets = self.quiets.saturating_add(1);
        }
        self.calls = self.calls.with(&Call::Came(event, buf));
        event
    }

    fn send(&mut self, to: NodeId, bytes: &[u8]) -> Result<(), LinkFail> {
        let sent = self.streams.send(&self.rt, to, bytes);
        match &sent {
            Ok(()) => self.calls = self.calls.with(&Call::Sent(to, bytes, false)),
            Err(LinkFail::Failed) => {
                self.faults = self.faults.saturating_add(1);
                self.calls = self.calls.with(&Call::Sent(to, bytes, true));
            }
            Err(LinkFail::Memory) => {}
        }
        sent
    }
}
