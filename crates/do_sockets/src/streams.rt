//! The streams of all peers.
ghost use Rattle.std.specs.Prelude.{◌≡◌, length};
ghost use Rattle.do_link.specs.Told.{IsWithin};

use crate::peer::Peer;
use crate::reading::Got;
use crate::spinning::Spinning;
use crate::strangers::Strangers;
use crate::waiter::{LISTENER, OUTGOING, Waiter};
use do_base::NodeId;
use do_link::{LinkEvent, LinkFail};
use mio::{Interest, Token};
use std::alloc::{AllocError, Global};
use std::io::{ErrorKind, Read};
use std::net::{Ipv4Addr, Net, OpenListener, OpenStream, TcpListener};
use std::time::Clock;

/// How many streams are accepted at once.
const MOST_ACCEPTED: u32 = 128;

/// The listener, the streams that have not said their port, and those of all peers.
#[derive(Drop)]
pub struct Streams<R: Net> {
    pub alloc: Global,
    pub port: Option<NodeId>,
    listener: Option<R::Listener>,
    strangers: Strangers<R::Stream>,
    /// How many streams were accepted.
    accepted: usize,
    /// Whether the listener or a stream with no port may have something.
    has_strangers: bool,
    pub peers: Vec<Peer<R::Stream>>,
    /// The place of the peer that is polled first.
    pub turn: usize,
    /// The place of the peer that was heard or sent to last.
    pub hot: usize,
    /// Whether more of the peer that was heard last may be there.
    pub has_more: bool,
    /// Whether bytes may wait for a peer.
    pub is_waiting: bool,
    pub spinning: Spinning,
    pub waiter: Option<Waiter>,
}

impl<R: Net> Streams<R> {
    /// No stream, before the listen.
    pub fn new(alloc: Global) -> Self {
        Streams {
            alloc,
            port: None,
            listener: None,
            strangers: Strangers::new(alloc),
            accepted: 0,
            has_strangers: true,
            peers: Vec::new(alloc),
            turn: 0,
            hot: 0,
            has_more: false,
            is_waiting: false,
            spinning: Spinning::new(),
            waiter: None,
        }
    }

    /// Opens the listener, for these peers.
    pub fn listen(&mut self, rt: &R, port: NodeId, peers: &[NodeId]) -> Result<(), LinkFail> {
        self.strangers.reserve()?;
        self.peers.reserve(peers.len())?;
        for peer in peers {
            self.peers.push(Peer::new(self.alloc, *peer))?;
        }
        self.port = Some(port);
        let opened = TcpListener::bind(rt, (Ipv4Addr::LOCALHOST, port.port()));
        let listener = opened.map_err(|_| LinkFail::Failed)?;
        listener
            .set_nonblocking(true)
            .map_err(|_| LinkFail::Failed)?;
        let waiter = Waiter::new(rt, self.alloc)?;
        if !waiter.watch(&listener, LISTENER, Interest::READABLE) {
            return Err(LinkFail::Failed);
        }
        self.waiter = Some(waiter);
        self.listener = Some(listener);
        Ok(())
    }

    /// What the peers' streams have, each in its turn.
    pub fn poll(&mut self, buf: &mut [u8]) -> LinkEvent
        ensures room { length buf.new ≡ length buf.old }
        ensures within { IsWithin (length buf.old) result }
    {
        let count = self.peers.len();
        for step in 0..count {
            let at = self.turn.wrapping_add(step) % count;
            let Some(peer) = self.peers.get_mut(at) else {
                return LinkEvent::Quiet;
            };
            let id = peer.id;
            match peer.poll(buf) {
                Got::Bytes(bytes) => {
                    self.has_more = peer.has_more();
                    self.turn = at.wrapping_add(1);
                    self.hot = at;
                    return LinkEvent::Bytes(id, bytes);
                }
                Got::Ended => return LinkEvent::Ended(id),
                Got::Nothing => {}
            }
        }
        LinkEvent::Quiet
    }

    /// Keeps what has come from every peer, and says whether anything had.
    pub fn keep_all(&mut self) -> Result<bool, AllocError> {
        let mut buf = [0u8; 65536];
        let mut any = false;
        for peer in self.peers.iter_mut() {
            if peer.keep(&mut buf)? {
                any = true;
            }
        }
        Ok(any)
    }
}

impl<R: Net + Clock> Streams<R> {
    /// Waits until a socket is ready, at most this many microseconds, and takes in the streams that
    /// came. With 0 it does not wait.
    pub fn look(&mut self, rt: &R, micros: u64) {
        self.spinning.looked();
        if let Some(waiter) = &mut self.waiter {
            waiter.wait(micros);
            for event in waiter.found() {
                let failed = event.is_read_closed() || event.is_error();
                if !found_ready(&mut self.peers, event.token(), failed) {
                    self.has_strangers = true;
                }
            }
        }
        if self.has_strangers {
            self.has_strangers = self.accept(rt);
            self.strangers.name_all(&mut self.peers);
        }
    }

    /// Accepts the streams that wait, as many as there is room for. It says whether more may wait.
    fn accept(&mut self, rt: &R) -> bool {
        let (Some(listener), Some(waiter)) = (&self.listener, &self.waiter) else {
            return false;
        };
        for _ in 0..MOST_ACCEPTED {
            if !self.strangers.make_room(rt) {
                return true;
            }
            match listener.accept() {
                Ok((stream, _)) => {
                    self.accepted = self.accepted.wrapping_add(1);
                    let token = Token(self.accepted);
                    if stream.set_nonblocking(true).is_ok()
                        && waiter.watch(&stream, token, Interest::READABLE)
                    {
                        self.strangers.hold(rt, stream, token);
                    }
                }
                Err(e) if e.kind() == ErrorKind::Interrupted => {}
                Err(e) => return e.kind() != ErrorKind::WouldBlock,
            }
        }
        true
    }
}

/// The stream from the peer that has this token was found ready. It says whether a peer's has it.
fn found_ready<S: Read + Drop>(peers: &mut Vec<Peer<S>>, token: Token, failed: bool) -> bool {
    if token == OUTGOING {
        return true;
    }
    for peer in peers.iter_mut() {
        if peer.token == Some(token) {
            peer.found_ready(failed);
            return true;
        }
    }
    false
}
