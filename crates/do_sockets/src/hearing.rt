//! What a node hears of its peers.
ghost use Rattle.std.specs.Prelude.{◌≡◌, length};
ghost use Rattle.do_link.specs.Told.{IsWithin};

use crate::reading::Got;
use crate::streams::Streams;
use crate::timing::Deadline;
use do_link::LinkEvent;
use std::net::Net;
use std::time::Clock;

/// For how many microseconds a poll reads on before it sleeps.
const SPIN_TIME: u64 = 50;

impl<R: Net + Clock> Streams<R> {
    /// What comes next. Where nothing has, it waits for a socket, at most this many microseconds.
    pub fn hear(&mut self, rt: &R, buf: &mut [u8], wait: u64) -> LinkEvent
        ensures room { length buf.new ≡ length buf.old }
        ensures within { IsWithin (length buf.old) result }
    {
        self.flush_all(rt);
        let event = self.poll(buf);
        match &event {
            LinkEvent::Quiet => {}
            LinkEvent::Bytes(..) if self.has_more => {
                // So that the others have their turn too.
                self.look(rt, 0);
                return event;
            }
            _ => return event,
        }
        if wait > 0 && self.spinning.is_due() {
            let event = self.hear_soon(rt, buf);
            if !matches!(&event, LinkEvent::Quiet) {
                return event;
            }
        }
        self.sleep(rt, buf, wait)
    }

    /// What comes soon, without a sleep. Now and then it looks at all sockets first, so that a peer
    /// that always answers soon keeps no other out.
    fn hear_soon(&mut self, rt: &R, buf: &mut [u8]) -> LinkEvent
        ensures room { length buf.new ≡ length buf.old }
        ensures within { IsWithin (length buf.old) result }
    {
        if self.spinning.is_to_look() {
            self.look(rt, 0);
            let event = self.poll(buf);
            if !matches!(&event, LinkEvent::Quiet) {
                return event;
            }
        }
        let event = self.spin(rt, buf);
        self.spinning.read_on(!matches!(&event, LinkEvent::Quiet));
        event
    }

    /// Reads the peer that was heard or sent to last, for a short time, until something comes.
    fn spin(&mut self, rt: &R, buf: &mut [u8]) -> LinkEvent
        ensures room { length buf.new ≡ length buf.old }
        ensures within { IsWithin (length buf.old) result }
    {
        let Some(peer) = self.peers.get_mut(self.hot) else {
            return LinkEvent::Quiet;
        };
        if peer.incoming.is_none() {
            return LinkEvent::Quiet;
        }
        let id = peer.id;
        let deadline = Deadline::after(rt, SPIN_TIME);
        for _ in 0..u64::MAX {
            match peer.poll_now(buf) {
                Got::Bytes(bytes) => {
                    self.turn = self.hot.saturating_add(1);
                    return LinkEvent::Bytes(id, bytes);
                }
                Got::Ended => return LinkEvent::Ended(id),
                Got::Nothing => {}
            }
            if deadline.has_passed(rt) {
                return LinkEvent::Quiet;
            }
        }
        LinkEvent::Quiet
    }

    /// Waits for a socket, and gives what comes next then.
    fn sleep(&mut self, rt: &R, buf: &mut [u8], wait: u64) -> LinkEvent
        ensures room { length buf.new ≡ length buf.old }
        ensures within { IsWithin (length buf.old) result }
    {
        let soon = Deadline::after(rt, SPIN_TIME);
        self.look(rt, wait);
        let is_soon = !soon.has_passed(rt);
        let event = self.poll(buf);
        self.spinning
            .slept(is_soon && !matches!(&event, LinkEvent::Quiet));
        event
    }
}
