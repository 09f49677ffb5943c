//! The streams between a site and its peers.
mod reading;

ghost use Rattle.std.specs.Prelude.{◌≡◌, ◌≤◌, ◌+◌, ◌<◌, ◌++◌, ◌∷◌, [], IfOk, IfSome, MatchOption};
ghost use Rattle.std.specs.Prelude.{◌↔◌, IsTrue, None, OnErr, OnOk, map};
ghost use Rattle.do_network.specs.{Links.{Sending, piece_bytes, sending}, Net.opening_link};
ghost use Rattle.do_network.specs.Spelled.{IsSpelledSending};
ghost use Rattle.do_streams.specs.Streamed.{link_of, outbox};

use crate::end::{End, Outgoing};
use crate::fetching::fetch;
use crate::spelled::Spelled;
use crate::spelling::spell_if_none;
use crate::waiting::Waiting;
use do_base::{Items, NodeId, Peers, Shown, Text};
use do_class::ClassTable;
use do_frames::Frame;
use do_ported::Ports;
use std::alloc::{AllocError, Global};
use std::marker::Model;

/// The streams between a site and its peers, and the lines that it shows.
///
/// Contracts see the links as they are behind all frames that wait, what is sent of these frames,
/// the lines that wait, the room left, the places with no frame in them, which are room or hold a
/// line, and by how many classes frames are read, which no step changes. A frame is spelled when it
/// is fetched, and not before: so posting it takes no memory but its place, which is room again
/// once it is fetched.
#[derive(Drop)]
pub struct Streams {
    ports: Ports,
    ends: Items<End>,
    spelled: Option<Spelled>,
    waiting: Waiting,
    classes: usize,
}

impl Model for Streams {
    ghost use Rattle.do_base.specs.contracts.events.shown.Shown as line;
    ghost use Rattle.do_class.specs.contracts.packet.Part as part;
    ghost use Rattle.std.specs.Coded.{codes};
    ghost use Rattle.do_streams.specs.{Ordered.AreOrdered, Streamed.{Streamed, streamed_of}};

    ghost Value = { Streamed };

    ghost coded = { Prim.hlevel (codes, line.the_row.coded, part.the_row.coded) };

    ghost view = { λ s. streamed_of s.ends s.spelled s.waiting s.classes };

    ghost invariant = { λ s. AreOrdered s.classes s.ports s.ends s.waiting.frames };
}

/// The ends of peers, before anything was sent or read.
fn opening_ends(alloc: Global, peers: &Peers) -> Result<Items<End>, AllocError>
    ensures { IfOk result (λ ends. map link_of ends ≡ map opening_link peers.now) }
{
    let mut ends = Items::new(alloc);
    for peer in peers.as_slice() {
        ends.push(End::new(alloc, *peer))?;
    }
    Ok(ends)
}

/// What was fetched is no longer spelled. It is a call of its own, since most steps send nothing.
#[inline(never)]
fn forget(spelled: &mut Option<Spelled>)
    ensures { spelled.new ≡ None }
{
    *spelled = None;
}

impl Streams {
    /// The streams between a site and these peers, before anything was sent or read; frames are
    /// read by so many classes.
    pub fn new(alloc: Global, peers: &Peers, classes: usize) -> Result<Streams, AllocError>
        ensures { IfOk result (λ s. s ≡ record {
          links = map opening_link peers.now;
          frames = [];
          shown = [];
          room = 0;
          bare = 0;
          classes = classes;
        }) }
    {
        let ends = opening_ends(alloc, peers)?;
        let ports = Ports::new(Items::from_slice(alloc, peers.as_slice())?);
        let waiting = Waiting::new(alloc)?;
        Ok(Streams {
            ports,
            ends,
            spelled: None,
            waiting,
            classes,
        })
    }

    /// Makes room for so many more frames and lines at least, taken together.
    ///
    /// If memory runs out, nothing changes.
    pub fn reserve(&mut self, more: usize) -> Result<(), AllocError>
        ensures same { self.new
            ≡ record self.old { room = self.new.room; bare = self.new.bare } }
        ensures ok { OnOk result (more ≤ self.new.room) }
        ensures err { OnErr result (self.new ≡ self.old) }
        ensures kept { self.old.room ≤ self.new.room }
        ensures bare { self.old.bare ≤ self.new.bare }
        ensures most { self.new.room ≤ self.new.bare }
    {
        self.waiting.reserve(more)
    }

    /// Sends a frame to a peer, behind all that wait, in room that was made before. Where there is
    /// no link with the peer, nothing is sent.
    pub fn post(&mut self, to: NodeId, frame: Frame)
        requires { 0 < self.old.room }
        ensures sent { outbox self.new
            ≡ sending (outbox self.old) (record { to = to; frame = frame }) }
        ensures shown { self.new.shown ≡ self.old.shown }
        ensures room { self.old.room ≤ self.new.room + 1 }
        ensures bare { self.old.bare ≤ self.new.bare + 1 }
        ensures classes { self.new.classes ≡ self.old.classes }
    {
        if !self.ports.has(to) {
            return;
        }
        self.waiting.post(Outgoing { to, frame });
    }

    /// Shows a line, behind all that wait, in room that was made before.
    pub fn show(&mut self, line: Shown)
        requires { 0 < self.old.room }
        ensures shown { self.new.shown ≡ self.old.shown ++ line ∷ [] }
        ensures sent { outbox self.new ≡ outbox self.old }
        ensures room { self.old.room ≤ self.new.room + 1 }
        ensures bare { self.new.bare ≡ self.old.bare }
        ensures classes { self.new.classes ≡ self.old.classes }
    {
        self.waiting.show(line);
    }

    /// Takes out the oldest frame that waits, or the greeting before it, appends its bytes, and
    /// tells the peer that it goes to. None exactly where no frame waits.
    ///
    /// Frames are sent from this port, by these classes. If memory runs out, or the oldest frame
    /// has no spelling that its peer can read, what waits is unchanged, as are the bytes.
    pub fn next_frame(
        &mut self,
        table: &ClassTable,
        me: NodeId,
        bytes: &mut Text,
    ) -> Result<Option<NodeId>, AllocError>
        ensures which { IfOk result (λ to. MatchOption to
            ((self.old.frames ≡ []) × (self.new.frames ≡ []) × (bytes.new ≡ bytes.old))
            (λ peer. (s : Sending) × (self.old.frames ≡ s ∷ self.new.frames) × (peer ≡ s.to)
            × (bytes.new ≡ bytes.old ++ piece_bytes s.piece))) }
        ensures spelled { IfOk result (λ to. IfSome to (λ peer. (s : Sending)
            → self.old.frames ≡ s ∷ self.new.frames → IsSpelledSending table.now me s)) }
        ensures links { self.new.links ≡ self.old.links }
        ensures shown { self.new.shown ≡ self.old.shown }
        ensures room { self.old.room ≤ self.new.room }
        ensures bare { self.old.bare ≤ self.new.bare }
        ensures classes { self.new.classes ≡ self.old.classes }
        ensures err { OnErr result
            ((self.new.frames ≡ self.old.frames) × (bytes.new ≡ bytes.old)) }
    {
        // Most steps send nothing.
        if self.is_sent() {
            return Ok(None);
        }
        let alloc = bytes.allocator();
        spell_if_none(
            alloc,
            &mut self.spelled,
            &self.ports,
            &mut self.ends,
            &mut self.waiting,
        )?;
        let Some(next) = &self.spelled else {
            return Ok(None);
        };
        let to = fetch(next, table, me, bytes)?;
        forget(&mut self.spelled);
        Ok(Some(to))
    }

    /// Takes out the oldest line that waits. None exactly where there is none.
    pub fn next_shown(&mut self) -> Option<Shown>
        ensures which { MatchOption result
            ((self.old.shown ≡ []) × (self.new.shown ≡ []))
            (λ line. self.old.shown ≡ line ∷ self.new.shown) }
        ensures sent { outbox self.new ≡ outbox self.old }
        ensures room { self.old.room ≤ self.new.room }
        ensures bare { self.new.bare ≡ self.old.bare }
        ensures classes { self.new.classes ≡ self.old.classes }
    {
        self.waiting.take_line()
    }

    /// Whether all frames were fetched.
    fn is_sent(&self) -> bool
        ensures { IsTrue result ↔ self.now.frames ≡ [] }
    {
        if self.spelled.is_some() {
            return false;
        }
        self.waiting.has_no_frame()
    }

    /// Whether all lines were taken out. All places that no frame is in are room then.
    pub fn is_told(&self) -> bool
        ensures value { IsTrue result ↔ self.now.shown ≡ [] }
        ensures room { IsTrue result → self.now.room ≡ self.now.bare }
        ensures most { self.now.room ≤ self.now.bare }
    {
        self.waiting.has_no_line()
    }
}
