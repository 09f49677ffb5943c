//! What is under way from one node to another, as bytes.
//!
//! What a site sends is fetched in the same step, and its bytes are made once: the wire and the
//! channel share them. A frame that is taken keeps them, and they are copied only where the
//! wire still shares them. A greeting is known by its first byte, which no frame has.
ghost use Rattle.std.specs.Prelude.{◌≡◌, ◌==◌, [], IfOk, OnOk, false, if◌then◌else◌, length};
ghost use Rattle.std.specs.{Prelude.{nat_lt, not, option_map, slice_get}, Option.option_copied};
ghost use Rattle.do_net.specs.Lanes.{Advances, carried_of, frame_in, greets, laden};
ghost use Rattle.do_network.specs.Step.{with_loss};

use do_base::{NodeId, Text};
use do_frames::{Payload, RawFrame};
use do_ported::Ported;
use std::alloc::{AllocError, Global};
use std::collections::VecDeque;
use std::marker::Model;

/// What stands in a lane.
#[derive(Drop)]
pub enum Kept {
    /// A whole frame.
    Frame(Text),
    /// A mark at which the rest was lost.
    Loss,
}

/// What a node sent to a peer and the peer did not take yet, which contracts see as a channel.
#[derive(Drop)]
pub struct Lane {
    to: NodeId,
    waiting: VecDeque<Kept>,
    greeting: bool,
    begun: bool,
}

impl Model for Lane {
    ghost use Rattle.std.specs.Prelude.{map};
    ghost use Rattle.do_network.specs.Net.{Channel};
    ghost use Rattle.do_net.specs.Lanes.{carried_of};

    ghost Value = { Channel };

    ghost view = { λ l. record {
      to = l.to;
      waiting = map carried_of l.waiting.items;
      greeting = l.greeting;
      begun = l.begun;
    } };
}

/// The frame that bytes are: a kind, four bytes of a length, and a payload, which shares them.
pub fn frame_in(bytes: Text) -> RawFrame
    ensures { result ≡ frame_in bytes }
{
    let kind = match bytes.as_slice().first() {
        Some(kind) => *kind,
        None => 0,
    };
    RawFrame {
        kind,
        payload: Payload::behind(bytes, 5),
    }
}

/// Whether bytes begin as a greeting does.
fn greets(bytes: &Text) -> bool
    ensures { result ≡ greets bytes.now }
{
    match bytes.as_slice().first() {
        Some(first) => *first == 13,
        None => false,
    }
}

impl Lane {
    /// A lane over which nothing was sent.
    pub fn new(alloc: Global, to: NodeId) -> Lane
        ensures { result ≡ record { to = to; waiting = []; greeting = false; begun = false } }
    {
        Lane {
            to,
            waiting: VecDeque::new(alloc),
            greeting: false,
            begun: false,
        }
    }

    /// Adds bytes that are sent, a greeting or a whole frame, which it shares.
    pub fn carry(&mut self, bytes: &Text) -> Result<(), AllocError>
        ensures ok { OnOk result (self.new ≡ laden bytes.now self.old) }
        ensures to { self.new.to ≡ self.old.to }
    {
        if greets(bytes) {
            self.greeting = true;
            return Ok(());
        }
        let kept = Kept::Frame(bytes.clone()?);
        self.waiting.push_back(kept)?;
        Ok(())
    }

    /// How many stand in it.
    pub fn len(&self) -> usize
        ensures { result ≡ length self.now.waiting }
    {
        self.waiting.len()
    }

    /// What stands in it at a place, counted from 0 at the oldest. None exactly behind the last.
    pub fn at(&self, place: usize) -> Option<&Kept>
        ensures { option_map carried_of (option_copied result) ≡ slice_get self.now.waiting place }
    {
        self.waiting.get(place)
    }

    /// Whether nothing stands in it.
    pub fn is_empty(&self) -> bool
        ensures { result ≡ (length self.now.waiting == 0) }
    {
        self.len() == 0
    }

    /// Takes out the oldest of what stands in it. The greeting goes with the first frame.
    pub fn advance(&mut self) -> Option<Kept>
        ensures kept { Advances self.old self.new result }
        ensures to { self.new.to ≡ self.old.to }
    {
        let kept = self.waiting.pop_front()?;
        if let Kept::Frame(_) = &kept {
            self.greeting = false;
            self.begun = true;
        }
        Some(kept)
    }

    /// Puts the mark of a loss behind so many. False exactly where fewer stand in it.
    pub fn lose(&mut self, after: u64) -> Result<bool, AllocError>
        ensures told { IfOk result (λ told. told ≡ not (nat_lt (length self.old.waiting) after)) }
        ensures ok { IfOk result (λ told. self.new ≡ (if told then with_loss after self.old
            else self.old)) }
        ensures to { self.new.to ≡ self.old.to }
    {
        if (self.waiting.len() as u64) < after {
            return Ok(false);
        }
        self.waiting.insert(after as usize, Kept::Loss)?;
        Ok(true)
    }
}

impl Ported for Lane {
    ghost port = { λ c. c.to };

    fn port(&self) -> NodeId {
        self.to
    }
}
