//! The frames that wait to be fetched and the lines that wait to be shown, in one region of cells.
//!
//! The frames that wait for any peer and the lines that wait stand in one region of cells, in
//! one queue of frames and one of lines. So room for both is one number, which is made at once,
//! and a frame that waits for one peer takes what a line could have taken. Frames to all peers
//! share a queue, since they are fetched in the order in which they were sent, whatever peer
//! they go to. A queue for each link would need an order among the queues. The oldest frame is
//! taken out of its cell before it is spelled, and waits beside the region until its bytes are
//! there.
ghost use Rattle.std.specs.Prelude.{◌≡◌, ◌≤◌, ◌+◌, ◌<◌, ◌++◌, ◌∷◌, [], IfOk, IsTrue, MatchOption};
ghost use Rattle.std.specs.Prelude.{◌↔◌, None, OnErr, OnOk, Some, slice_get};
ghost use Rattle.std.specs.Option.{option_copied};
ghost use Rattle.do_streams.specs.Waits.{AreApart, framed, lined};

use crate::end::Outgoing;
use do_base::Shown;
use do_pool::Cells;
use std::alloc::{AllocError, Global};
use std::marker::Model;

/// The queue of the cells that hold frames.
const FRAMES: usize = 0;

/// The queue of the cells that hold lines.
const LINES: usize = 1;

/// What waits in a cell.
#[derive(Drop)]
pub enum Queued {
    /// A frame that is to be spelled.
    Frame(Outgoing),
    /// A line that is to be shown.
    Line(Shown),
}

/// The frames to all peers and the lines that wait, for which room is one number.
///
/// Contracts see both lists, the oldest first, how many more of either can be put behind them with
/// no memory, and in how many places there is no frame: these are room or hold a line, so only
/// frames take of them. The oldest frame is taken out of its cell before it is spelled, so its
/// place is room again; it waits before the others until it is handed out.
#[derive(Drop)]
pub struct Waiting {
    cells: Cells<Queued>,
    oldest: Option<Outgoing>,
    room: usize,
    bare: usize,
    places: usize,
}

impl Model for Waiting {
    ghost use Rattle.do_base.specs.contracts.events.shown.Shown as line;
    ghost use Rattle.do_class.specs.contracts.packet.Part as part;
    ghost use Rattle.std.specs.Coded.{codes};
    ghost use Rattle.do_streams.specs.Waits.{AreQueued, Waits, waits_of};

    ghost Value = { Waits };

    ghost coded = { Prim.hlevel (codes, line.the_row.coded, part.the_row.coded) };

    ghost view = { λ w. waits_of w.cells w.oldest w.room w.bare };

    ghost invariant = { λ w. AreQueued w.cells w.room w.bare w.places };
}

/// Takes the oldest frame out of its cell. None exactly where no cell holds one.
fn take_frame(cells: &mut Cells<Queued>) -> Option<Outgoing>
    requires { AreApart cells.old }
    ensures apart { AreApart cells.new }
    ensures which { MatchOption result ((framed cells.old ≡ []) × (cells.new ≡ cells.old))
        (λ x. (framed cells.old ≡ x ∷ framed cells.new)
        × (cells.new.spare ≡ cells.old.spare + 1)) }
    ensures lines { lined cells.new ≡ lined cells.old }
{
    match cells.take(FRAMES)? {
        Queued::Frame(frame) => Some(frame),
        Queued::Line(_) => unreachable!(),
    }
}

/// Takes the oldest line out of its cell. None exactly where no cell holds one. It is a call of its
/// own, since most steps show nothing.
#[inline(never)]
fn take_line(cells: &mut Cells<Queued>) -> Option<Shown>
    requires { AreApart cells.old }
    ensures apart { AreApart cells.new }
    ensures which { MatchOption result ((lined cells.old ≡ []) × (cells.new ≡ cells.old))
        (λ line. (lined cells.old ≡ line ∷ lined cells.new)
        × (cells.new.spare ≡ cells.old.spare + 1)) }
    ensures frames { framed cells.new ≡ framed cells.old }
{
    match cells.take(LINES)? {
        Queued::Line(line) => Some(line),
        Queued::Frame(_) => unreachable!(),
    }
}

impl Waiting {
    /// Nothing that waits, and no room.
    pub fn new(alloc: Global) -> Result<Waiting, AllocError>
        ensures { IfOk result (λ w. w
            ≡ record { frames = []; oldest = None; shown = []; room = 0; bare = 0 }) }
    {
        Ok(Waiting {
            cells: Cells::new(alloc, 2)?,
            oldest: None,
            room: 0,
            bare: 0,
            places: 0,
        })
    }

    /// Makes room for so many more frames and lines, taken together.
    ///
    /// If memory runs out, all is as it was.
    pub fn reserve(&mut self, more: usize) -> Result<(), AllocError>
        ensures same { self.new
            ≡ record self.old { room = self.new.room; bare = self.new.bare } }
        ensures ok { OnOk result (more ≤ self.new.room) }
        ensures err { OnErr result (self.new ≡ self.old) }
        ensures kept { self.old.room ≤ self.new.room }
        ensures bare { self.old.bare ≤ self.new.bare }
        ensures most { self.new.room ≤ self.new.bare }
    {
        if more <= self.room {
            return Ok(());
        }
        let lacking = more - self.room;
        let Some(places) = self.places.checked_add(lacking) else {
            return Err(AllocError);
        };
        self.cells.reserve(more as u64)?;
        self.room = more;
        self.bare += lacking;
        self.places = places;
        Ok(())
    }

    /// Puts a frame behind all that wait, in room that was made before.
    pub fn post(&mut self, frame: Outgoing)
        requires { 0 < self.old.room }
        ensures frames { self.new.frames ≡ self.old.frames ++ frame ∷ [] }
        ensures shown { self.new.shown ≡ self.old.shown }
        ensures room { self.new.room + 1 ≡ self.old.room }
        ensures bare { self.new.bare + 1 ≡ self.old.bare }
    {
        self.cells.post(FRAMES, Queued::Frame(frame));
        self.room -= 1;
        self.bare -= 1;
    }

    /// Puts a line behind all that wait, in room that was made before.
    pub fn show(&mut self, line: Shown)
        requires { 0 < self.old.room }
        ensures frames { self.new.frames ≡ self.old.frames }
        ensures shown { self.new.shown ≡ self.old.shown ++ line ∷ [] }
        ensures room { self.new.room + 1 ≡ self.old.room }
        ensures bare { self.new.bare ≡ self.old.bare }
    {
        self.cells.post(LINES, Queued::Line(line));
        self.room -= 1;
    }

    /// Takes the oldest frame out of its cell, if that is not done.
    pub(crate) fn bring_oldest(&mut self)
        ensures oldest { self.new.oldest ≡ slice_get self.new.frames 0 }
        ensures frames { self.new.frames ≡ self.old.frames }
        ensures shown { self.new.shown ≡ self.old.shown }
        ensures room { self.old.room ≤ self.new.room }
        ensures bare { self.old.bare ≤ self.new.bare }
    {
        if self.oldest.is_some() {
            return;
        }
        let Some(frame) = take_frame(&mut self.cells) else {
            return;
        };
        self.oldest = Some(frame);
        self.room += 1;
        self.bare += 1;
    }

    /// The oldest frame. None where it still is in its cell, or none waits.
    pub fn oldest(&self) -> Option<&Outgoing>
        ensures { option_copied result ≡ self.now.oldest }
    {
        self.oldest.as_ref()
    }

    /// Hands out the oldest frame. None where it still is in its cell, or none waits.
    pub fn take_oldest(&mut self) -> Option<Outgoing>
        ensures frame { result ≡ self.old.oldest }
        ensures frames { (x : Outgoing) → self.old.oldest ≡ Some x
            → self.old.frames ≡ x ∷ self.new.frames }
        ensures shown { self.new.shown ≡ self.old.shown }
        ensures room { self.new.room ≡ self.old.room }
        ensures bare { self.new.bare ≡ self.old.bare }
    {
        self.oldest.take()
    }

    /// Takes out the oldest line. None exactly where there is none.
    pub(crate) fn take_line(&mut self) -> Option<Shown>
        ensures which { MatchOption result
            ((self.old.shown ≡ []) × (self.new.shown ≡ []))
            (λ line. self.old.shown ≡ line ∷ self.new.shown) }
        ensures frames { self.new.frames ≡ self.old.frames }
        ensures room { self.old.room ≤ self.new.room }
        ensures bare { self.new.bare ≡ self.old.bare }
    {
        if self.has_no_line() {
            return None;
        }
        let line = take_line(&mut self.cells)?;
        self.room += 1;
        Some(line)
    }

    /// Whether no frame waits.
    pub(crate) fn has_no_frame(&self) -> bool
        ensures { IsTrue result ↔ self.now.frames ≡ [] }
    {
        self.oldest.is_none() && self.bare == self.places
    }

    /// Whether no line waits. All places that no frame is in are room then.
    pub(crate) fn has_no_line(&self) -> bool
        ensures value { IsTrue result ↔ self.now.shown ≡ [] }
        ensures room { IsTrue result → self.now.room ≡ self.now.bare }
        ensures most { self.now.room ≤ self.now.bare }
    {
        self.room == self.bare
    }
}
