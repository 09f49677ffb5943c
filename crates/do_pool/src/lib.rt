//! One region of cells, with queues threaded through it.
//!
//! It stands on the kit's `slab`, which gives the cells. It promises that each queue is a list,
//! that posting and taking use room that was reserved before, and that no queue disturbs another.
//! The form is this project's own.
//!
//! On an error `reserve` promises the same content and no less room, since the kit's `slab`
//! promises no more. `Cells::post` and `take` ask for a queue that is there.
#![tactic(auto)]

ghost use Rattle.std.specs.Prelude.{◌≡◌, [], ◌∷◌, ◌++◌, ◌+◌, ◌<◌, ◌≤◌, length, slice_get};
ghost use Rattle.std.specs.Prelude.{slice_set, IfOk, OnOk, MatchOption, Some, List, replicate};

mod line;

use line::{Cell, Line, link};
use slab::Slab;
use std::alloc::{AllocError, Global};
use std::marker::Model;

/// Queues that share one region of cells.
///
/// Contracts see the list of each queue, oldest item first, and how many cells are free. A step
/// reserves first, where memory may run out, and then posts, which always succeeds.
#[derive(Drop)]
pub struct Cells<T> {
    cells: Slab<Cell<T>>,
    lines: Vec<Line>,
}

impl<T> Model for Cells<T> {
    ghost use Rattle.do_pool.specs.Pool.{Pool, pool_code};

    ghost Value = { Pool T };

    ghost coded = { pool_code T.code };

    ghost use Rattle.do_pool.specs.Lines.{pool_of, Sound};

    ghost view = { λ p. pool_of p.cells p.lines.items };

    ghost invariant = { λ p. Sound p.cells p.lines.items };
}

impl<T> Cells<T> {
    /// `queues` empty queues, and no cell.
    pub fn new(alloc: Global, queues: usize) -> Result<Cells<T>, AllocError>
        ensures { IfOk result (λ made. made ≡ record { queues = replicate queues []; spare = 0 }) }
    {
        let lines = vec![in alloc; Line {
            first: 0,
            last: 0,
            len: 0
        }; queues]?;
        Ok(Cells {
            cells: Slab::new(alloc),
            lines,
        })
    }

    /// Makes room for `more` items at least, to be posted to any of the queues.
    ///
    /// If memory runs out, the queues are unchanged.
    pub fn reserve(&mut self, more: u64) -> Result<(), AllocError>
        ensures queues { self.new.queues ≡ self.old.queues }
        ensures ok { OnOk result (more ≤ self.new.spare) }
        ensures kept { self.old.spare ≤ self.new.spare }
    {
        self.cells.reserve(more as usize)
    }

    /// How many more items can be posted.
    pub fn spare(&self) -> u64
        ensures { result ≡ self.now.spare }
    {
        let capacity = self.cells.capacity();
        let len = self.cells.len();
        (capacity - len) as u64
    }

    /// Appends an item to a queue, in room that was made before.
    pub fn post(&mut self, queue: usize, item: T)
        requires queue { queue < length self.old.queues }
        requires room { 0 < self.old.spare }
        ensures queues { (items : List T) → slice_get self.old.queues queue ≡ Some items
            → self.new.queues ≡ slice_set self.old.queues queue (items ++ item ∷ []) }
        ensures count { length self.new.queues ≡ length self.old.queues }
        ensures spare { self.new.spare + 1 ≡ self.old.spare }
    {
        let line = self.lines[queue];
        let key = self.cells.insert_reserved(Cell { item, next: 0 });
        // Read for the proof alone: a queue has no more cells than there are.
        let _count = self.cells.len();
        if line.len == 0 {
            self.lines[queue] = Line {
                first: key,
                last: key,
                len: 1,
            };
            return;
        }
        link(&mut self.cells, line.last, key);
        self.lines[queue] = Line {
            first: line.first,
            last: key,
            len: line.len + 1,
        };
    }

    /// Takes the oldest item out of a queue. None exactly where the queue is empty.
    pub fn take(&mut self, queue: usize) -> Option<T>
        requires { queue < length self.old.queues }
        ensures count { length self.new.queues ≡ length self.old.queues }
        ensures item { MatchOption result
            ((slice_get self.old.queues queue ≡ Some []) × (self.new ≡ self.old))
            (λ item. (items : List T) × (slice_get self.old.queues queue ≡ Some (item ∷ items))
            × (self.new.queues ≡ slice_set self.old.queues queue items)
            × (self.new.spare ≡ self.old.spare + 1)) }
    {
        let line = self.lines[queue];
        if line.len == 0 {
            return None;
        }
        let Cell { item, next } = self.cells.remove(line.first);
        self.lines[queue] = Line {
            first: next,
            last: line.last,
            len: line.len - 1,
        };
        Some(item)
    }
}
