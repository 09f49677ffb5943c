//! The serials of the objects that wait to be looked at, oldest first.
ghost use Rattle.std.specs.Prelude.{◌≡◌, [], ◌∷◌, ◌++◌, ◌+◌, ◌<◌, ◌≤◌, MatchOption, IfOk, OnOk};

use do_pool::Cells;
use std::alloc::{AllocError, Global};
use std::marker::Model;

/// A queue of serials with room that was made before. A serial may be that of no object by now.
#[derive(Drop)]
pub struct Waiting {
    cells: Cells<u64>,
}

impl Model for Waiting {
    ghost use Rattle.std.specs.Prelude.{◌≡◌, [], length, get_or};
    ghost use Rattle.do_store.specs.Queue.{Queue};

    ghost Value = { Queue };

    ghost view = { λ w. record { serials = get_or w.cells.queues 0 []; spare = w.cells.spare } };

    ghost invariant = { λ w. length w.cells.queues ≡ 1 };
}

impl Waiting {
    /// No serial and no room.
    pub fn new(alloc: Global) -> Result<Waiting, AllocError>
        ensures { IfOk result (λ w. w ≡ record { serials = []; spare = 0 }) }
    {
        let cells = Cells::new(alloc, 1)?;
        Ok(Waiting { cells })
    }

    /// Makes room for `more` serials at least.
    pub fn reserve(&mut self, more: u64) -> Result<(), AllocError>
        ensures serials { self.new.serials ≡ self.old.serials }
        ensures ok { OnOk result (more ≤ self.new.spare) }
        ensures kept { self.old.spare ≤ self.new.spare }
    {
        self.cells.reserve(more)
    }

    /// How many more serials fit.
    pub fn spare(&self) -> u64
        ensures { result ≡ self.now.spare }
    {
        self.cells.spare()
    }

    /// Puts a serial at the end.
    pub fn post(&mut self, serial: u64)
        requires { 0 < self.old.spare }
        ensures serials { self.new.serials ≡ self.old.serials ++ serial ∷ [] }
        ensures spare { self.new.spare + 1 ≡ self.old.spare }
    {
        self.cells.post(0, serial);
    }

    /// Takes the oldest serial. None exactly where there is none.
    pub fn take(&mut self) -> Option<u64>
        ensures { MatchOption result ((self.old.serials ≡ []) × (self.new ≡ self.old))
            (λ serial. (self.old.serials ≡ serial ∷ self.new.serials)
            × (self.new.spare ≡ self.old.spare + 1)) }
    {
        self.cells.take(0)
    }
}
