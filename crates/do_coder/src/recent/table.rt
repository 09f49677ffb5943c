ghost use Rattle.std.specs.Prelude.{◌≡◌, [], length, IfOk};
ghost use Rattle.do_coder.specs.Recent.{IsRecent};

use crate::recent::name_log::NameLog;
use std::alloc::{AllocError, Global};
use std::marker::Model;
use std::mem;

/// The table of recent names: at most 256 pairs of serial and class, all different, the oldest
/// first.
///
/// For each direction of a connection its writer and its reader keep one. Contracts see a table as
/// the list of its pairs.
#[derive(Debug, Drop)]
pub struct Recent {
    pub(crate) log: NameLog,
}

impl Model for Recent {
    ghost use Rattle.std.specs.Prelude.{List, ◌≡◌};
    ghost use Rattle.do_coder.specs.declared.recent.pair.Pair.{Pair};

    ghost Value = { List Pair };

    ghost view = { λ r. r.log.now };

    ghost invariant = { λ r. r.log.kept ≡ r.log.now };
}

impl Recent {
    /// The empty table, for which no memory is taken.
    pub fn new(alloc: Global) -> Recent
        ensures { result ≡ [] }
    {
        Recent {
            log: NameLog::new(alloc),
        }
    }

    /// How many pairs there are.
    pub fn len(&self) -> usize
        ensures value { result ≡ length self.now }
        ensures recent { IsRecent self.now }
    {
        self.log.len()
    }

    /// Takes the table out as a log, for a message of several parts, and leaves the empty table.
    pub fn take_log(&mut self) -> NameLog
        ensures log { result ≡ record { now = self.old; kept = self.old } }
        ensures left { self.new ≡ [] }
    {
        let empty = NameLog::new(self.log.allocator());
        mem::replace(&mut self.log, empty)
    }

    /// Puts a log in the table's place, with the pairs of the message that was read or written by
    /// it.
    pub fn keep(&mut self, log: NameLog)
        ensures { self.new ≡ log.now }
    {
        self.log = log;
        self.log.keep();
    }

    /// Puts a log in the table's place, without the pairs of a message that was given up.
    pub fn undo(&mut self, log: NameLog)
        ensures { self.new ≡ log.kept }
    {
        self.log = log;
        self.log.undo();
    }

    /// A table of the same pairs. `AllocError` comes where memory runs out.
    pub fn copy(&self) -> Result<Recent, AllocError>
        ensures { IfOk result (λ copy. copy ≡ self.now) }
    {
        let log = self.log.copy()?;
        Ok(Recent { log })
    }
}
