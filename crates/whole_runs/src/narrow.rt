//! An output that takes a byte at a time.
ghost use Rattle.std.specs.Prelude.{Some};

use do_base::{PutFail, Sink, Text};
use std::alloc::Global;

/// It takes a byte at a time until it has taken so many, and then fails.
#[derive(Drop)]
pub(crate) struct Narrow {
    taken: Text,
    left: u64,
    faults: u64,
}

impl Narrow {
    /// An output that takes so many bytes, before its first put.
    pub(crate) fn new(alloc: Global, left: u64) -> Narrow {
        Narrow {
            taken: Text::new(alloc),
            left,
            faults: 0,
        }
    }

    /// What was put.
    pub(crate) fn taken(&self) -> &Text {
        &self.taken
    }
}

impl Sink for Narrow {
    ghost written = { λ s. Some s.taken };

    ghost faults = { λ s. s.faults };

    fn put(&mut self, piece: &[u8]) -> Result<usize, PutFail> {
        if self.left == 0 {
            self.faults = self.faults.saturating_add(1);
            return Err(PutFail::Failed);
        }
        self.taken.push(piece[0])?;
        self.left -= 1;
        Ok(1)
    }
}
