ghost use Rattle.std.specs.{Prelude.{◌≡◌, ◌++◌, ℕ, List, [], take}, Borrow.ftrue};

use std::marker::Model;

/// The bytes that an output took so far. They are there in proofs alone.
///
/// Nothing but the clauses of this type relates them to memory, and so they bind what is generic
/// over an output: it can tell no byte that it did not hand over.
#[derive(Drop)]
pub struct Taken {
    pub ghost bytes: { List ℕ },
}

impl Model for Taken {
    ghost also_owns = { λ _. ftrue };
}

/// Bytes of which an output took so many from the front.
#[derive(Clone, Copy, Drop)]
pub struct Piece<'a> {
    /// All that was handed over.
    pub bytes: &'a [u8],
    /// How many of them were taken.
    pub count: usize,
}

impl Taken {
    /// Before the first byte.
    pub fn new() -> Taken
        ensures { result.bytes ≡ [] }
    {
        Taken {}
    }

    /// Once some bytes more were taken.
    pub fn with(&self, _piece: &Piece<'_>) -> Taken
        ensures { result.bytes ≡ self.now.bytes ++ take _piece.now.count _piece.now.bytes.now }
    {
        Taken {}
    }
}
