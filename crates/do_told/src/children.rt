//! The children of a spawner.
ghost use Rattle.std.specs.{Prelude.{◌≡◌, ◌++◌, ◌∷◌, [], List}, Borrow.ftrue, Coded.coded_list};
ghost use Rattle.do_lab.specs.Told.{Spawned};
ghost use Rattle.do_told.specs.Children.{spawned_code, spawned_of};

use do_base::Word;
use do_lab::ChildId;
use std::marker::Model;

/// The starts and waits of a spawner so far. They are there in proofs alone.
///
/// Nothing but the clauses of this type relates them to memory, and so they bind what is generic
/// over a spawner: it can tell no start that was not made of it.
#[derive(Drop)]
pub struct Children {
    pub ghost list: { List Spawned } by { coded_list spawned_code },
}

impl Model for Children {
    ghost also_owns = { λ _. ftrue };
}

/// A start or a wait and what it came to; none where it failed.
#[derive(Clone, Copy, Drop)]
pub enum Child<'a> {
    /// A start with these words.
    Started(&'a [Word], Option<ChildId>),
    /// A wait for a child, and its status.
    Waited(ChildId, Option<i32>),
}

impl Children {
    /// Before the first start.
    pub fn new() -> Children
        ensures { result.list ≡ [] }
    {
        Children {}
    }

    /// Once one start or wait more was made.
    pub fn with(&self, _child: &Child<'_>) -> Children
        ensures { result.list ≡ self.now.list ++ spawned_of _child.now ∷ [] }
    {
        Children {}
    }
}
