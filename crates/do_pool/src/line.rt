//! A queue as it lies in the region: its first and last cell, each cell leading to the next.
ghost use Rattle.std.specs.Prelude.{◌≡◌, ◌≢◌, Some, ℕ};
ghost use Rattle.slab.specs.Slab.{get, slab_len, ContainsKey};

use slab::Slab;

/// An item with the key of the cell behind it, which means nothing in the last cell.
#[derive(Drop)]
pub struct Cell<T> {
    pub item: T,
    pub next: usize,
}

/// The keys of a queue's first and last cell, which mean nothing where it has no cell.
#[derive(Clone, Copy, Drop)]
pub struct Line {
    pub first: usize,
    pub last: usize,
    pub len: usize,
}

/// Lets a cell lead to another one.
pub fn link<T>(cells: &mut Slab<Cell<T>>, at: usize, next: usize)
    requires { ContainsKey cells.old at }
    ensures linked { (cell : Cell T) → get cells.old at ≡ Some cell
        → get cells.new at ≡ Some (record cell { next = next }) }
    ensures others { (other : ℕ) → other ≢ at → get cells.new other ≡ get cells.old other }
    ensures len { slab_len cells.new ≡ slab_len cells.old }
    ensures capacity { cells.new.capacity ≡ cells.old.capacity }
{
    cells[at].next = next;
}
