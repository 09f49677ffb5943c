//! Where children are started.
ghost use Rattle.std.specs.Prelude.{◌≡◌, ◌≢◌, ◌<◌, ◌≤◌, ℕ, List, [], ◌∷◌, IfOk, IsErrOf};
ghost use Rattle.std.specs.declared.option.Option.{Option};
ghost use Rattle.do_base.specs.outside.Causes.{Rose};
ghost use Rattle.do_output.specs.Told.{TellsMore};
ghost use Rattle.do_lab.specs.Told.{start_told, wait_told};

use do_base::Word;
use std::alloc::{AllocError, AllocFailed};
use std::error::Error;
use std::fmt;

/// A child that a spawner started, by its number, which no other child of the spawner has.
#[derive(Clone, Copy, Debug, PartialEq, Eq)]
pub struct ChildId(pub u64);

/// Why a child was not started or not waited for.
#[derive(Clone, Copy, Debug, PartialEq, Eq)]
pub enum SpawnFail {
    /// The system could not do it.
    Failed,
    /// Memory ran out.
    Memory,
}

impl fmt::Display for SpawnFail {
    fn fmt<W: fmt::Write>(&self, f: &mut fmt::Formatter<W>) -> fmt::Result {
        match *self {
            SpawnFail::Failed => write!(f, "the child failed"),
            SpawnFail::Memory => write!(f, "memory ran out"),
        }
    }
}

impl Error for SpawnFail {}

impl From<AllocError> for SpawnFail {
    ghost use Rattle.do_lab.specs.declared.spawner.SpawnFail.TheVariants.{Memory};

    ghost from_gives = { λ _ e. e ≡ Memory };

    fn from(_e: AllocError) -> SpawnFail {
        SpawnFail::Memory
    }
}

impl<T: Drop> From<AllocFailed<T>> for SpawnFail {
    ghost use Rattle.do_lab.specs.declared.spawner.SpawnFail.TheVariants.{Memory};

    ghost from_gives = { λ _ e. e ≡ Memory };

    fn from(_e: AllocFailed<T>) -> SpawnFail {
        SpawnFail::Memory
    }
}

/// What starts children and waits for them.
///
/// Its ghost members are the list that it tells, if it tells one, a count of its faults, which
/// children were given and were not waited for, and the number of the next child. The count ends at
/// 2^64 - 1 and counts as risen there. The list has each start with its words and the child, and
/// each wait with its child and the status, or that it failed; a start in which memory ran out is
/// not in it. A spawner may stop telling.
pub trait Spawner {
    ghost use Rattle.do_lab.specs.Told.{Spawned};
    ghost use Rattle.do_lab.specs.declared.spawner.SpawnFail.TheVariants.{Failed, Memory};

    ghost told: { Self → Option (List Spawned) };

    ghost faults: { Self → ℕ };

    ghost is_running: { Self → ℕ → Type 0 };

    ghost next_child: { Self → ℕ };

    /// Starts a child with these words, one that was not given before.
    ///
    /// Its number is that of the next child at least, which rises past it. `Failed` comes only
    /// where the count of faults rose.
    fn start(&mut self, words: &[Word]) -> Result<ChildId, SpawnFail>
        ensures told { TellsMore (told self.old) (told self.new) (start_told words.now result) }
        ensures fresh { IfOk result (λ child. (next_child self.old ≤ child.0)
            × (child.0 < next_child self.new) × is_running self.new child.0) }
        ensures rises { next_child self.old ≤ next_child self.new }
        ensures others { (n : ℕ) → is_running self.old n → is_running self.new n }
        ensures later { faults self.old ≤ faults self.new }
        ensures failed { IsErrOf result Failed → Rose (faults self.old) (faults self.new) };

    /// Waits for a child that was given and was not waited for, and gives its status.
    ///
    /// `Failed` comes only where the count of faults rose. `Memory` never comes.
    fn ended(&mut self, child: ChildId) -> Result<i32, SpawnFail>
        requires { is_running self.old child.0 }
        ensures told { TellsMore (told self.old) (told self.new) (wait_told child.0 result ∷ []) }
        ensures others { (n : ℕ) → n ≢ child.0 → is_running self.old n → is_running self.new n }
        ensures rises { next_child self.old ≤ next_child self.new }
        ensures later { faults self.old ≤ faults self.new }
        ensures failed { IsErrOf result Failed → Rose (faults self.old) (faults self.new) }
        ensures no_memory { ¬ (IsErrOf result Memory) };
}
