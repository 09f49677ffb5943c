//! The classes of all objects that a node ever made.
ghost use Rattle.std.specs.Prelude.{◌≡◌, ◌++◌, ◌∷◌, [], IfOk, length, slice_get};

use crate::shared::Shared;
use do_base::{ExactClone, Items};
use do_class::ClassId;
use std::alloc::{AllocError, Global};
use std::marker::Model;

/// How many classes a full block has.
const BLOCK: usize = 256;

/// Classes in a row. A copy shares them.
type Block = Shared<Items<ClassId>>;

/// The classes of objects by serial, which contracts see as a list.
///
/// Copies share it in blocks, so that one class more costs about the same however many there are:
/// it copies the last block, and, each 256th time, a reference to each of the others.
#[derive(Drop)]
pub struct Classes {
    full: Shared<Items<Block>>,
    last: Block,
}

impl Model for Classes {
    ghost use Rattle.std.specs.{Prelude.{List, ◌++◌, ◌≡◌, length}, List.{All, flat_map}};
    ghost use Rattle.do_class.specs.declared.ids.ClassId.{ClassId};

    ghost Value = { List ClassId };

    ghost view = { λ c. flat_map (λ block. block) c.full ++ c.last };

    ghost invariant = { λ c. All (λ block. length block ≡ 256) c.full };
}

impl Classes {
    /// No classes.
    pub fn new(alloc: Global) -> Result<Classes, AllocError>
        ensures { IfOk result (λ c. c ≡ []) }
    {
        let full = Shared::new(alloc, Items::new(alloc))?;
        let last = Shared::new(alloc, Items::new(alloc))?;
        Ok(Classes { full, last })
    }

    /// The class at a place, counted from 0. None exactly where there are no more.
    #[tactic(auto, using(crate::proofs::Blocks::block_steps))]
    pub fn get(&self, at: usize) -> Option<ClassId>
        ensures { result ≡ slice_get self.now at }
    {
        let full = self.full.get();
        let block = at / BLOCK;
        if block < full.len() {
            return full.as_slice()[block].get().get(at % BLOCK).copied();
        }
        self.last.get().get(at - full.len() * BLOCK).copied()
    }

    /// The classes with one more behind them. These stay as they are.
    #[tactic(auto, using(crate::proofs::Blocks::block_steps))]
    pub fn with(&self, class: ClassId) -> Result<Classes, AllocError>
        ensures { IfOk result (λ c. c ≡ self.now ++ class ∷ []) }
    {
        let alloc = self.last.get().allocator();
        if self.last.get().len() == BLOCK {
            let mut full = self.full.get().clone()?;
            full.push(self.last.clone()?)?;
            let mut last = Items::new(alloc);
            last.push(class)?;
            let full = Shared::new(alloc, full)?;
            let last = Shared::new(alloc, last)?;
            return Ok(Classes { full, last });
        }
        let mut last = self.last.get().clone()?;
        last.push(class)?;
        let full = self.full.clone()?;
        let last = Shared::new(alloc, last)?;
        Ok(Classes { full, last })
    }
}

impl Clone for Classes {
    ghost is_clone = { λ x y. y ≡ x };

    fn clone(&self) -> Result<Classes, AllocError> {
        let full = self.full.clone()?;
        let last = self.last.clone()?;
        Ok(Classes { full, last })
    }
}

impl ExactClone for Classes {
    ghost exact_clone = { λ x y e. e };
}
