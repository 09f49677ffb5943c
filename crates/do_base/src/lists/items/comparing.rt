//! Exact copies and comparisons of lists.
ghost use Rattle.std.specs.Prelude.{◌≡◌, ◌↔◌, IsTrue, Contains};

use super::Items;
use crate::lists::exact::{ExactClone, ExactEq};
use std::alloc::AllocError;

impl<T: ExactClone> Clone for Items<T> {
    ghost is_clone = { λ x y. y ≡ x };

    fn clone(&self) -> Result<Items<T>, AllocError> {
        let items = self.items.clone()?;
        Ok(Items { items })
    }
}

impl<T: ExactClone> ExactClone for Items<T> {
    ghost exact_clone = { λ x y e. e };
}

impl<T: PartialEq> PartialEq for Items<T> {
    ghost use Rattle.std.specs.Cmp.Lexicographic.{pointwise, lists_per};

    ghost eq = { pointwise T.eq };

    ghost laws = { lists_per T.laws };

    fn eq(&self, other: &Items<T>) -> bool {
        self.items.as_slice() == other.items.as_slice()
    }
}

impl<T: Eq> Eq for Items<T> {
    ghost use Rattle.std.specs.Cmp.Lexicographic.{lists_equiv};

    ghost laws = { lists_equiv T.Eq.laws };
}

impl<T: ExactEq> ExactEq for Items<T> {
    ghost use Rattle.std.specs.Cmp.Lexicographic.{pointwise_decides};

    ghost exact_eq = { pointwise_decides T.ExactEq.exact_eq };
}

impl<T: ExactEq> Items<T> {
    /// Whether an equal item is in the list.
    pub fn contains(&self, item: &T) -> bool
        ensures { IsTrue result ↔ Contains self.now item.now }
    {
        self.items.contains(item)
    }
}
