//! The calls that change or take out an item. None of them takes memory.
ghost use Rattle.std.specs.Prelude.{◌≡◌, [], ◌∷◌, ◌++◌, ◌<◌, ◌-◌, length, slice_get, slice_set};
ghost use Rattle.std.specs.Prelude.{MatchOption, Some, IsSome, ◌↔◌, take, remove, swap};
ghost use Rattle.std.specs.Option.{option_copied_mut};

use super::Items;
use std::mem;

impl<T> Items<T> {
    ghost use Rattle.std.specs.Borrow.{sem};
    ghost use Rattle.do_base.specs.lists.Borrowed.{BorrowsItem, BorrowsItemIf};

    /// Takes out the last item. None exactly where the list was empty.
    pub fn pop(&mut self) -> Option<T>
        ensures { MatchOption result ((self.old ≡ []) × (self.new ≡ []))
            (λ last. self.old ≡ self.new ++ last ∷ []) }
    {
        self.items.pop()
    }

    /// Borrows an item to be changed in place. What stands there at the end of the borrow stays.
    pub fn at_mut(&mut self, at: usize) -> &mut T
        requires { at < length self.old }
        ensures* writes_back { sem 𝓛 (BorrowsItem T.row self.entry at result) }
        ensures value { slice_get self.old at ≡ Some result.now }
    {
        &mut self.items[at]
    }

    /// Borrows the last item to be changed in place. None exactly where the list is empty.
    pub fn last_mut(&mut self) -> Option<&mut T>
        ensures* writes_back { sem 𝓛 (BorrowsItemIf T.row self.entry (length self.old - 1) result) }
        ensures there { IsSome result ↔ (0 < length self.old) }
        ensures value { option_copied_mut result ≡ slice_get self.old (length self.old - 1) }
    {
        self.items.last_mut()
    }

    /// Puts an item at a place, and hands back what stood there.
    pub fn replace(&mut self, at: usize, item: T) -> T
        requires { at < length self.old }
        ensures before { slice_get self.old at ≡ Some result }
        ensures after { self.new ≡ slice_set self.old at item }
    {
        mem::replace(&mut self.items[at], item)
    }

    /// Exchanges the items at two places.
    pub fn swap(&mut self, i: usize, j: usize)
        requires first_within { i < length self.old }
        requires second_within { j < length self.old }
        ensures { self.new ≡ swap self.old i j }
    {
        self.items.swap(i, j);
    }

    /// Takes out the item at a place. Those behind it move one place forward.
    pub fn remove(&mut self, at: usize) -> T
        requires { at < length self.old }
        ensures item { slice_get self.old at ≡ Some result }
        ensures rest { self.new ≡ remove self.old at }
    {
        self.items.remove(at)
    }
}

impl<T: Drop> Items<T> {
    /// Puts an item at a place. What stood there is dropped.
    pub fn set(&mut self, at: usize, item: T)
        requires { at < length self.old }
        ensures { self.new ≡ slice_set self.old at item }
    {
        self.items[at] = item;
    }

    /// Keeps the first `len` items, and drops the others.
    pub fn truncate(&mut self, len: usize)
        ensures { self.new ≡ take len self.old }
    {
        self.items.truncate(len);
    }

    /// Drops every item.
    pub fn clear(&mut self)
        ensures { self.new ≡ [] }
    {
        self.items.clear();
    }
}
