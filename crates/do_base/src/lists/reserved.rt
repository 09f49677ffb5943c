//! A queue with room that is made beforehand.
ghost use Rattle.std.specs.Prelude.{◌≡◌, [], ◌∷◌, ◌++◌, ◌+◌, ◌-◌, ◌<◌, ◌≤◌, ◌↔◌, length, slice_get};
ghost use Rattle.std.specs.Prelude.{IsTrue, IsNone, OnOk, OnErr, MatchOption, Some, slice_set};
ghost use Rattle.std.specs.{Prelude.{take, remove}, Option.option_copied};

use crate::lists::items::Items;
use std::alloc::{AllocError, Global};
use std::collections::VecDeque;
use std::marker::Model;
use std::mem;

/// A `VecDeque` that contracts see as the list of its items, front first, and the room left.
///
/// A step reserves first, in which memory may run out, and then posts, which always succeeds. The
/// form is this project's own.
#[derive(Debug, Drop)]
pub struct Reserved<T> {
    items: VecDeque<T>,
    spare: usize,
}

impl<T> Model for Reserved<T> {
    ghost use Rattle.std.specs.{Prelude.{◌+◌, ◌≤◌}, VecDeque.{deque_len, deque_capacity}};
    ghost use Rattle.do_base.specs.lists.Reserved.{Reserved, reserved_code};

    ghost Value = { Reserved T };

    ghost coded = { reserved_code T.code };

    ghost view = { λ r. record { items = r.items.items; spare = r.spare } };

    ghost invariant = { λ r. deque_len r.items + r.spare ≤ deque_capacity r.items };
}

impl<T> Reserved<T> {
    ghost use Rattle.std.specs.Borrow.{sem};
    ghost use Rattle.do_base.specs.lists.Borrowed.{BorrowsReserved};

    /// An empty queue with no room, for which no memory is taken.
    pub fn new(alloc: Global) -> Reserved<T>
        ensures { result ≡ record { items = []; spare = 0 } }
    {
        Reserved {
            items: VecDeque::new(alloc),
            spare: 0,
        }
    }

    /// How many more items can be posted.
    pub fn spare(&self) -> usize
        ensures { result ≡ self.now.spare }
    {
        self.spare
    }

    /// How many items there are.
    pub fn len(&self) -> usize
        ensures { result ≡ length self.now.items }
    {
        self.items.len()
    }

    /// Whether there is no item.
    pub fn is_empty(&self) -> bool
        ensures { IsTrue result ↔ (self.now.items ≡ []) }
    {
        self.items.is_empty()
    }

    /// The item at a place, counted from 0 at the front. None exactly if the queue ends before it.
    pub fn get(&self, at: usize) -> Option<&T>
        ensures { option_copied result ≡ slice_get self.now.items at }
    {
        self.items.get(at)
    }

    /// The oldest item. None exactly where the queue is empty.
    pub fn front(&self) -> Option<&T>
        ensures none { IsNone result ↔ (self.now.items ≡ []) }
        ensures value { option_copied result ≡ slice_get self.now.items 0 }
    {
        self.items.front()
    }

    /// Makes room for `more` items at least.
    pub fn reserve(&mut self, more: usize) -> Result<(), AllocError>
        ensures items { self.new.items ≡ self.old.items }
        ensures ok { OnOk result (more ≤ self.new.spare) }
        ensures kept { self.old.spare ≤ self.new.spare }
        ensures err { OnErr result (self.new ≡ self.old) }
    {
        self.items.reserve(more)?;
        if self.spare < more {
            self.spare = more;
        }
        Ok(())
    }

    /// Appends an item, into room that was made before.
    pub fn post(&mut self, item: T)
        requires { 0 < self.old.spare }
        ensures items { self.new.items ≡ self.old.items ++ item ∷ [] }
        ensures spare { self.new.spare + 1 ≡ self.old.spare }
    {
        self.items.push_back_reserved(item);
        self.spare -= 1;
    }

    /// Takes out the last item, and its place is room again. None exactly if the queue was empty.
    pub fn pop(&mut self) -> Option<T>
        ensures { MatchOption result ((self.old.items ≡ []) × (self.new ≡ self.old))
            (λ last. (self.old.items ≡ self.new.items ++ last ∷ [])
            × (self.new.spare ≡ self.old.spare + 1)) }
    {
        let last = self.items.pop_back()?;
        self.spare += 1;
        Some(last)
    }

    /// Takes out the oldest item, and its place is room again. None exactly if it was empty.
    pub fn pop_front(&mut self) -> Option<T>
        ensures { MatchOption result ((self.old.items ≡ []) × (self.new ≡ self.old))
            (λ oldest. (self.old.items ≡ oldest ∷ self.new.items)
            × (self.new.spare ≡ self.old.spare + 1)) }
    {
        let oldest = self.items.pop_front()?;
        self.spare += 1;
        Some(oldest)
    }

    /// Borrows an item to be changed in place. What stands there at the end of the borrow stays.
    pub fn at_mut(&mut self, at: usize) -> &mut T
        requires { at < length self.old.items }
        ensures* writes_back { sem 𝓛 (BorrowsReserved T.row self.entry at result) }
        ensures value { slice_get self.old.items at ≡ Some result.now }
    {
        &mut self.items[at]
    }

    /// Puts an item at a place, and hands back what stood there.
    pub fn replace(&mut self, at: usize, item: T) -> T
        requires { at < length self.old.items }
        ensures before { slice_get self.old.items at ≡ Some result }
        ensures after { self.new.items ≡ slice_set self.old.items at item }
        ensures spare { self.new.spare ≡ self.old.spare }
    {
        mem::replace(&mut self.items[at], item)
    }

    /// Takes out the item at a place. Those behind it move one place forward, and there is room for
    /// one more.
    pub fn remove(&mut self, at: usize) -> T
        requires { at < length self.old.items }
        ensures item { slice_get self.old.items at ≡ Some result }
        ensures rest { self.new.items ≡ remove self.old.items at }
        ensures spare { self.new.spare ≡ self.old.spare + 1 }
    {
        let Some(item) = self.items.remove(at) else {
            unreachable!();
        };
        self.spare += 1;
        item
    }

    /// Gives the items as a list, with no memory and no copy of an item.
    pub fn into_items(self) -> Items<T>
        ensures { result ≡ self.items }
    {
        let Reserved { items, spare: _ } = self;
        Items::from_vec(items.into_vec())
    }
}

impl<T: Drop> Reserved<T> {
    /// Keeps the first `len` items and drops the others, whose places are room again.
    pub fn truncate(&mut self, len: usize)
        ensures items { self.new.items ≡ take len self.old.items }
        ensures spare { self.new.spare ≡ self.old.spare + (length self.old.items - len) }
    {
        let more = self.items.len().saturating_sub(len);
        self.items.truncate(len);
        self.spare += more;
    }

    /// Drops every item, and their places are room again.
    pub fn clear(&mut self)
        ensures items { self.new.items ≡ [] }
        ensures spare { self.new.spare ≡ self.old.spare + length self.old.items }
    {
        let more = self.items.len();
        self.items.clear();
        self.spare += more;
    }
}
