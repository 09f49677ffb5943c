//! The calls that make a list longer. If memory runs out, the list is unchanged.
ghost use Rattle.std.specs.Prelude.{◌≡◌, ◌∷◌, ◌++◌, [], ◌≤◌, length, take, drop, IfOk, IfErr, OnOk};
ghost use Rattle.std.specs.Prelude.{OnErr};

use super::Items;
use crate::lists::exact::ExactClone;
use std::alloc::{AllocError, AllocFailed, Global};

impl<T> Items<T> {
    /// Appends an item, and hands it back if memory runs out.
    pub fn try_push(&mut self, item: T) -> Result<(), AllocFailed<T>>
        ensures ok { OnOk result (self.new ≡ self.old ++ item ∷ []) }
        ensures err { OnErr result (self.new ≡ self.old) }
        ensures back { IfErr result (λ e. e.value ≡ item) }
    {
        self.items.push(item)
    }

    /// Makes room for `more` further items. No clause tells of the room: it serves speed alone.
    pub fn reserve(&mut self, more: usize) -> Result<(), AllocError>
        ensures { self.new ≡ self.old }
    {
        self.items.reserve(more)
    }
}

impl<T: Drop> Items<T> {
    /// Appends an item. If memory runs out, the item is dropped.
    pub fn push(&mut self, item: T) -> Result<(), AllocError>
        ensures ok { OnOk result (self.new ≡ self.old ++ item ∷ []) }
        ensures err { OnErr result (self.new ≡ self.old) }
    {
        self.items.push(item)?;
        Ok(())
    }

    /// Moves the items of another list to the end. If memory runs out, these are dropped.
    pub fn append(&mut self, more: Items<T>) -> Result<(), AllocError>
        ensures ok { OnOk result (self.new ≡ self.old ++ more) }
        ensures err { OnErr result (self.new ≡ self.old) }
    {
        let Items { mut items } = more;
        self.items.append(&mut items)
    }

    /// Puts an item before the one at a place, or at the end. If memory runs out, the item is
    /// dropped.
    pub fn insert(&mut self, at: usize, item: T) -> Result<(), AllocError>
        requires { at ≤ length self.old }
        ensures ok { OnOk result (self.new ≡ take at self.old ++ item ∷ drop at self.old) }
        ensures err { OnErr result (self.new ≡ self.old) }
    {
        self.items.insert(at, item)?;
        Ok(())
    }
}

impl<T: Copy> Items<T> {
    /// A list of the same items as a slice.
    pub fn from_slice(alloc: Global, items: &[T]) -> Result<Items<T>, AllocError>
        ensures { IfOk result (λ list. list ≡ items.now) }
    {
        let items = Vec::from_slice(alloc, items)?;
        Ok(Items { items })
    }
}

impl<T: ExactClone> Items<T> {
    /// Copies the items of a slice to the end.
    pub fn extend_from_slice(&mut self, more: &[T]) -> Result<(), AllocError>
        ensures ok { OnOk result (self.new ≡ self.old ++ more.now) }
        ensures err { OnErr result (self.new ≡ self.old) }
    {
        self.items.extend_with_clones(more)
    }
}
