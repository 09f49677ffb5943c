//! The one list type of this project: made and read here, grown, edited and compared in the files
//! below.
ghost use Rattle.std.specs.Prelude.{◌≡◌, [], ◌<◌, ◌-◌, length, slice_get, ◌↔◌, IsTrue, IsNone};
ghost use Rattle.std.specs.{Prelude.{OnSome, IfOk}, Option.option_copied};

mod comparing;
mod editing;
mod growing;

use std::alloc::{AllocError, Global};
use std::marker::Model;

/// A `Vec` that contracts see as the list of its items.
///
/// It keeps the allocator that it was made with. A type may hold itself through it. The form is
/// this project's own. Most calls have the names and the order of arguments of `Vec`; `from_vec`,
/// `into_vec`, `at_mut`, `set`, `replace` and `try_push` are this project's.
#[derive(Debug, Drop)]
pub struct Items<T> {
    items: Vec<T>,
}

/// A list of truth values.
///
/// The list keeps no limit on how many there are. The form is this project's own.
pub type Flags = Items<bool>;

/// A list of places of locals in an invocation, counted from 0.
///
/// An invocation has locals 0 to 15. The list itself keeps no limit on its numbers or on how many
/// there are. The form is this project's own.
pub type Locals = Items<u8>;

impl<T> Model for Items<T> {
    ghost use Rattle.std.specs.{Prelude.List, Coded.coded_list};

    ghost Value = { List T };

    ghost coded = { coded_list T.code };

    ghost view = { λ it. it.items.items };
}

impl<T> Items<T> {
    /// An empty list, for which no memory is taken.
    pub fn new(alloc: Global) -> Items<T>
        ensures { result ≡ [] }
    {
        Items {
            items: Vec::new(alloc),
        }
    }

    /// An empty list with room for `capacity` items. No clause tells of the room: it serves speed
    /// alone.
    pub fn with_capacity(alloc: Global, capacity: usize) -> Result<Items<T>, AllocError>
        ensures { IfOk result (λ list. list ≡ []) }
    {
        let items = Vec::with_capacity(alloc, capacity)?;
        Ok(Items { items })
    }

    /// Takes over the items of a `Vec`, with no memory and no copy.
    pub fn from_vec(items: Vec<T>) -> Items<T>
        ensures { result ≡ items.items }
    {
        Items { items }
    }

    /// Gives the items as a `Vec`, with no memory and no copy.
    pub fn into_vec(self) -> Vec<T>
        ensures { result.items ≡ self }
    {
        let Items { items } = self;
        items
    }

    /// The allocator that the list was made with.
    pub fn allocator(&self) -> Global {
        *self.items.allocator()
    }

    /// The items, to be read.
    pub fn as_slice(&self) -> &[T]
        ensures { result.now ≡ self.now }
    {
        self.items.as_slice()
    }

    /// How many items there are.
    pub fn len(&self) -> usize
        ensures { result ≡ length self.now }
    {
        self.items.len()
    }

    /// Whether there is no item.
    pub fn is_empty(&self) -> bool
        ensures { IsTrue result ↔ (self.now ≡ []) }
    {
        self.items.is_empty()
    }

    /// The item at a place, counted from 0. None exactly where the list ends before it.
    pub fn get(&self, at: usize) -> Option<&T>
        ensures value { option_copied result ≡ slice_get self.now at }
        ensures within { OnSome result (at < length self.now) }
    {
        self.items.get(at)
    }

    /// The first item. None exactly where the list is empty.
    pub fn first(&self) -> Option<&T>
        ensures none { IsNone result ↔ (self.now ≡ []) }
        ensures value { option_copied result ≡ slice_get self.now 0 }
    {
        self.items.first()
    }

    /// The last item. None exactly where the list is empty.
    pub fn last(&self) -> Option<&T>
        ensures none { IsNone result ↔ (self.now ≡ []) }
        ensures value { option_copied result ≡ slice_get self.now (length self.now - 1) }
    {
        self.items.last()
    }
}
