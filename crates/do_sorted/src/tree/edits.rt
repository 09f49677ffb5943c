//! Items that are put in and taken out, and the places that they need.
ghost use Rattle.std.specs.Prelude.{◌≡◌, ◌+◌, ◌<◌, ◌≤◌, ◌^◌, [], ◌∷◌, length, Some, slice_get};
ghost use Rattle.std.specs.List.{insert, remove};
ghost use Rattle.do_sorted.specs.Tree.{items_of, IsCounted};

use super::balance::{balanced, fork};
use super::{Node, Places, Tree};
use std::alloc::{AllocError, Global};
use std::mem;

impl<T: Drop> Places<T> {
    /// Two places. It fails only where memory runs out.
    pub(crate) fn new(alloc: Global) -> Result<Places<T>, AllocError> {
        Ok(Places {
            before: Box::new(alloc, Tree::new())?,
            behind: Box::new(alloc, Tree::new())?,
        })
    }

    /// A node of one item at these places, whatever they held.
    fn hold(self, item: T) -> Node<T>
        ensures items { items_of result ≡ item ∷ [] }
        ensures counted { IsCounted result }
    {
        let mut before = self.before;
        let mut behind = self.behind;
        *before = Tree::new();
        *behind = Tree::new();
        fork(before, item, behind)
    }
}

impl<T: Drop> Tree<T> {
    /// Puts an item in at an index, at two places that are free.
    pub(crate) fn insert(&mut self, at: usize, new: T, places: Places<T>)
        requires in_range { at ≤ length self.old }
        requires fits { length self.old + 1 < 2 ^ 64 }
        ensures { self.new ≡ insert self.old at new }
    {
        let Node::Fork(mut before, item, _, mut behind) = mem::replace(&mut self.node, Node::Leaf)
        else {
            self.node = places.hold(new);
            return;
        };
        let here = before.len();
        if at <= here {
            before.insert(at, new, places);
            self.node = balanced(before, item, behind);
            return;
        }
        behind.insert(at - here - 1, new, places);
        self.node = balanced(before, item, behind);
    }

    /// Takes out the item at an index, with two places that are free then.
    pub(crate) fn remove(&mut self, at: usize) -> (T, Places<T>)
        requires { at < length self.old }
        ensures item { slice_get self.old at ≡ Some result.0 }
        ensures rest { self.new ≡ remove self.old at }
    {
        let Node::Fork(mut before, item, _, mut behind) = mem::replace(&mut self.node, Node::Leaf)
        else {
            unreachable!();
        };
        let here = before.len();
        if at < here {
            let taken = before.remove(at);
            self.node = balanced(before, item, behind);
            return taken;
        }
        if at > here {
            let taken = behind.remove(at - here - 1);
            self.node = balanced(before, item, behind);
            return taken;
        }
        if behind.len() == 0 {
            self.node = mem::replace(&mut *before, Tree::new()).node;
            return (item, Places { before, behind });
        }
        let (next, places) = behind.remove(0);
        self.node = balanced(before, next, behind);
        (item, places)
    }
}
