//! What a tree's items are.
ghost use Rattle.std.specs.{Prelude.{◌≡◌, [], length, slice_get}, Option.option_copied};

use super::{Node, Tree};

impl<T: Drop> Tree<T> {
    /// The list of no items.
    pub(crate) fn new() -> Tree<T>
        ensures { result ≡ [] }
    {
        Tree { node: Node::Leaf }
    }

    /// How many items there are.
    pub(crate) fn len(&self) -> usize
        ensures { result ≡ length self.now }
    {
        match self.node {
            Node::Leaf => 0,
            Node::Fork(_, _, len, _) => len,
        }
    }

    /// The item at an index. None exactly where the list is not that long.
    pub(crate) fn get(&self, at: usize) -> Option<&T>
        ensures { option_copied result ≡ slice_get self.now at }
    {
        match &self.node {
            Node::Leaf => None,
            Node::Fork(before, item, _, behind) => {
                let here = before.len();
                if at < here {
                    before.get(at)
                } else if at == here {
                    Some(item)
                } else {
                    behind.get(at - here - 1)
                }
            }
        }
    }
}
