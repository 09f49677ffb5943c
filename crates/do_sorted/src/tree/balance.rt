//! Nodes made of two sides, turned where one side has outgrown the other.
ghost use Rattle.std.specs.Prelude.{◌≡◌, ◌+◌, ◌<◌, ◌^◌, ◌∷◌, ◌++◌, length, IsTrue};
ghost use Rattle.do_sorted.specs.{Tree.{items_of, IsCounted}, declared.tree.Node.TheVariants.Fork};

use super::{Node, Tree};
use std::mem;

/// Whether one side has so many more items than the other that the tree is to be turned.
fn outweighs(len: usize, other: usize) -> bool
    ensures { IsTrue result → other < len }
{
    // sides weigh by their items and one more, and none more than three times the other
    len / 3 > other
}

/// An item between the items of two sides.
pub(crate) fn fork<T: Drop>(before: Box<Tree<T>>, item: T, behind: Box<Tree<T>>) -> Node<T>
    requires { length before.value + length behind.value + 1 < 2 ^ 64 }
    ensures { result ≡ Fork before item (length before.value + length behind.value + 1) behind }
{
    let len = before.len() + behind.len() + 1;
    Node::Fork(before, item, len, behind)
}

/// An item between the items of two sides, of which the one may have outgrown the other.
pub(crate) fn balanced<T: Drop>(before: Box<Tree<T>>, item: T, behind: Box<Tree<T>>) -> Node<T>
    requires { length before.value + length behind.value + 1 < 2 ^ 64 }
    ensures items { items_of result ≡ before.value ++ item ∷ behind.value }
    ensures counted { IsCounted result }
{
    if outweighs(before.len(), behind.len()) {
        return turned_right(before, item, behind);
    }
    if outweighs(behind.len(), before.len()) {
        return turned_left(before, item, behind);
    }
    fork(before, item, behind)
}

/// The same items with one side's first or middle item on top, where that side is the heavier.
fn turned_right<T: Drop>(mut before: Box<Tree<T>>, item: T, behind: Box<Tree<T>>) -> Node<T>
    requires fits { length before.value + length behind.value + 1 < 2 ^ 64 }
    requires heavy { 0 < length before.value }
    ensures items { items_of result ≡ before.value ++ item ∷ behind.value }
    ensures counted { IsCounted result }
{
    let Node::Fork(outer, top, _, mut inner) = mem::replace(&mut *before, Tree::new()).node else {
        unreachable!();
    };
    if inner.len().saturating_sub(outer.len()) <= outer.len() {
        *before = Tree {
            node: fork(inner, item, behind),
        };
        return fork(outer, top, before);
    }
    let Node::Fork(left, middle, _, right) = mem::replace(&mut *inner, Tree::new()).node else {
        unreachable!();
    };
    *inner = Tree {
        node: fork(outer, top, left),
    };
    *before = Tree {
        node: fork(right, item, behind),
    };
    fork(inner, middle, before)
}

/// The same to the other side.
fn turned_left<T: Drop>(before: Box<Tree<T>>, item: T, mut behind: Box<Tree<T>>) -> Node<T>
    requires fits { length before.value + length behind.value + 1 < 2 ^ 64 }
    requires heavy { 0 < length behind.value }
    ensures items { items_of result ≡ before.value ++ item ∷ behind.value }
    ensures counted { IsCounted result }
{
    let Node::Fork(mut inner, top, _, outer) = mem::replace(&mut *behind, Tree::new()).node else {
        unreachable!();
    };
    if inner.len().saturating_sub(outer.len()) <= outer.len() {
        *behind = Tree {
            node: fork(before, item, inner),
        };
        return fork(behind, top, outer);
    }
    let Node::Fork(left, middle, _, right) = mem::replace(&mut *inner, Tree::new()).node else {
        unreachable!();
    };
    *inner = Tree {
        node: fork(right, top, outer),
    };
    *behind = Tree {
        node: fork(before, item, left),
    };
    fork(behind, middle, inner)
}
