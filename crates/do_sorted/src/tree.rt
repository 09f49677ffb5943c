//! A list in a balanced tree: an item is found, put in or taken out in steps as the logarithm.
//!
//! A balanced tree whose places are made before a key is put in: std's ordered map cannot make
//! room first, and its hashed one has no order. A side weighs by its items and one more, and
//! none more than three times the other, as in Hirai and Yamamoto's "Balancing weight-balanced
//! trees". Room for a key is two boxes and an entry of a vector, which `reserve` makes one by
//! one. What a key had that was taken out is room again. No clause says that the tree is
//! balanced, since none counts steps. Rows are told one by one, by their place (`row`), since
//! no slice has them. A look-up, and a value that is written over another, go down by the key
//! alone. Only a key that is put in or taken out has its place counted first.
mod balance;
mod edits;
mod keys;
mod reading;

use std::marker::Model;

/// A list that contracts see as its items in order.
#[cycle(tree)]
#[derive(Debug, Drop)]
pub(crate) struct Tree<T> {
    node: Node<T>,
}

#[cycle(tree)]
#[derive(Debug, Drop)]
enum Node<T> {
    Leaf,
    /// The items before one, that item, how many there are in all, and the items behind it.
    Fork(Box<Tree<T>>, T, usize, Box<Tree<T>>),
}

impl<T> Model for Tree<T> {
    ghost use Rattle.std.specs.{Prelude.{List, length}, Coded.coded_list};

    ghost Value = { List T };

    ghost coded = { coded_list T.code };

    ghost use Rattle.do_sorted.specs.Tree.{items_of, IsCounted};

    ghost view = { λ t. items_of t.node };

    ghost invariant = { λ t. IsCounted t.node };

    ghost size = { length };

    ghost use Rattle.do_sorted.specs.TreeFalls.{depth_le-length-items};

    ghost size_decreases = { λ t h. depth_le-length-items t.node };
}

/// The two places that one more item needs in a tree, for the items before and behind it.
#[derive(Debug, Drop)]
pub(crate) struct Places<T> {
    before: Box<Tree<T>>,
    behind: Box<Tree<T>>,
}
