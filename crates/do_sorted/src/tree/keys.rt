//! Rows by rising key: each look-up is one descent, which a row's key sends to one side or stops.
ghost use Rattle.std.specs.{Prelude.{◌≡◌, Some, T, IsSome, IfOk, IfErr}, Option.option_copied};
ghost use Rattle.std.specs.FinMap.{find, put, is_sorted};
ghost use Rattle.do_sorted.specs.Places.{IsRowOf, IsGapFor};

use super::{Node, Tree};
use std::cmp::Ordering;
use std::mem;

impl<K: Ord + Copy, V: Drop> Tree<(K, V)> {
    /// Where the row of a key stands, or else where it would go.
    pub(crate) fn search(&self, key: &K) -> Result<usize, usize>
        requires { T (is_sorted K.cmp self.now) }
        ensures found { IfOk result (IsRowOf K.cmp key.now self.now) }
        ensures absent { IfErr result (IsGapFor K.cmp key.now self.now) }
    {
        let Node::Fork(before, row, len, behind) = &self.node else {
            return Err(0);
        };
        let passed = *len - behind.len();
        match key.cmp(&row.0) {
            Ordering::Less => before.search(key),
            Ordering::Equal => Ok(passed - 1),
            Ordering::Greater => match behind.search(key) {
                Ok(at) => Ok(passed + at),
                Err(at) => Err(passed + at),
            },
        }
    }

    /// The value of a key. None exactly where no row has it.
    pub(crate) fn find(&self, key: &K) -> Option<&V>
        requires { T (is_sorted K.cmp self.now) }
        ensures { option_copied result ≡ find K.cmp key.now self.now }
    {
        let Node::Fork(before, row, _, behind) = &self.node else {
            return None;
        };
        match key.cmp(&row.0) {
            Ordering::Less => before.find(key),
            Ordering::Equal => Some(&row.1),
            Ordering::Greater => behind.find(key),
        }
    }

    /// Puts another value into the row of a key that is there, and hands back what stood there.
    pub(crate) fn replace(&mut self, key: &K, value: V) -> V
        requires sorted { T (is_sorted K.cmp self.old) }
        requires there { IsSome (find K.cmp key.now self.old) }
        ensures before { find K.cmp key.now self.old ≡ Some result }
        ensures after { self.new ≡ put K.cmp key.now value self.old }
    {
        let Node::Fork(before, (stored, old), _, behind) = &mut self.node else {
            unreachable!();
        };
        match key.cmp(stored) {
            Ordering::Less => return before.replace(key, value),
            Ordering::Greater => return behind.replace(key, value),
            Ordering::Equal => {}
        }
        mem::replace(old, value)
    }
}
