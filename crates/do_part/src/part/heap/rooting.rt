//! The root of a part.
ghost use Rattle.std.specs.Prelude.{◌≡◌, ◌+◌, ◌<◌, ◌≤◌};
ghost use Rattle.do_part.specs.{Rooting.root_of, Names.AreStored};

use crate::part::Part;
use crate::tally::Tally;

impl Part {
    /// Makes an own object the root, or none.
    pub fn set_root(&mut self, root: Option<u64>)
        requires names { 0 < self.old.room.names }
        requires stored { AreStored self.old.own.node (root_of self.old.own.node.port root) }
        ensures own { self.new.own
            ≡ record self.old.own { node = record self.old.own.node { root = root } } }
        ensures objects { self.new.room.objects ≡ self.old.room.objects }
        ensures invocations { self.new.room.invocations ≡ self.old.room.invocations }
        ensures names { self.old.room.names ≤ self.new.room.names + 1 }
        ensures entries { self.new.room.entries ≡ self.old.room.entries }
    {
        let was = self.root;
        self.holders.tally_root(Tally::More, root);
        self.root = root;
        self.holders.tally_root(Tally::Less, was);
    }
}
