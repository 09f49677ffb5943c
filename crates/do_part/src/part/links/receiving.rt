//! Foreign objects received.
ghost use Rattle.std.specs.Prelude.{◌≡◌, ◌≢◌, ◌<◌, ◌≤◌, ◌+◌};
ghost use Rattle.do_import.specs.ByObject.{added, first_kept};
ghost use Rattle.do_machine.specs.Objects.{joined};

use crate::part::Part;
use do_base::Oid;
use do_class::ClassId;

impl Part {
    /// Counts a foreign object as received once more, in room that was made before.
    ///
    /// Its class is kept, unless one was named before.
    pub fn got(&mut self, oid: Oid, class: ClassId)
        requires foreign { oid.node ≢ self.old.own.node.port }
        requires room { 0 < self.old.room.names }
        requires linked { 0 < self.old.room.entries }
        ensures own { self.new.own ≡ record self.old.own {
          node = record self.old.own.node { held = joined self.old.own.node.held oid };
          received = added self.old.own.received oid;
          classes = first_kept self.old.own.classes oid class;
        } }
        ensures objects { self.new.room.objects ≡ self.old.room.objects }
        ensures invocations { self.new.room.invocations ≡ self.old.room.invocations }
        ensures names { self.old.room.names ≤ self.new.room.names + 1 }
        ensures entries { self.old.room.entries ≤ self.new.room.entries + 1 }
    {
        self.holders.imports.got(oid, class);
        self.holders.count_name();
    }
}
