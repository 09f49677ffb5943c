//! What a part frees and leaves after a step.
ghost use Rattle.std.specs.Prelude.{◌≡◌, ◌+◌, ◌≤◌, [], length, OnOk, map as each, vec_capacity};
ghost use Rattle.do_leaving.specs.Left.{free_shown};
ghost use Rattle.do_machine.specs.held.Leaving.{leaving};
ghost use Rattle.do_network.specs.{Counting.counted, Own.is_counted, Frames.all_posted};
ghost use Rattle.do_part.specs.Left.{given_up};

use crate::part::Part;
use do_base::Oid;
use do_leaving::occurrences_are_uses;
use std::alloc::AllocError;

impl Part {
    /// Frees the own objects that nothing holds, and leaves the foreign ones to which the node no
    /// longer refers.
    ///
    /// The lists then tell what was freed, by rising serial, and what was left, by rising port and
    /// serial, with the number of names that go back to its home. What they had is dropped. No
    /// memory is taken.
    pub fn leave(&mut self, freed: &mut Vec<u64>, left: &mut Vec<(Oid, u64)>)
        requires freed { length self.old.own.node.heap ≤ vec_capacity freed.old }
        requires left { length self.old.own.node.held ≤ vec_capacity left.old }
        ensures own { self.new.own
            ≡ counted self.old.own (leaving (is_counted self.old.own) self.old.own.node) }
        ensures shown { free_shown self.old.own.node freed.new.items
            ≡ (leaving (is_counted self.old.own) self.old.own.node).shown }
        ensures sent { each given_up left.new.items ≡ all_posted self.old.own.received
            (leaving (is_counted self.old.own) self.old.own.node).sent }
        ensures objects { self.old.room.objects ≤ self.new.room.objects }
        ensures invocations { self.new.room.invocations ≡ self.old.room.invocations }
        ensures names { self.old.room.names ≤ self.new.room.names }
        ensures entries { self.old.room.entries ≤ self.new.room.entries }
        ensures freed_room { vec_capacity freed.new ≡ vec_capacity freed.old }
        ensures left_room { vec_capacity left.new ≡ vec_capacity left.old }
    {
        self.holders.imports.counts_are_tied();
        let _entries = self.exports.len();
        occurrences_are_uses();
        do_leaving::leave(
            &mut self.holders.store,
            &mut self.holders.imports,
            freed,
            left,
        );
        self.holders.imports.counts_are_tied();
    }

    /// Empties the lists, and makes room in them for all that `leave` may tell once so many further
    /// objects are stored, and so many are received.
    ///
    /// Neither list has less room than before, and the part is unchanged. If memory runs out, that
    /// is all.
    pub fn make_room_to_leave(
        &self,
        objects: u64,
        received: u64,
        freed: &mut Vec<u64>,
        left: &mut Vec<(Oid, u64)>,
    ) -> Result<(), AllocError>
        ensures freed { OnOk result
            (length self.now.own.node.heap + objects ≤ vec_capacity freed.new) }
        ensures left { OnOk result
            (length self.now.own.node.held + received ≤ vec_capacity left.new) }
        ensures freed_kept { vec_capacity freed.old ≤ vec_capacity freed.new }
        ensures left_kept { vec_capacity left.old ≤ vec_capacity left.new }
        ensures none_freed { freed.new.items ≡ [] }
        ensures none_left { left.new.items ≡ [] }
    {
        do_leaving::make_room(
            &self.holders.store,
            &self.holders.imports,
            objects,
            received,
            freed,
            left,
        )
    }
}
