//! Foreign objects that leave, one by one or with their home.
ghost use Rattle.std.specs.FinMap as map;
ghost use Rattle.std.specs.Prelude.{◌≡◌, ◌≤◌, MatchOption};
ghost use Rattle.do_export.specs.Counts.{count_of, others_of, IsPositive};
ghost use Rattle.do_import.specs.Held.{NoneLeaves, IsLowestLeaving};

use super::Holdings;
use do_base::{NodeId, Oid};

impl Holdings {
    /// Takes out the lowest object that may leave, and tells how often it was received.
    ///
    /// None exactly where none may leave. An object may leave that was received and is not used.
    pub fn leave_next(&mut self) -> Option<(Oid, u64)>
        ensures which { MatchOption result
            (NoneLeaves self.old.received self.old.uses × (self.new ≡ self.old))
            (λ left. IsLowestLeaving self.old.received self.old.uses (left.0.node, left.0.serial)
            × (left.1 ≡ count_of self.old.received left.0.node left.0.serial)
            × (self.new.received ≡ map.remove self.old.received (left.0.node, left.0.serial))
            × (self.new.uses ≡ self.old.uses)) }
        ensures positive { IsPositive self.old.uses }
        ensures spare { self.new.spare ≡ self.old.spare }
        ensures places { self.old.places ≤ self.new.places }
    {
        let Some(oid) = self.lowest() else {
            return None;
        };
        let count = self.received.count(oid.node, oid.serial);
        self.thread.remove(&(oid.node, oid.serial));
        self.received.forget(oid.node, oid.serial);
        Some((oid, count))
    }

    /// Forgets how often the objects of a peer were received, in one go. Their uses stay.
    pub fn end_peer(&mut self, home: NodeId)
        ensures received { self.new.received ≡ others_of self.old.received home }
        ensures uses { self.new.uses ≡ self.old.uses }
        ensures spare { self.new.spare ≡ self.old.spare }
        ensures places { self.old.places ≤ self.new.places }
    {
        self.thread.retain(|row| row.0.0 != home);
        self.received.end_peer(home);
    }

    /// The lowest object that may leave.
    fn lowest(&self) -> Option<Oid>
        ensures { MatchOption result (NoneLeaves self.now.received self.now.uses)
            (λ o. IsLowestLeaving self.now.received self.now.uses (o.node, o.serial)) }
    {
        let Some(&((node, serial), _)) = self.thread.first() else {
            return None;
        };
        Some(Oid { node, serial })
    }
}
