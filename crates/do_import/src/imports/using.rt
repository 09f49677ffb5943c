//! What is received and used, and what leaves.
ghost use Rattle.std.specs.FinMap as map;
ghost use Rattle.std.specs.Prelude.{◌≡◌, ◌+◌, ◌<◌, ◌≤◌, ◌^◌, ◌-◌, MatchOption};
ghost use Rattle.do_export.specs.Counts.{count_of, lowered, IsPositive};
ghost use Rattle.do_import.specs.ByObject.{added, first_kept, left_of, taken_off};
ghost use Rattle.do_import.specs.Held.{NoneLeaves, IsLowestLeaving};

use super::Imports;
use crate::by_object::ByObject;
use do_base::Oid;
use do_class::ClassId;

/// Forgets the class of an object that left, unless it was asked for.
fn leave_class(classes: &mut ByObject<ClassId>, asked: &ByObject<u64>, oid: Oid)
    ensures rows { classes.new.rows ≡ left_of classes.old.rows oid
        (map.contains_key asked.now.rows (oid.node, oid.serial)) }
    ensures spare { classes.old.spare ≤ classes.new.spare }
{
    let stays = asked.has(oid.node, oid.serial);
    classes.leave(oid, stays);
}

impl Imports {
    /// Counts an object as received once more, in room that was made before.
    pub fn got(&mut self, oid: Oid, class: ClassId)
        requires linked { 0 < self.old.links }
        requires small { count_of self.old.received oid.node oid.serial < 2 ^ 64 - 1 }
        ensures same { self.new ≡ record self.old {
          received = added self.old.received oid;
          classes = first_kept self.old.classes oid class;
          links = self.new.links;
        } }
        ensures links { self.old.links ≤ self.new.links + 1 }
    {
        self.holdings.got(oid);
        self.classes.keep(oid, class);
    }

    /// Counts one more use of an object, in room that was made before.
    pub fn refer(&mut self, oid: Oid)
        requires room { 0 < self.old.spare }
        requires small { count_of self.old.uses oid.node oid.serial < 2 ^ 64 - 1 }
        ensures same { self.new ≡ record self.old {
          uses = added self.old.uses oid;
          spare = self.new.spare;
        } }
        ensures spare { self.old.spare ≤ self.new.spare + 1 }
    {
        self.holdings.refer(oid);
    }

    /// Counts one use of an object less, for which no room is needed.
    pub fn unrefer(&mut self, oid: Oid)
        requires { 0 < count_of self.old.uses oid.node oid.serial }
        ensures same { self.new ≡ record self.old {
          uses = lowered self.old.uses oid.node oid.serial 1;
          spare = self.new.spare;
        } }
        ensures spare { self.old.spare ≤ self.new.spare }
    {
        self.holdings.unrefer(oid);
    }

    /// Counts one use of an object less, where it has one, for which no room is needed.
    pub fn take_off(&mut self, oid: Oid)
        ensures same { self.new ≡ record self.old {
          uses = taken_off self.old.uses oid;
          spare = self.new.spare;
        } }
        ensures spare { self.old.spare ≤ self.new.spare }
    {
        self.holdings.take_off(oid);
    }

    /// Takes out the lowest object that may leave, and tells how often it was received.
    ///
    /// None exactly where none may leave. An object may leave that was received and is not used.
    pub fn leave_next(&mut self) -> Option<(Oid, u64)>
        ensures which { MatchOption result
            (NoneLeaves self.old.received self.old.uses × (self.new ≡ self.old))
            (λ left. IsLowestLeaving self.old.received self.old.uses (left.0.node, left.0.serial)
            × (left.1 ≡ count_of self.old.received left.0.node left.0.serial)
            × (self.new ≡ record self.old {
              received = map.remove self.old.received (left.0.node, left.0.serial);
              classes = left_of self.old.classes left.0
                  (map.contains_key self.old.asked (left.0.node, left.0.serial));
              links = self.new.links;
            })) }
        ensures positive { IsPositive self.old.uses }
        ensures links { self.old.links ≤ self.new.links }
    {
        let Some((oid, count)) = self.holdings.leave_next() else {
            return None;
        };
        leave_class(&mut self.classes, &self.asked, oid);
        Some((oid, count))
    }
}
