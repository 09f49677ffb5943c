//! One name of an object, counted or taken off.
ghost use Rattle.do_base.specs.declared.values.value.Value.TheVariants.{Obj};
ghost use Rattle.do_part.specs.Names.{counted, value_of};
ghost use Rattle.do_part.specs.Holding.{CanCome, CanGo, HasCome, HasGone, CanTally, Tallied};

use crate::holders::Holders;
use crate::tally::Tally;
use do_base::Oid;

impl Holders {
    /// Counts a name of an object that comes to stand somewhere. `all` is false in a slot, where
    /// the store counts the names of own objects.
    fn come(&mut self, oid: Oid, all: bool)
        requires { CanCome self.old (counted all self.old.node (value_of (Obj oid))) 1 }
        ensures { HasCome self.old self.new (counted all self.old.node (value_of (Obj oid))) 1 }
    {
        self.names += 1;
        if oid.node != self.node {
            self.imports.refer(oid);
        } else if all {
            self.store.retain(oid);
        }
    }

    /// Takes off a name of an object that stands somewhere no more.
    fn go(&mut self, oid: Oid, all: bool)
        requires { CanGo self.old (counted all self.old.node (value_of (Obj oid))) }
        ensures { HasGone self.old self.new (counted all self.old.node (value_of (Obj oid))) }
    {
        if oid.node != self.node {
            self.imports.unrefer(oid);
        } else if all {
            self.store.release(oid);
        }
    }

    /// Counts a name of an object, or takes it off.
    pub(super) fn tally(&mut self, by: Tally, oid: Oid, all: bool)
        requires { CanTally by self.old (counted all self.old.node (value_of (Obj oid))) 1 }
        ensures { Tallied by self.old self.new (counted all self.old.node (value_of (Obj oid))) 1 }
    {
        match by {
            Tally::More => self.come(oid, all),
            Tally::Less => self.go(oid, all),
        }
    }
}
