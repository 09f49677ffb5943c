//! Names that stand in no value: those that peers were sent, and those that lends and asks are.
//!
//! Counts are by occurrence. A node counts each occurrence of a name, in slots, locals and
//! answers alike. A push then adds the names of its item alone, the names of lists add up, and
//! nothing has to remember which objects were met. No observable thing depends on it, since
//! what is asked of a count is only whether it is 0.
ghost use Rattle.std.specs.Prelude.{◌≡◌, ◌+◌, ◌<◌};
ghost use Rattle.do_part.specs.{Holding.{CanCome, HasCome, most_names}, Rooting.root_of};

use crate::holders::Holders;
use crate::tally::Tally;
use do_base::Oid;

impl Holders {
    /// Counts one name among those that were ever counted.
    pub(crate) fn count_name(&mut self)
        requires { self.old.names < most_names }
        ensures { self.new ≡ record self.old { names = self.old.names + 1 } }
    {
        self.names += 1;
    }

    /// Counts one name that a peer is sent, which holds the own object of a serial, if any.
    pub(crate) fn come_once(&mut self, serial: Option<u64>)
        requires { CanCome self.old (root_of self.old.node serial) 1 }
        ensures { HasCome self.old self.new (root_of self.old.node serial) 1 }
    {
        match serial {
            Some(serial) => {
                let node = self.node;
                self.tally(Tally::More, Oid { node, serial }, true);
            }
            None => self.names += 1,
        }
    }
}
