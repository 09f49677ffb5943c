//! The names that a change puts into locals and takes out of them.
ghost use Rattle.std.specs.Prelude.{◌≡◌, ◌∷◌, [], false};
ghost use Rattle.do_stack.specs.Exchange.{given, taken, takes_memory};
ghost use Rattle.do_part.specs.Names.{values_of, sizes_of};
ghost use Rattle.do_part.specs.Holding.{CanCome, CanGo, HasCome, HasGone};

use crate::holders::Holders;
use crate::tally::Tally;
use do_base::Value;
use do_behave::{Act, Change};
use do_stack::Taken;

impl Holders {
    /// Counts the names in a value for a local.
    pub(crate) fn come_local(&mut self, value: &Value)
        requires { CanCome self.old (values_of (value.now ∷ [])) (sizes_of (value.now ∷ [])) }
        ensures { HasCome self.old self.new (values_of (value.now ∷ []))
            (sizes_of (value.now ∷ [])) }
    {
        self.tally_value(Tally::More, value, true);
    }

    /// Takes off the names in the value that a local held.
    pub(crate) fn go_local(&mut self, value: &Value)
        requires { CanGo self.old (values_of (value.now ∷ [])) }
        ensures { HasGone self.old self.new (values_of (value.now ∷ [])) }
    {
        self.tally_value(Tally::Less, value, true);
    }

    /// Counts the names in the values that a change puts into locals, if it takes no memory.
    pub(crate) fn come_given(&mut self, change: &Change)
        requires memory { takes_memory change.now ≡ false }
        requires names { CanCome self.old (values_of (given change.now))
            (sizes_of (given change.now)) }
        ensures { HasCome self.old self.new (values_of (given change.now))
            (sizes_of (given change.now)) }
    {
        match change {
            Change::Local { value, .. } => self.tally_value(Tally::More, value, true),
            Change::Other(Act::Step { locals, .. }) => self.tally_frame(Tally::More, locals),
            _ => {}
        }
    }

    /// Takes off the names in what a change took out of locals.
    pub(crate) fn go_taken(&mut self, out: &Taken)
        requires { CanGo self.old (values_of (taken out.now)) }
        ensures { HasGone self.old self.new (values_of (taken out.now)) }
    {
        match out {
            Taken::Nothing => {}
            Taken::One(value) => self.tally_value(Tally::Less, value, true),
            Taken::Many(values) => self.tally_values(Tally::Less, values, true),
            Taken::All(locals) => self.tally_frame(Tally::Less, locals),
        }
    }
}
