//! The names in values, counted or taken off.
ghost use Rattle.do_part.specs.Names.{counted, value_of, values_of, size_of, sizes_of};
ghost use Rattle.do_part.specs.{Holding.{CanTally, Tallied}, Rooting.{root_of, root_size}};

use crate::holders::Holders;
use crate::tally::Tally;
use do_base::{Oid, Value, Values};

impl Holders {
    /// Counts the names in a value, or takes them off.
    #[cycle(tally)]
    pub(crate) fn tally_value(&mut self, by: Tally, value: &Value, all: bool)
        requires names { CanTally by self.old (counted all self.old.node (value_of value.now))
            (size_of value.now) }
        ensures { Tallied by self.old self.new (counted all self.old.node (value_of value.now))
            (size_of value.now) }
    {
        match value {
            Value::Obj(oid) => self.tally(by, *oid, all),
            Value::List(values) => self.tally_values(by, values, all),
            _ => {}
        }
    }

    /// Counts the names in values, or takes them off.
    #[cycle(tally)]
    pub(crate) fn tally_values(&mut self, by: Tally, values: &Values, all: bool)
        requires names { CanTally by self.old (counted all self.old.node (values_of values.now))
            (sizes_of values.now) }
        ensures { Tallied by self.old self.new (counted all self.old.node (values_of values.now))
            (sizes_of values.now) }
    {
        for value in values.as_slice() {
            self.tally_value(by, value, all);
        }
    }

    /// Counts the name that a root is, or takes it off.
    pub(crate) fn tally_root(&mut self, by: Tally, root: Option<u64>)
        requires { CanTally by self.old (root_of self.old.node root) (root_size root) }
        ensures { Tallied by self.old self.new (root_of self.old.node root) (root_size root) }
    {
        if let Some(serial) = root {
            let node = self.node;
            self.tally(by, Oid { node, serial }, true);
        }
    }
}
