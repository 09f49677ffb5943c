//! The value of a local, which remembers what it weighs.
//!
//! A local remembers the weight of its list, which contracts do not see, so that a push adds to
//! it and never weighs the list again. A list that nests past the limit already takes no item.
ghost use Rattle.std.specs.Prelude.{◌≡◌, OnOk, OnErr};
ghost use Rattle.do_behave.specs.{KnownWeight.IsKnown, LongerList.{FitsIn, longer}};

use crate::moving::{append, discard};
use do_base::{ExactClone, Items, Value, copy_value};
use std::alloc::AllocError;
use std::marker::Model;

/// The value of a local, and its weight where that is known.
///
/// Contracts see the value alone. The weight is that of the value as it is: `push` alone changes
/// the value, and sets the weight anew.
#[derive(Debug, Drop)]
pub struct Held {
    value: Value,
    weight: u64,
}

/// The locals of an invocation.
pub type Frame = Items<Held>;

impl Model for Held {
    ghost use Rattle.do_base.specs.contracts.values.value.Value as tree;
    ghost use Rattle.do_behave.specs.KnownWeight.{Tree, IsKnown};

    ghost Value = { Tree };

    ghost coded = { tree.the_row.coded };

    ghost view = { λ h. h.value };

    ghost invariant = { λ h. IsKnown h.value h.weight };
}

impl Held {
    /// A value whose weight is not known.
    pub fn new(value: Value) -> Held
        ensures { result ≡ value }
    {
        Held { value, weight: 0 }
    }

    /// The value, to be read.
    pub fn value(&self) -> &Value
        ensures { result.now ≡ self.now }
    {
        &self.value
    }

    /// The value, to be kept.
    pub(crate) fn into_value(self) -> Value
        ensures { result ≡ self }
    {
        let Held { value, weight: _ } = self;
        value
    }

    /// The value's weight, or 0 where it is not known. A value of known weight keeps the limit on
    /// nesting.
    pub(crate) fn weight(&self) -> u64
        ensures { IsKnown self.now result }
    {
        self.weight
    }

    /// Appends an item to a list, which then has this weight. If memory runs out, it is unchanged.
    pub(crate) fn push(&mut self, item: Value, weight: u64) -> Result<(), AllocError>
        requires { FitsIn self.old item weight }
        ensures ok { OnOk result (self.new ≡ longer self.old item) }
        ensures err { OnErr result (self.new ≡ self.old) }
    {
        let Value::List(items) = &mut self.value else {
            discard(item);
            return Ok(());
        };
        append(items, item)?;
        self.weight = weight;
        Ok(())
    }
}

impl Clone for Held {
    ghost is_clone = { λ x y. y ≡ x };

    fn clone(&self) -> Result<Held, AllocError> {
        Ok(Held {
            value: copy_value(&self.value)?,
            weight: self.weight,
        })
    }
}

impl ExactClone for Held {
    ghost exact_clone = { λ x y e. e };
}

impl PartialEq for Held {
    ghost use Rattle.std.specs.Cmp.{partial_equiv_from_equiv, decided};
    ghost use Rattle.do_base.specs.values.Equal.{value_eq, value_eq-Decides};

    ghost eq = { value_eq };

    ghost laws = { partial_equiv_from_equiv (decided value_eq value_eq-Decides) };

    fn eq(&self, other: &Held) -> bool {
        self.value == other.value
    }
}

impl Eq for Held {
    ghost use Rattle.std.specs.Cmp.{decided};
    ghost use Rattle.do_base.specs.values.Equal.{value_eq, value_eq-Decides};

    ghost laws = { decided value_eq value_eq-Decides };
}
