//! An item appended to a list of the top invocation.
//!
//! A push is the one step that takes memory. The list that it is to may grow. All other changes
//! of the top invocation, several locals at once included, are made in place.
ghost use Rattle.std.specs.Prelude.{◌≡◌, ◌<◌, ◌≤◌, ◌+◌, [], ◌∷◌, ◌++◌, Some, length, slice_get};
ghost use Rattle.std.specs.{Prelude.{IsSomeAnd, OnOk, OnErr, List as Listed}, Option.option_copied};
ghost use Rattle.do_base.specs.declared.values.value.Value.{Value, List};
ghost use Rattle.do_behave.specs.{LongerList.FitsIn, Steps.local};
ghost use Rattle.do_behave.specs.declared.change.Change.TheVariants.{Push};
ghost use Rattle.do_behave.specs.declared.invocation.Invocation.{Invocation};
ghost use Rattle.do_part.specs.{Changed.changed, Names.{value_of, size_of, AreStored}};

use crate::part::Part;
use crate::tally::Tally;
use do_base::Value;
use do_behave::{Change, Invocation};
use std::alloc::AllocError;

/// The last item of the list in a local.
fn last_item(inv: &Invocation, list: u8) -> Option<&Value>
    ensures { (vs : Listed Value) (item : Value)
        → slice_get inv.now.locals list ≡ Some (List (vs ++ item ∷ []))
        → option_copied result ≡ Some item }
{
    let Value::List(values) = inv.locals.as_slice().get(list as usize)?.value() else {
        return None;
    };
    values.as_slice().last()
}

impl Part {
    /// Appends an item to the list in a local of the top invocation, which then goes on.
    ///
    /// If memory runs out, what the part has is unchanged.
    pub(super) fn push_item(
        &mut self,
        list: u8,
        item: Value,
        weight: u64,
        pc: u32,
    ) -> Result<(), AllocError>
        requires top { 0 < length self.old.own.node.stack }
        requires fits { (top : Invocation) → slice_get self.old.own.node.stack 0 ≡ Some top
            → IsSomeAnd (local top list) (λ value. FitsIn value item weight) }
        requires names { size_of item ≤ self.old.room.names }
        requires stored { AreStored self.old.own.node (value_of item) }
        ensures own { OnOk result (self.new.own ≡ record self.old.own {
          node = changed (Push list item weight pc) self.old.own.node;
        }) }
        ensures err { OnErr result (self.new.own ≡ self.old.own) }
        ensures objects { self.new.room.objects ≡ self.old.room.objects }
        ensures invocations { self.new.room.invocations ≡ self.old.room.invocations }
        ensures names { self.old.room.names ≤ self.new.room.names + size_of item }
        ensures entries { self.new.room.entries ≡ self.old.room.entries }
    {
        let _done = self.stack.change(Change::Push {
            list,
            item,
            weight,
            pc,
        })?;
        let Some(top) = self.stack.top() else {
            unreachable!();
        };
        let Some(item) = last_item(top, list) else {
            unreachable!();
        };
        self.holders.tally_value(Tally::More, item, true);
        Ok(())
    }
}
