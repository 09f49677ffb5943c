//! The definition of a behaviour is a function from a class table, an invocation and the slots
//! of its object to an act. A step of it names all 16 locals. The call `act` answers with the
//! one change that the act makes (`Change`) in place of the act. That is a local given, an item
//! pushed, a place, a slot, a handler, several locals and slots at once, or any other act.
//! `meaning` says which act of the definition a change is, and the contract of `act` is that it
//! is the definition's. So nothing else is copied, and whoever calls makes the change where the
//! invocation stands (`make_change`, `act_in_place`). An answer with the whole act cost 300 ns,
//! most of it for the copy of 16 locals. An act that changed the invocation itself would have
//! to undo itself if memory ran out, and would not say what changed.
//!
//! `act` takes any invocation. One that lacks what its method's code names, 16 locals, the
//! slots and the classes, raises `Type`, in the definition and in code. So does a method
//! without code. That an act names only objects that it was shown, and that a step has 16
//! locals, holds of every act. What keeps the limits, and what is in range, holds of acts of a
//! program that is made for the table.

ghost use Rattle.std.specs.Prelude.{◌≡◌, List, IfOk};
ghost use Rattle.do_base.specs.declared.values.value.Value.{Value};
ghost use Rattle.do_class.specs.Class.{Class};
ghost use Rattle.do_behave.specs.declared.{act.Act.Act, invocation.Invocation.Invocation};
ghost use Rattle.do_behave.specs.{Ready.IsReady, Changes.Means, Answers.{AnswersWell, NamesShown}};

use crate::change::Change;
use crate::invocation::Invocation;
use do_base::Values;
use do_class::ClassTable;
use std::alloc::AllocError;

/// What decides the acts of invocations: scripts, or code.
///
/// An implementation names the function of the table, the invocation and the slots of its object
/// that it answers, for any of them, and the tables that it is made for.
pub trait Behaviour {
    ghost act: { Self → List Class → Invocation → List Value → Act };

    ghost made_for: { Self → List Class → Type 0 };

    /// The next act of an invocation whose object has these slots, as the one change that it makes.
    /// An error means that memory ran out.
    fn act(
        &self,
        table: &ClassTable,
        inv: &Invocation,
        slots: &Values,
    ) -> Result<Change, AllocError>
        ensures { IfOk result (λ change.
            Means inv.now change (act self.now table.now inv.now slots.now)) };

    ghost names_shown: { (b : Self) (table : List Class) (inv : Invocation) (slots : List Value) →
        NamesShown inv slots (act b table inv slots) };

    ghost answers_well: { (b : Self) (table : List Class) (inv : Invocation) (slots : List Value) →
        made_for b table → IsReady table inv slots →
        AnswersWell table inv slots (act b table inv slots) };
}
