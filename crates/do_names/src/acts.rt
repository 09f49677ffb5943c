use crate::calls::{Call, call_in};
use crate::names::Names;
use do_base::{Text, Value, Values};
use do_behave::{Behaviour, Change, Invocation};
use do_class::ClassTable;
use do_native_acts::{Core, CoreFault, call_act, selector_in};
use std::alloc::AllocError;

impl Core for Names {
    ghost use Rattle.do_names.specs.{Calls.{IsCall, call_in, does}, Core.{from_slots, to_slots}};

    type Call = Call;

    ghost read = { from_slots };

    ghost shown = { to_slots };

    ghost asked = { call_in };

    ghost Takes = { IsCall };

    ghost leaves = { does };

    ghost limit = { λ _. 512 };

    fn from_slots(slots: &Values) -> Result<Option<Names>, AllocError> {
        Names::from_slots(slots)
    }

    fn to_slots(&self) -> Result<Values, AllocError> {
        self.to_slots()
    }

    fn call_in(selector: &Text, inv: &Invocation) -> Result<Option<Call>, AllocError> {
        call_in(selector, inv)
    }

    fn perform(&mut self, call: Call) -> Result<Value, CoreFault> {
        self.perform(call)
    }
}

/// The behaviour of servers of names. The one slot of a server holds its names with their ports, or
/// nil.
#[derive(Clone, Copy, Debug)]
pub struct NameServer;

impl Behaviour for NameServer {
    ghost use Rattle.do_names.specs.Acts.{names_act};
    ghost use Rattle.do_names.specs.laws.NameLaws.{names_names_shown, names_answers_well};

    ghost act = { λ _. names_act };

    ghost made_for = { λ _ _. Unit {0} };

    ghost names_shown = { λ _. names_names_shown };

    ghost answers_well = { λ _ table inv slots _. names_answers_well table inv slots };

    fn act(
        &self,
        table: &ClassTable,
        inv: &Invocation,
        slots: &Values,
    ) -> Result<Change, AllocError> {
        match selector_in(table, inv) {
            Some(selector) => call_act::<Names>(selector, inv, slots),
            None => Ok(Change::type_fault()),
        }
    }
}
