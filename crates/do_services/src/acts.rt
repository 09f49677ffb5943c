ghost use Rattle.std.specs.Prelude.{◌≡◌, IfOk};
ghost use Rattle.do_behave.specs.{Changes.Means, Steps.or_fault};
ghost use Rattle.do_services.specs.Acts.{method_act};

use crate::calls::{Call, call_in};
use crate::performing::perform_act;
use crate::services::Services;
use do_base::{Text, Value, Values};
use do_behave::{Behaviour, Change, Invocation};
use do_class::ClassTable;
use do_native_acts::{Core, CoreFault, call_act, selector_in};
use std::alloc::AllocError;

impl Core for Services {
    ghost use Rattle.do_services.specs.{Calls.{IsCall, call_in, does}, Core.{from_slots, to_slots}};

    type Call = Call;

    ghost read = { from_slots };

    ghost shown = { to_slots };

    ghost asked = { call_in };

    ghost Takes = { IsCall };

    ghost leaves = { does };

    ghost limit = { λ _. 256 };

    fn from_slots(slots: &Values) -> Result<Option<Services>, AllocError> {
        Services::from_slots(slots)
    }

    fn to_slots(&self) -> Result<Values, AllocError> {
        self.to_slots()
    }

    fn call_in(selector: &Text, inv: &Invocation) -> Result<Option<Call>, AllocError> {
        call_in(selector, inv)
    }

    fn perform(&mut self, call: Call) -> Result<Value, CoreFault> {
        self.perform(call)
    }
}

/// The act of the method with this selector.
fn method_act(selector: &Text, inv: &Invocation, slots: &Values) -> Result<Change, AllocError>
    ensures { IfOk result (λ change.
        Means inv.now change (or_fault (method_act selector.now inv.now slots.now))) }
{
    if selector.is(b"performService:pasteboard:error:") {
        return perform_act(inv, slots);
    }
    call_act::<Services>(selector, inv, slots)
}

/// The behaviour of servers of services. The one slot of a server holds the list of its services,
/// or nil.
#[derive(Clone, Copy, Debug)]
pub struct ServiceServer;

impl Behaviour for ServiceServer {
    ghost use Rattle.do_services.specs.{Acts.services_act, laws.ServiceLaws.services_answers_well};
    ghost use Rattle.do_services.specs.laws.ServiceLaws.{services_names_shown};

    ghost act = { λ _. services_act };

    ghost made_for = { λ _ _. Unit {0} };

    ghost names_shown = { λ _. services_names_shown };

    ghost answers_well = { λ _ table inv slots _. services_answers_well table inv slots };

    fn act(
        &self,
        table: &ClassTable,
        inv: &Invocation,
        slots: &Values,
    ) -> Result<Change, AllocError> {
        match selector_in(table, inv) {
            Some(selector) => method_act(selector, inv, slots),
            None => Ok(Change::type_fault()),
        }
    }
}
