ghost use Rattle.std.specs.Prelude.{◌≡◌, IfOk};
ghost use Rattle.do_behave.specs.{Changes.Means, Steps.or_fault};
ghost use Rattle.do_pboard.specs.Acts.{method_act};

use crate::asking::data_act;
use crate::board::Board;
use crate::calls::{Call, call_in};
use crate::declaring::declare_act;
use crate::naming::name_act;
use do_base::{Text, Value, Values};
use do_behave::{Behaviour, Change, Invocation};
use do_class::ClassTable;
use do_native_acts::{Core, CoreFault, call_act, selector_in};
use std::alloc::AllocError;

impl Core for Board {
    ghost use Rattle.do_pboard.specs.Calls.{IsCall, call_in, does, limit_of};
    ghost use Rattle.do_pboard.specs.Core.{from_slots, to_slots};

    type Call = Call;

    ghost read = { from_slots };

    ghost shown = { to_slots };

    ghost asked = { call_in };

    ghost Takes = { IsCall };

    ghost leaves = { does };

    ghost limit = { limit_of };

    fn from_slots(slots: &Values) -> Result<Option<Board>, AllocError> {
        Board::from_slots(slots)
    }

    fn to_slots(&self) -> Result<Values, AllocError> {
        self.to_slots()
    }

    fn call_in(selector: &Text, inv: &Invocation) -> Result<Option<Call>, AllocError> {
        call_in(selector, inv)
    }

    fn perform(&mut self, call: Call) -> Result<Value, CoreFault> {
        self.perform(call)
    }
}

/// The act of the method with this selector.
fn method_act(selector: &Text, inv: &Invocation, slots: &Values) -> Result<Change, AllocError>
    ensures { IfOk result (λ change.
        Means inv.now change (or_fault (method_act selector.now inv.now slots.now))) }
{
    if selector.is(b"declareTypes:owner:") {
        return declare_act(inv, slots);
    }
    if selector.is(b"dataForType:") {
        return data_act(inv, slots);
    }
    if selector.is(b"pasteboardNamed:") {
        return name_act(inv, slots);
    }
    call_act::<Board>(selector, inv, slots)
}

/// The behaviour of pasteboards. The slots of one hold its change count, its owner, the types,
/// those with data, and the named pasteboards; each is nil where it would be 0 or empty.
#[derive(Clone, Copy, Debug)]
pub struct PasteboardServer;

impl Behaviour for PasteboardServer {
    ghost use Rattle.do_pboard.specs.Acts.{pasteboard_act};
    ghost use Rattle.do_pboard.specs.laws.BoardLaws.{board_names_shown, board_answers_well};

    ghost act = { λ _. pasteboard_act };

    ghost made_for = { λ _ _. Unit {0} };

    ghost names_shown = { λ _. board_names_shown };

    ghost answers_well = { λ _ table inv slots _. board_answers_well table inv slots };

    fn act(
        &self,
        table: &ClassTable,
        inv: &Invocation,
        slots: &Values,
    ) -> Result<Change, AllocError> {
        match selector_in(table, inv) {
            Some(selector) => method_act(selector, inv, slots),
            None => Ok(Change::type_fault()),
        }
    }
}
