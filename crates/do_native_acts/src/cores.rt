//! The cores of servers, and the methods that only answer.
ghost use Rattle.std.specs.Prelude.{◌≡◌, ℕ, List, Option, Some, IfOk, IfErr, IfSome, OnErr};
ghost use Rattle.do_base.specs.declared.values.value.Value.{Value};
ghost use Rattle.do_behave.specs.{Changes.Means, Steps.or_fault};
ghost use Rattle.do_behave.specs.declared.invocation.Invocation.{Invocation};
ghost use Rattle.do_grammar.specs.Words.{◌>>?◌};
ghost use Rattle.do_native_acts.specs.{Faults.FaultOf, Places.{does_call, in_two}};
ghost use Rattle.do_native_acts.specs.Steps.{answered, changes, fits};

use crate::answers::answer;
use crate::fault::CoreFault;
use crate::steps::{answered, changes};
use do_base::{Exc, Text, Value, Values};
use do_behave::{Act, Change, Invocation};
use std::alloc::AllocError;

/// The core of a server: what it keeps in its slots, and what a call does to it.
pub trait Core: Drop {
    /// A call of the core.
    type Call: Drop;

    ghost read: { List Value → Option Self };

    ghost shown: { Self → List Value };

    ghost asked: { List ℕ → Invocation → Option Self.Call };

    ghost Takes: { Self.Call → Type 0 };

    ghost leaves: { Self → Self.Call → Option (Self × Value) };

    ghost limit: { Self.Call → ℕ };

    /// The core whose slots these are; none exactly where no core has these slots. An error means
    /// that memory ran out.
    fn from_slots(slots: &Values) -> Result<Option<Self>, AllocError>
        ensures value { IfOk result (λ core. core ≡ read slots.now) }
        ensures exact { IfOk result (λ read. IfSome read (λ core. shown core ≡ slots.now)) };

    /// The slots of the core. An error means that memory ran out.
    fn to_slots(&self) -> Result<Values, AllocError>
        ensures value { IfOk result (λ slots. slots ≡ shown self.now) }
        ensures exact { IfOk result (λ slots. read slots ≡ Some self.now) };

    /// The call that a selector and the locals make, of those that only answer; none where they
    /// make none. An error means that memory ran out.
    fn call_in(selector: &Text, inv: &Invocation) -> Result<Option<Self::Call>, AllocError>
        ensures value { IfOk result (λ call. call ≡ asked selector.now inv.now) }
        ensures taken { IfOk result (λ call. IfSome call Takes) };

    /// Does a call, and gives its answer. On any error the core is unchanged.
    fn perform(&mut self, call: Self::Call) -> Result<Value, CoreFault>
        requires { Takes call }
        ensures done { IfOk result (λ answer. leaves self.old call ≡ Some (self.new, answer)) }
        ensures fault { IfErr result (FaultOf (limit call) (leaves self.old call)) }
        ensures err { OnErr result (self.new ≡ self.old) };
}

/// Does the call of a method, and keeps its answer and the slots that change.
fn first_on<C: Core>(
    core: &mut C,
    selector: &Text,
    inv: &Invocation,
    slots: &Values,
) -> Result<Change, AllocError>
    ensures { IfOk result (λ change. Means inv.now change (or_fault
        (C.asked selector.now inv.now >>? λ call. Some (fits (C.leaves core.old call)
        (λ done. answered inv.now done.1 (changes 0 slots.now (C.shown done.0))))))) }
{
    let Some(call) = C::call_in(selector, inv)? else {
        return Ok(Change::type_fault());
    };
    match core.perform(call) {
        Ok(value) => answered(inv, value, changes(slots, &core.to_slots()?)?),
        Err(CoreFault::Full(_)) => Ok(Change::Other(Act::Raise(Exc::Range))),
        Err(CoreFault::Memory) => Err(AllocError),
    }
}

/// The first act of a method that only answers: all that it does but returning.
fn first<C: Core>(selector: &Text, inv: &Invocation, slots: &Values) -> Result<Change, AllocError>
    ensures { IfOk result (λ change. Means inv.now change (or_fault
        (does_call C.read C.shown C.leaves (C.asked selector.now inv.now) inv.now slots.now))) }
{
    match C::from_slots(slots)? {
        Some(mut core) => first_on(&mut core, selector, inv, slots),
        None => Ok(Change::type_fault()),
    }
}

/// The act of a method that only answers: at place 0 the call, whose answer place 1 returns.
///
/// Raises Range where the core has no room, or a new value is past a limit. Where the slots are no
/// core's, the locals make no call, or it is another place, it is a fault of type.
pub fn call_act<C: Core>(
    selector: &Text,
    inv: &Invocation,
    slots: &Values,
) -> Result<Change, AllocError>
    ensures { IfOk result (λ change. Means inv.now change (or_fault (in_two inv.now
        (does_call C.read C.shown C.leaves (C.asked selector.now inv.now) inv.now slots.now)))) }
{
    match inv.pc {
        0 => first::<C>(selector, inv, slots),
        1 => answer(inv),
        _ => Ok(Change::type_fault()),
    }
}
