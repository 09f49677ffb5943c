//! The calls of a core, as one type.
ghost use Rattle.std.specs.Prelude.{◌≡◌, ◌∷◌, List, IfOk, IfErr, OnOk, OnErr, Some, None, codes};
ghost use Rattle.std.specs.Option.{option_copied};
ghost use Rattle.do_grammar.specs.Words.{◌>>?◌};
ghost use Rattle.do_behave.specs.Steps.{local};
ghost use Rattle.do_native_acts.specs.Faults.{FaultOf};
ghost use Rattle.do_services.specs.{Calls.{IsCall, call_in, does, row_or_nil}, Core.service_in};
ghost use Rattle.do_services.specs.{History.after, declared.calls.Call.{Call, TheVariants.Add}};

use crate::service::Service;
use crate::services::Services;
use do_base::{Text, Value};
use do_behave::Invocation;
use do_native_acts::{CoreFault, Row, as_number, local_text, show_list};
use std::alloc::AllocError;

/// A call of a core.
#[derive(Debug, Drop)]
pub enum Call {
    /// Adds a service.
    Add { service: Service },
    /// Takes out the service of an item.
    Remove { item: Text },
    /// Asks for the items.
    Items,
    /// Asks for the service of an item.
    Named { item: Text },
}

/// The service that a local holds.
pub(crate) fn local_service(inv: &Invocation, k: u8) -> Result<Option<Service>, AllocError>
    ensures { IfOk result (λ service. service ≡ (local inv.now k >>? service_in)) }
{
    match inv.local(k) {
        Some(value) => Service::read(value),
        None => Ok(None),
    }
}

/// The call that adds the service of the first argument.
fn adds(inv: &Invocation) -> Result<Option<Call>, AllocError>
    ensures { IfOk result (λ call. call ≡ (local inv.now 0 >>? service_in >>? λ s. Some (Add s))) }
{
    match local_service(inv, 0)? {
        Some(service) => Ok(Some(Call::Add { service })),
        None => Ok(None),
    }
}

/// The call that a selector and the arguments make, of those that only answer; none where there is
/// none.
pub(crate) fn call_in(selector: &Text, inv: &Invocation) -> Result<Option<Call>, AllocError>
    ensures { IfOk result (λ call. call ≡ call_in selector.now inv.now) }
{
    if selector.is(b"addService:") {
        return adds(inv);
    }
    if selector.is(b"removeService:") {
        return match local_text(inv, 0) {
            Some(item) => Ok(Some(Call::Remove {
                item: item.clone()?,
            })),
            None => Ok(None),
        };
    }
    if selector.is(b"services") {
        return Ok(Some(Call::Items));
    }
    if selector.is(b"serviceNamed:") {
        return match local_text(inv, 0) {
            Some(item) => Ok(Some(Call::Named {
                item: item.clone()?,
            })),
            None => Ok(None),
        };
    }
    Ok(None)
}

/// A service as a value, or nil for none.
fn row_or_nil(service: Option<&Service>) -> Result<Value, AllocError>
    ensures { IfOk result (λ value. value ≡ row_or_nil (option_copied service.entry)) }
{
    match service {
        Some(service) => service.shown(),
        None => Ok(Value::Nil),
    }
}

impl Services {
    /// Does a call, and gives its answer as a value: 1 or 0 for yes or no, a list of items, or a
    /// service as a list, nil for none. On any error the services are unchanged.
    #[tactic(auto, using(do_native_acts::specs::laws::HistoryLaws::after_call))]
    pub fn perform(&mut self, call: Call) -> Result<Value, CoreFault>
        requires { IsCall call }
        ensures done { IfOk result (λ answer. does self.old call ≡ Some (self.new, answer)) }
        ensures fault { IfErr result (FaultOf 256 (does self.old call)) }
        ensures history { (h : List Call) → self.old ≡ after h
            → OnOk result (self.new ≡ after (call ∷ h)) }
        ensures err { OnErr result (self.new ≡ self.old) }
    {
        match call {
            Call::Add { service } => match self.add(service) {
                Ok(new) => Ok(as_number(new)),
                Err(fault) => Err(fault),
            },
            Call::Remove { item } => Ok(as_number(self.remove(&item))),
            Call::Items => Ok(show_list::<Text>(&self.items()?)?),
            Call::Named { item } => Ok(row_or_nil(self.find(&item))?),
        }
    }
}
