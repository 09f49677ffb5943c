//! The calls of a core, as one type.
ghost use Rattle.std.specs.Prelude.{◌≡◌, ◌∷◌, List, IfOk, IfErr, OnOk, OnErr, Some};
ghost use Rattle.std.specs.Option.{option_copied};
ghost use Rattle.do_grammar.specs.Words.{◌>>?◌};
ghost use Rattle.do_behave.specs.Steps.{local};
ghost use Rattle.do_native_acts.specs.{Faults.FaultOf, Ports.port_in};
ghost use Rattle.do_names.specs.{Core.name_in, Calls.{IsCall, does, call_in, call_with}};
ghost use Rattle.do_names.specs.{History.after, declared.calls.Call.Call};

use crate::entries::name_in;
use crate::names::Names;
use do_base::{Text, Value};
use do_behave::Invocation;
use do_native_acts::{CoreFault, as_number, port_in};
use std::alloc::AllocError;

/// A call of a core.
#[derive(Debug, Drop)]
pub enum Call {
    /// Gives a name its port.
    Register { name: Text, port: u16 },
    /// Asks for the port of a name.
    Lookup { name: Text },
    /// Takes out a name.
    Unregister { name: Text },
}

/// The name that the first argument is.
fn first_name(inv: &Invocation) -> Option<&Text>
    ensures { option_copied result ≡ (local inv.now 0 >>? name_in) }
{
    name_in(inv.local(0)?)
}

/// The port that the second argument is.
fn second_port(inv: &Invocation) -> Option<u16>
    ensures { result ≡ (local inv.now 1 >>? port_in) }
{
    port_in(inv.local(1)?)
}

/// The call that a selector makes with a name and perhaps a port.
fn call_with(selector: &Text, name: Text, port: Option<u16>) -> Option<Call>
    ensures { result ≡ call_with selector.now port name }
{
    if selector.is(b"register:port:") {
        let port = port?;
        return Some(Call::Register { name, port });
    }
    if selector.is(b"lookup:") {
        return Some(Call::Lookup { name });
    }
    if selector.is(b"unregister:") {
        return Some(Call::Unregister { name });
    }
    None
}

/// The call that a selector and the arguments make; none where there is none.
pub(crate) fn call_in(selector: &Text, inv: &Invocation) -> Result<Option<Call>, AllocError>
    ensures { IfOk result (λ call. call ≡ call_in selector.now inv.now) }
{
    match first_name(inv) {
        Some(name) => Ok(call_with(selector, name.clone()?, second_port(inv))),
        None => Ok(None),
    }
}

impl Names {
    /// Does a call, and gives its answer as a value: 1 or 0 for yes or no, the port or 0 of a
    /// lookup. On any error the names are unchanged.
    #[tactic(auto, using(do_native_acts::specs::laws::HistoryLaws::after_call))]
    pub fn perform(&mut self, call: Call) -> Result<Value, CoreFault>
        requires { IsCall call }
        ensures done { IfOk result (λ answer. does self.old call ≡ Some (self.new, answer)) }
        ensures fault { IfErr result (FaultOf 512 (does self.old call)) }
        ensures history { (h : List Call) → self.old ≡ after h
            → OnOk result (self.new ≡ after (call ∷ h)) }
        ensures err { OnErr result (self.new ≡ self.old) }
    {
        match call {
            Call::Register { name, port } => match self.register(name, port) {
                Ok(has) => Ok(as_number(has)),
                Err(fault) => Err(fault),
            },
            Call::Lookup { name } => Ok(Value::Num(self.lookup(&name).unwrap_or(0) as i64)),
            Call::Unregister { name } => Ok(as_number(self.unregister(&name))),
        }
    }
}
