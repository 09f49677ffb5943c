//! What becomes of each act of an invocation.
ghost use Rattle.std.specs.Prelude.{◌≡◌, IfOk};
ghost use Rattle.do_machine.specs.run.Acts.{act_rule, port_of, return_rule, root_rule, root_value};
ghost use Rattle.do_machine.specs.run.{Acts.vend_rule, Send.outs_of};
ghost use Rattle.do_rules.specs.Judged.{turn_in};

use crate::basis::Basis;
use crate::judged::Turn;
use crate::node::methods::signature_of;
use crate::run::answers::values_in;
use crate::run::arguments::{outs_of, outs_take};
use do_base::{Exc, Locals, NodeId, Oid, Value, Values};
use do_behave::Act;
use do_machine::{Request, SendAct, Verdict};
use do_sig::Signature;
use std::alloc::AllocError;

/// The node of a number; none where the number is no port.
fn node_id(number: i64) -> Option<NodeId>
    ensures { result ≡ port_of number }
{
    match u16::try_from(number) {
        Ok(port) => NodeId::new(port),
        Err(_) => None,
    }
}

/// A node's root, or nil.
fn root_value<N: Basis>(basis: &N) -> Value
    ensures { result ≡ root_value (N.context basis.now).node }
{
    match basis.root() {
        None => Value::Nil,
        Some(serial) => Value::Obj(Oid {
            node: basis.port(),
            serial,
        }),
    }
}

impl<'a, N: Basis> Turn<'a, N> {
    /// The root of a node: the own one is there at once, and another is asked for over an open end.
    fn root_rule(&self, port: &Value, into: u8, pc: u32) -> Verdict
        ensures { result ≡ root_rule
            (turn_in (N.context self.now.basis.now) self.now.top.now) port.now into pc }
    {
        let Value::Num(number) = port else {
            return Verdict::Fails(Exc::TypeFault);
        };
        let Some(peer) = node_id(*number) else {
            return Verdict::Fails(Exc::ConnectionDied);
        };
        let basis = self.basis;
        if peer == basis.port() {
            return Verdict::Goes {
                into,
                value: root_value(basis),
                pc,
            };
        }
        if !basis.is_open(peer) {
            return Verdict::Fails(Exc::ConnectionDied);
        }
        Verdict::Asks {
            peer,
            request: Request::Root,
            into,
            outs: Locals::new(basis.allocator()),
            pc,
        }
    }

    /// An own object or nil becomes the root.
    fn vend_rule(&self, value: &Value, pc: u32) -> Verdict
        ensures { result ≡ vend_rule
            (turn_in (N.context self.now.basis.now) self.now.top.now) value.now pc }
    {
        match value {
            Value::Nil => Verdict::Vends { root: None, pc },
            Value::Obj(object) => {
                let home = object.node;
                if home == self.basis.port() {
                    Verdict::Vends {
                        root: Some(object.serial),
                        pc,
                    }
                } else {
                    Verdict::Fails(Exc::TypeFault)
                }
            }
            _ => Verdict::Fails(Exc::TypeFault),
        }
    }

    /// The locals that come out.
    fn outs_returned(&self, signature: &Signature) -> Result<Values, AllocError>
        ensures { IfOk result (λ vs. vs ≡ outs_of signature.now self.now.top.now.locals) }
    {
        let outs = outs_of(signature, &self.top.locals)?;
        values_in(&outs)
    }

    /// What is returned fits the result, if that is not void, and what comes out fits.
    fn return_rule(&self, value: Value) -> Result<Verdict, AllocError>
        ensures { IfOk result (λ v. v ≡ return_rule
            (turn_in (N.context self.now.basis.now) self.now.top.now) value) }
    {
        let Some(signature) = signature_of(self.basis.table(), self.top.method) else {
            return Ok(Verdict::Fails(Exc::TypeFault));
        };
        let void = signature.result_is_void();
        if !(void || signature.result_fits(&value)) {
            return Ok(Verdict::Fails(Exc::TypeFault));
        }
        let outs = self.outs_returned(signature)?;
        if !outs_take(signature, &outs) {
            return Ok(Verdict::Fails(Exc::TypeFault));
        }
        if void {
            return Ok(Verdict::Returns {
                value: Value::Nil,
                outs,
            });
        }
        Ok(Verdict::Returns { value, outs })
    }

    /// What becomes of the next act.
    pub fn act_rule(&self, act: Act) -> Result<Verdict, AllocError>
        ensures { IfOk result (λ v. v ≡ act_rule
            (turn_in (N.context self.now.basis.now) self.now.top.now) act) }
    {
        match act {
            Act::Step {
                pc,
                locals,
                handler,
                writes,
            } => Ok(Verdict::Steps {
                pc,
                locals,
                handler,
                writes,
            }),
            Act::New { class, into, pc } => Ok(Verdict::Makes { class, into, pc }),
            Act::Send {
                target,
                selector,
                args,
                into,
                from,
                pc,
            } => self.send_rule(&SendAct {
                target,
                selector,
                args,
                into,
                from,
                pc,
            }),
            Act::Root { port, into, pc } => Ok(self.root_rule(&port, into, pc)),
            Act::Vend { value, pc } => Ok(self.vend_rule(&value, pc)),
            Act::Say { value, pc } => Ok(Verdict::Says { value, pc }),
            Act::Return { value } => self.return_rule(value),
            Act::Raise(exc) => Ok(Verdict::Fails(exc)),
        }
    }
}
