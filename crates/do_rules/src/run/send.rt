//! What becomes of a message that an invocation sends.
ghost use Rattle.std.specs.Prelude.{◌≡◌, IfOk};
ghost use Rattle.do_machine.specs.run.Send.{arguments, local_rule, message, remote_rule, send_rule};
ghost use Rattle.do_machine.specs.Packing.{packed_for};
ghost use Rattle.do_rules.specs.Judged.{found_of, turn_in};

use crate::basis::{Basis, class_seen};
use crate::judged::Turn;
use crate::node::methods::{Found, method_for};
use crate::packing::packed_for;
use crate::run::arguments::{copy_marks, inputs, outs_of};
use do_base::{Exc, NodeId, Oid, Value};
use do_class::Packet;
use do_machine::{Message, Request, SendAct, Verdict};
use do_sig::Signature;
use std::alloc::AllocError;

/// What a send says to its target.
fn message(object: Oid, send: &SendAct, packet: Packet) -> Result<Message, AllocError>
    ensures { IfOk result (λ m. m ≡ message object send.now packet) }
{
    Ok(Message {
        target: object.serial,
        selector: send.selector.clone()?,
        packet,
    })
}

/// A send to an own object pushes its invocation, where there is room.
fn local_rule<N: Basis>(
    basis: &N,
    object: Oid,
    method: &Found,
    send: &SendAct,
) -> Result<Verdict, AllocError>
    ensures { IfOk result (λ v.
        v ≡ local_rule (N.context basis.now).node object (found_of method.now) send.now) }
{
    if basis.is_full() {
        return Ok(Verdict::Fails(Exc::Deep));
    }
    Ok(Verdict::Begins {
        object,
        method: method.id,
        values: inputs(method.signature, send)?,
        into: send.into,
        outs: outs_of(method.signature, &send.from)?,
        pc: send.pc,
    })
}

/// The arguments of a send as a message to a peer, if they are not too large.
fn packed_arguments<N: Basis>(
    basis: &N,
    to: NodeId,
    signature: &Signature,
    send: &SendAct,
) -> Result<Option<Packet>, AllocError>
    ensures { IfOk result (λ packet.
        packet ≡ packed_for (N.context basis.now) to (arguments signature.now send.now)) }
{
    let marks = copy_marks(send.args.allocator(), signature)?;
    let values = inputs(signature, send)?;
    packed_for(basis, to, marks, values)
}

/// A send to a foreign object goes as a message, which is waited for unless it is oneway.
fn remote_rule<N: Basis>(
    basis: &N,
    object: Oid,
    method: &Found,
    send: &SendAct,
) -> Result<Verdict, AllocError>
    ensures { IfOk result (λ v.
        v ≡ remote_rule (N.context basis.now) object (found_of method.now) send.now) }
{
    let home = object.node;
    let signature = method.signature;
    let outs = outs_of(signature, &send.from)?;
    let Some(packet) = packed_arguments(basis, home, signature, send)? else {
        return Ok(Verdict::Fails(Exc::TooLarge));
    };
    let message = message(object, send, packet)?;
    if signature.oneway() {
        return Ok(Verdict::Tells {
            peer: home,
            message,
            into: send.into,
            pc: send.pc,
        });
    }
    Ok(Verdict::Asks {
        peer: home,
        request: Request::Call {
            method: method.id,
            message,
        },
        into: send.into,
        outs,
        pc: send.pc,
    })
}

impl<'a, N: Basis> Turn<'a, N> {
    /// What becomes of a send: the first of its rules that applies decides.
    pub(crate) fn send_rule(&self, send: &SendAct) -> Result<Verdict, AllocError>
        ensures { IfOk result (λ v.
            v ≡ send_rule (turn_in (N.context self.now.basis.now) self.now.top.now) send.now) }
    {
        let object = match &send.target {
            Value::Nil => {
                return Ok(Verdict::Goes {
                    into: send.into,
                    value: Value::Nil,
                    pc: send.pc,
                });
            }
            Value::Obj(object) => *object,
            _ => return Ok(Verdict::Fails(Exc::TypeFault)),
        };
        let basis = self.basis;
        let home = object.node;
        let own = home == basis.port();
        if !own && !basis.is_open(home) {
            return Ok(Verdict::Fails(Exc::ConnectionDied));
        }
        if !own && !basis.is_known(&object) {
            return Ok(Verdict::Fails(Exc::NotVended));
        }
        let class = class_seen(basis, &object);
        let Some(method) = method_for(basis.table(), class, &send.selector) else {
            return Ok(Verdict::Fails(Exc::NotUnderstood));
        };
        if !method.signature.inputs_fit(&send.args) {
            return Ok(Verdict::Fails(Exc::TypeFault));
        }
        if own {
            return local_rule(basis, object, &method, send);
        }
        remote_rule(basis, object, &method, send)
    }
}
