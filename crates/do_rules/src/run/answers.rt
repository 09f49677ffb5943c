//! Where the answer of an invocation goes, and as what.
ghost use Rattle.std.specs.{Prelude.{◌≡◌, IfOk}, Option.option_copied};
ghost use Rattle.do_machine.specs.run.Answers.{answer_line, answer_marks, answer_placed, exc_name};
ghost use Rattle.do_machine.specs.Packing.{packed_for};
ghost use Rattle.do_rules.specs.Delivery.{delivery_of, oneway_of, reply_by, reply_of};
ghost use Rattle.do_rules.specs.Judged.{turn_in};

use crate::basis::Basis;
use crate::judged::Turn;
use crate::node::methods::signature_of;
use crate::packing::packed_for;
use crate::run::arguments::{copy_marks, outs_of};
use crate::run::delivery::Delivery;
use do_base::{Exc, Flags, NodeId, Shown, Text, Value, Values, copy_value};
use do_behave::{Answer, Frame, Reason};
use do_class::Packet;
use do_sig::Signature;
use std::alloc::{AllocError, Global};

/// The values of locals.
pub(crate) fn values_in(locals: &Frame) -> Result<Values, AllocError>
    ensures { IfOk result (λ values. values ≡ locals.now) }
{
    let mut values = Values::with_capacity(locals.allocator(), locals.len())?;
    for local in locals.as_slice() {
        values.push(copy_value(local.value())?)?;
    }
    Ok(values)
}

/// The name of an exception, as a handler gets it.
pub fn exc_name(alloc: Global, exc: &Exc) -> Result<Text, AllocError>
    ensures { IfOk result (λ text. text ≡ exc_name exc.now) }
{
    match exc {
        Exc::TypeFault => Text::from_slice(alloc, b"Type"),
        Exc::Range => Text::from_slice(alloc, b"Range"),
        Exc::Deep => Text::from_slice(alloc, b"Deep"),
        Exc::NotUnderstood => Text::from_slice(alloc, b"NotUnderstood"),
        Exc::ConnectionDied => Text::from_slice(alloc, b"ConnectionDied"),
        Exc::NotVended => Text::from_slice(alloc, b"NotVended"),
        Exc::TooLarge => Text::from_slice(alloc, b"TooLarge"),
        Exc::TimedOut => Text::from_slice(alloc, b"TimedOut"),
        Exc::User(text) => text.clone(),
    }
}

/// How the answer to a start is shown.
fn answer_line(answer: Answer) -> Shown
    ensures { result ≡ answer_line answer }
{
    match answer {
        Answer::Given { result, .. } => Shown::Return(result),
        Answer::Raised(exc) => Shown::Raise(exc),
    }
}

/// Where the answer to a oneway message goes: nobody waits for it, but an exception is shown.
fn oneway_delivery(answer: Answer) -> Delivery
    ensures { result ≡ oneway_of answer }
{
    match answer {
        Answer::Given { .. } => Delivery::Drops,
        Answer::Raised(exc) => Delivery::Shows {
            line: Shown::Raise(exc),
        },
    }
}

/// Which values of an answer are copied: the result, and what comes out.
fn answer_marks(alloc: Global, signature: Option<&Signature>) -> Result<Flags, AllocError>
    ensures { IfOk result (λ flags. flags ≡ answer_marks (option_copied signature.entry)) }
{
    let Some(signature) = signature else {
        return Ok(Flags::new(alloc));
    };
    let marks = copy_marks(alloc, signature)?;
    let mut flags = outs_of(signature, &marks)?;
    flags.insert(0, signature.result_copy())?;
    Ok(flags)
}

/// Where the message of an answer goes: one that is too large is an exception.
fn reply_by(peer: NodeId, number: u64, packet: Option<Packet>) -> Delivery
    ensures { result ≡ reply_by peer number packet }
{
    match packet {
        Some(packet) => Delivery::Replies {
            peer,
            number,
            packet,
        },
        None => Delivery::Raises {
            peer,
            number,
            exc: Exc::TooLarge,
        },
    }
}

impl<'a, N: Basis> Turn<'a, N> {
    /// A result and out values as a message to a peer, if they are not too large.
    fn answer_packet(
        &self,
        peer: NodeId,
        given: Value,
        outs: Values,
    ) -> Result<Option<Packet>, AllocError>
        ensures { IfOk result (λ packet. packet ≡ packed_for (N.context self.now.basis.now) peer
            (answer_placed (turn_in (N.context self.now.basis.now) self.now.top.now)
            given outs)) }
    {
        let basis = self.basis;
        let signature = signature_of(basis.table(), self.top.method);
        let mut values = outs;
        values.insert(0, given)?;
        let marks = answer_marks(values.allocator(), signature)?;
        packed_for(basis, peer, marks, values)
    }

    /// Where an answer goes that a peer waits for.
    fn reply(&self, peer: NodeId, number: u64, answer: Answer) -> Result<Delivery, AllocError>
        ensures { IfOk result (λ d. d ≡ reply_of
            (turn_in (N.context self.now.basis.now) self.now.top.now) peer number answer) }
    {
        match answer {
            Answer::Raised(exc) => Ok(Delivery::Raises { peer, number, exc }),
            Answer::Given { result, outs } => {
                let packet = self.answer_packet(peer, result, outs)?;
                Ok(reply_by(peer, number, packet))
            }
        }
    }

    /// Where the answer of the invocation goes, by why it was begun. Nothing is changed by it.
    pub fn delivery(&self, answer: Answer) -> Result<Delivery, AllocError>
        ensures { IfOk result (λ d. d ≡ delivery_of
            (turn_in (N.context self.now.basis.now) self.now.top.now) answer
            self.now.top.now.reason) }
    {
        match self.top.reason {
            Reason::Start => Ok(Delivery::Shows {
                line: answer_line(answer),
            }),
            Reason::Local => Ok(Delivery::Answers { answer }),
            Reason::Oneway { .. } => Ok(oneway_delivery(answer)),
            Reason::Call { peer, number } => {
                if self.basis.is_open(peer) {
                    self.reply(peer, number, answer)
                } else {
                    Ok(Delivery::Drops)
                }
            }
        }
    }
}
