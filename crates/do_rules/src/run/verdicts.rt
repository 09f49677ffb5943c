//! The effect of each verdict on the top invocation.
ghost use Rattle.std.specs.Prelude.{◌≡◌, IfOk, OnOk};
ghost use Rattle.do_machine.specs.{Effect.only, lend.Lending.posting};
ghost use Rattle.do_machine.specs.run.{Changes.{goes_to, stands, uses_number}, Delivery.with_top};
ghost use Rattle.do_machine.specs.run.Verdicts.{effect_of, waits_for};
ghost use Rattle.do_machine.specs.declared.item.Item.TheVariants.{Oneway};
ghost use Rattle.do_rules.specs.{Doing.and_then, Judged.{IsBegun, IsOfNode, run_of}};

use crate::effect::{Done, given, queue, show, unchanged};
use crate::judged::Run;
use crate::lend::lending::lend;
use crate::node::own;
use crate::run::asking::{request, use_number, waits_for};
use crate::run::changes::{go_on, use_answer};
use crate::run::fresh::{begin, one_blank, store};
use crate::run::slots::write_slots;
use do_base::{Locals, NodeId, Oid, Shown, Value, Values};
use do_behave::{Answer, Frame, Handler, InvState, Reason, Writes};
use do_class::{ClassId, MethodId};
use do_machine::{Effect, Item, Message, Request, Verdict};
use std::alloc::AllocError;

/// A message goes to a peer that is not waited for.
fn tell(effect: &mut Effect, peer: NodeId, message: Message) -> Done
    ensures { OnOk result (effect.new
        ≡ and_then effect.old (posting peer message.packet (Oneway message))) }
{
    let done = lend(&mut effect.node, peer, &message.packet);
    let message = given(message, done)?;
    queue(effect, peer, Item::Oneway { message })
}

impl<'a> Run<'a> {
    /// The top invocation goes on with a value in a local.
    pub(crate) fn goes(&self, effect: &mut Effect, into: u8, value: Value, pc: u32)
        requires { IsBegun self.now effect.old }
        ensures { effect.new ≡ effect_of (run_of self.now) (Verdict.Goes into value pc) }
    {
        go_on(effect.node.stack.at_mut(0), into, value, pc);
    }

    /// The top invocation goes on at a place.
    fn goes_to(&self, effect: &mut Effect, pc: u32)
        requires { IsBegun self.now effect.old }
        ensures { effect.new ≡ only (with_top (run_of self.now) (goes_to pc self.now.top.now)) }
    {
        let top = effect.node.stack.at_mut(0);
        top.pc = pc;
    }

    /// An object is made, and its name goes to a local.
    fn makes(&self, effect: &mut Effect, class: ClassId, into: u8, pc: u32) -> Done
        requires { IsBegun self.now effect.old }
        ensures { OnOk result (effect.new
            ≡ effect_of (run_of self.now) (Verdict.Makes class into pc)) }
    {
        let node = self.context.node;
        let made = Value::Obj(own(node, node.next_serial));
        self.goes(effect, into, made, pc);
        let new = one_blank(node.stack.allocator(), self.context.table, class)?;
        store(&mut effect.node, &new)
    }

    /// The top invocation waits for what is asked of a peer, under the next call number.
    fn waits(
        &self,
        effect: &mut Effect,
        peer: NodeId,
        asked: &Request,
        into: u8,
        outs: Locals,
        pc: u32,
    ) -> Done
        requires { IsBegun self.now effect.old }
        ensures { OnOk result (effect.new ≡ only (uses_number
            (with_top (run_of self.now) (stands pc into outs
            (waits_for self.now.context.node.now peer asked.now) self.now.top.now)))) }
    {
        let state = waits_for(self.context.node, peer, asked);
        effect.node.stack.at_mut(0).stand(pc, into, outs, state);
        use_number(&mut effect.node)
    }

    /// The top invocation waits for what is asked of a peer.
    fn asks(
        &self,
        effect: &mut Effect,
        peer: NodeId,
        asked: Request,
        into: u8,
        outs: Locals,
        pc: u32,
    ) -> Done
        requires { IsBegun self.now effect.old }
        ensures { OnOk result (effect.new
            ≡ effect_of (run_of self.now) (Verdict.Asks peer asked into outs pc)) }
    {
        let number = self.context.node.next_call;
        let done = self.waits(effect, peer, &asked, into, outs, pc);
        request(effect, peer, number, given(asked, done)?)
    }

    /// The top invocation waits for a method of an own object, which begins.
    fn begins(
        &self,
        effect: &mut Effect,
        object: Oid,
        method: MethodId,
        values: &Values,
        into: u8,
        outs: Locals,
        pc: u32,
    ) -> Done
        requires { IsBegun self.now effect.old }
        ensures { OnOk result (effect.new ≡ effect_of (run_of self.now)
            (Verdict.Begins object method values.now into outs pc)) }
    {
        let top = effect.node.stack.at_mut(0);
        top.stand(pc, into, outs, InvState::Below);
        begin(&mut effect.node, object, method, Reason::Local, values)
    }

    /// The top invocation goes on, and a peer gets a message that nobody waits for.
    fn tells(&self, effect: &mut Effect, peer: NodeId, message: Message, into: u8, pc: u32) -> Done
        requires { IsBegun self.now effect.old }
        ensures { OnOk result (effect.new
            ≡ effect_of (run_of self.now) (Verdict.Tells peer message into pc)) }
    {
        self.goes(effect, into, Value::Nil, pc);
        tell(effect, peer, message)
    }

    /// The top invocation goes on with its answer.
    fn uses(&self, effect: &mut Effect, value: Value, outs: &Values) -> Done
        requires { IsBegun self.now effect.old }
        ensures { OnOk result (effect.new
            ≡ effect_of (run_of self.now) (Verdict.Uses value outs.now)) }
    {
        use_answer(effect.node.stack.at_mut(0), value, outs)
    }

    /// The top invocation goes on with other locals, and slots of its object are written.
    fn steps(
        &self,
        effect: &mut Effect,
        pc: u32,
        locals: Frame,
        handler: Option<Handler>,
        writes: &Writes,
    ) -> Done
        requires { IsBegun self.now effect.old }
        ensures { OnOk result (effect.new ≡ effect_of (run_of self.now)
            (Verdict.Steps pc locals handler writes.now)) }
    {
        drop(effect.node.stack.at_mut(0).step_to(pc, locals, handler));
        let object = &self.top.object;
        write_slots(&mut effect.node, object.serial, writes)
    }

    /// What a verdict does.
    fn carry_out(&self, effect: &mut Effect, verdict: Verdict) -> Done
        requires { IsBegun self.now effect.old }
        ensures { OnOk result (effect.new ≡ effect_of (run_of self.now) verdict) }
    {
        match verdict {
            Verdict::Goes { into, value, pc } => {
                self.goes(effect, into, value, pc);
                Ok(())
            }
            Verdict::Uses { value, outs } => self.uses(effect, value, &outs),
            Verdict::Steps {
                pc,
                locals,
                handler,
                writes,
            } => self.steps(effect, pc, locals, handler, &writes),
            Verdict::Makes { class, into, pc } => self.makes(effect, class, into, pc),
            Verdict::Vends { root, pc } => {
                self.goes_to(effect, pc);
                effect.node.root = root;
                Ok(())
            }
            Verdict::Says { value, pc } => {
                self.goes_to(effect, pc);
                show(effect, Shown::Say(value))
            }
            Verdict::Asks {
                peer,
                request,
                into,
                outs,
                pc,
            } => self.asks(effect, peer, request, into, outs, pc),
            Verdict::Begins {
                object,
                method,
                values,
                into,
                outs,
                pc,
            } => self.begins(effect, object, method, &values, into, outs, pc),
            Verdict::Tells {
                peer,
                message,
                into,
                pc,
            } => self.tells(effect, peer, message, into, pc),
            Verdict::Returns { value, outs } => {
                let answer = Answer::Given {
                    result: value,
                    outs,
                };
                self.deliver(effect, answer)
            }
            Verdict::Fails(exc) => self.fails(effect, exc, self.top.handler),
        }
    }

    /// The effect of a verdict.
    pub(crate) fn effect_of(&self, verdict: Verdict) -> Result<Effect, AllocError>
        requires { IsOfNode self.now }
        ensures { IfOk result (λ e. e ≡ effect_of (run_of self.now) verdict) }
    {
        match unchanged(self.context.node) {
            Ok(mut effect) => {
                let done = self.carry_out(&mut effect, verdict);
                given(effect, done)
            }
            Err(error) => {
                drop(verdict);
                Err(error)
            }
        }
    }
}
