//! What the rules decided of a run, carried out.
mod running;

ghost use Rattle.std.specs.Prelude.{◌≡◌, ◌<◌, ◌-◌, ◌^◌, length};
ghost use Rattle.do_machine.specs.{Effect.{queueing, showing}, run.Verdicts.awaited_after};
ghost use Rattle.do_part.specs.Names.{AreStored, values_of};
ghost use Rattle.do_rules.specs.Delivery.{delivered};
ghost use Rattle.do_effects.specs.Plans.{CanCarryOut, CanDeliver, CanSendTo, Did, IsRunning};
ghost use Rattle.do_effects.specs.Plans.{delivery_needs, delivery_values, plan_effect, plan_needs};
ghost use Rattle.do_effects.specs.{Plans.requested, Bounded.IsBounded, Room.HasRoom, Tidy.IsTidy};

use crate::changing::Core;
use crate::plan::Plan;
use do_base::{Locals, NodeId, Shown, Value};
use do_behave::Waited;
use do_machine::{Item, Message, Request};
use do_rules::Delivery;
use running::{begins, ends, goes, goes_to, makes, uses, vends};

/// What an invocation waits for, having asked so.
fn awaited(request: &Request) -> Waited
    ensures { result ≡ awaited_after request.now }
{
    match request {
        Request::Root => Waited::Root,
        Request::Call { method, message: _ } => Waited::Method(*method),
    }
}

/// A request under a number, as an item.
fn requested(number: u64, request: Request) -> Item
    ensures { result ≡ requested number request }
{
    match request {
        Request::Root => Item::RootAsk { number },
        Request::Call { method: _, message } => Item::Call { number, message },
    }
}

impl Core {
    /// A value is shown.
    fn says(&mut self, value: Value, pc: u32)
        requires { CanCarryOut (Plan.Says value pc) self.old }
        ensures done { Did (λ r. plan_effect r (Plan.Says value pc)) self.old self.new }
        ensures tidy { IsTidy self.new.part.own }
        ensures within { IsBounded (plan_needs (Plan.Says value pc)) self.old self.new }
    {
        goes_to(&mut self.part, pc);
        self.streams.show(Shown::Say(value));
    }

    /// The top invocation waits for what is asked of a peer.
    fn asks(&mut self, peer: NodeId, request: Request, into: u8, outs: Locals, pc: u32)
        requires { CanCarryOut (Plan.Asks peer request into outs pc) self.old }
        ensures done { Did (λ r. plan_effect r (Plan.Asks peer request into outs pc))
            self.old self.new }
        ensures tidy { IsTidy self.new.part.own }
        ensures within { IsBounded (plan_needs (Plan.Asks peer request into outs pc))
            self.old self.new }
    {
        let what = awaited(&request);
        let number = self.part.call_peer(pc, into, outs, peer, what);
        self.send(peer, requested(number, request));
    }

    /// A peer gets a message that nobody waits for.
    fn tells(&mut self, peer: NodeId, message: Message, into: u8, pc: u32)
        requires { CanCarryOut (Plan.Tells peer message into pc) self.old }
        ensures done { Did (λ r. plan_effect r (Plan.Tells peer message into pc))
            self.old self.new }
        ensures tidy { IsTidy self.new.part.own }
        ensures within { IsBounded (plan_needs (Plan.Tells peer message into pc))
            self.old self.new }
    {
        goes(&mut self.part, into, Value::Nil, pc);
        self.send(peer, Item::Oneway { message });
    }

    /// The top invocation is popped, and its answer goes where it is waited for.
    fn delivers(&mut self, delivery: Delivery)
        requires tidy { IsTidy self.old.part.own }
        requires runs { IsRunning self.old.part.own.node.stack }
        requires values { AreStored self.old.part.own.node
            (values_of (delivery_values delivery)) }
        requires can { CanDeliver self.old.part.own.node delivery }
        requires room { HasRoom (delivery_needs delivery) self.old }
        ensures done { Did (λ r. delivered r delivery) self.old self.new }
        ensures tidy { IsTidy self.new.part.own }
        ensures within { IsBounded (delivery_needs delivery) self.old self.new }
    {
        ends(&mut self.part);
        match delivery {
            Delivery::Shows { line } => self.streams.show(line),
            Delivery::Answers { answer } => self.part.answer_top(answer),
            Delivery::Replies {
                peer,
                number,
                packet,
            } => self.send(peer, Item::Reply { number, packet }),
            Delivery::Raises { peer, number, exc } => {
                self.send(peer, Item::Raised { number, exc });
            }
            Delivery::Drops => {}
        }
    }
}

impl Core {
    /// Carries out what a run was planned to do, in room that was made before.
    pub fn carry_out(&mut self, plan: Plan)
        requires { CanCarryOut plan self.old }
        ensures done { Did (λ r. plan_effect r plan) self.old self.new }
        ensures tidy { IsTidy self.new.part.own }
        ensures within { IsBounded (plan_needs plan) self.old self.new }
    {
        match plan {
            Plan::Goes { into, value, pc } => goes(&mut self.part, into, value, pc),
            Plan::Uses { value, outs } => uses(&mut self.part, value, outs),
            Plan::Makes {
                class,
                slots,
                into,
                pc,
            } => makes(&mut self.part, class, slots, into, pc),
            Plan::Vends { root, pc } => vends(&mut self.part, root, pc),
            Plan::Says { value, pc } => self.says(value, pc),
            Plan::Asks {
                peer,
                request,
                into,
                outs,
                pc,
            } => self.asks(peer, request, into, outs, pc),
            Plan::Begins {
                invocation,
                into,
                outs,
                pc,
            } => begins(&mut self.part, invocation, into, outs, pc),
            Plan::Tells {
                peer,
                message,
                into,
                pc,
            } => self.tells(peer, message, into, pc),
            Plan::Delivers { delivery } => self.delivers(delivery),
        }
    }
}
