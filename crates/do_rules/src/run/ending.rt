//! How an invocation ends, and how its answer goes where it is waited for.
ghost use Rattle.std.specs.Prelude.{◌≡◌, OnOk};
ghost use Rattle.do_machine.specs.run.Delivery.{below_answered, delivery, failing, popped};
ghost use Rattle.do_machine.specs.run.Fresh.{with_stack};
ghost use Rattle.do_rules.specs.{Delivery.delivered, Judged.{IsBegun, IsRunAt, run_of}};

use crate::effect::{Done, given, queue, show};
use crate::judged::{Run, Turn};
use crate::lend::lending::lend;
use crate::run::answers::exc_name;
use crate::run::changes::be_answered;
use crate::run::delivery::Delivery;
use do_base::{Exc, NodeId, Value};
use do_behave::{Answer, Handler};
use do_class::Packet;
use do_machine::{Effect, Item, Node};

impl<'a> Run<'a> {
    /// Removes the top invocation.
    fn pop(&self, node: &mut Node)
        requires { IsRunAt self.now node.old }
        ensures { node.new ≡ popped (run_of self.now) }
    {
        drop(node.stack.remove(0));
    }

    /// Removes the top invocation, and answers the one below it.
    fn answer_below(&self, node: &mut Node, answer: Answer)
        requires { IsRunAt self.now node.old }
        ensures { node.new ≡ with_stack
            (below_answered answer (run_of self.now).below) (run_of self.now).context.node }
    {
        self.pop(node);
        if !self.below.is_empty() {
            be_answered(node.stack.at_mut(0), answer);
        }
    }

    /// Removes the top invocation; a peer gets the message of its answer, and what that names of
    /// third nodes is lent.
    fn reply(&self, effect: &mut Effect, peer: NodeId, number: u64, packet: Packet) -> Done
        requires { IsBegun self.now effect.old }
        ensures { OnOk result (effect.new
            ≡ delivered (run_of self.now) (Delivery.Replies peer number packet)) }
    {
        self.pop(&mut effect.node);
        let done = lend(&mut effect.node, peer, &packet);
        let packet = given(packet, done)?;
        queue(effect, peer, Item::Reply { number, packet })
    }

    /// Removes the top invocation; a peer gets the exception that it ended with.
    fn raise(&self, effect: &mut Effect, peer: NodeId, number: u64, exc: Exc) -> Done
        requires { IsBegun self.now effect.old }
        ensures { OnOk result (effect.new
            ≡ delivered (run_of self.now) (Delivery.Raises peer number exc)) }
    {
        self.pop(&mut effect.node);
        queue(effect, peer, Item::Raised { number, exc })
    }

    /// What the delivery of an answer does.
    fn hand_over(&self, effect: &mut Effect, delivery: Delivery) -> Done
        requires { IsBegun self.now effect.old }
        ensures { OnOk result (effect.new ≡ delivered (run_of self.now) delivery) }
    {
        match delivery {
            Delivery::Shows { line } => {
                self.pop(&mut effect.node);
                show(effect, line)
            }
            Delivery::Answers { answer } => {
                self.answer_below(&mut effect.node, answer);
                Ok(())
            }
            Delivery::Replies {
                peer,
                number,
                packet,
            } => self.reply(effect, peer, number, packet),
            Delivery::Raises { peer, number, exc } => self.raise(effect, peer, number, exc),
            Delivery::Drops => {
                self.pop(&mut effect.node);
                Ok(())
            }
        }
    }

    /// The top invocation is popped, and its answer goes where it is waited for.
    pub(crate) fn deliver(&self, effect: &mut Effect, answer: Answer) -> Done
        requires { IsBegun self.now effect.old }
        ensures { OnOk result (effect.new
            ≡ delivery (run_of self.now) answer self.now.top.now.reason) }
    {
        let turn = Turn {
            basis: &self.context,
            top: self.top,
        };
        let delivery = turn.delivery(answer)?;
        self.hand_over(effect, delivery)
    }

    /// An exception goes to the handler of the invocation, which stays, or ends it.
    pub(crate) fn fails(&self, effect: &mut Effect, exc: Exc, handler: Option<Handler>) -> Done
        requires { IsBegun self.now effect.old }
        ensures { OnOk result (effect.new ≡ failing (run_of self.now) exc handler) }
    {
        match handler {
            None => self.deliver(effect, Answer::Raised(exc)),
            Some(handler) => {
                let name = exc_name(self.context.node.stack.allocator(), &exc)?;
                self.goes(effect, handler.into, Value::Text(name), handler.pc);
                Ok(())
            }
        }
    }
}
