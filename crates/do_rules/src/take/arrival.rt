//! What the ruling on an item does to the node that takes it.
ghost use Rattle.std.specs.Prelude.{◌≡◌, IfOk, OnOk};
ghost use Rattle.do_machine.specs.{Effect.only, take.Take.take_effect};
ghost use Rattle.do_rules.specs.{Doing.and_then, Judged.step_of, Ruling.ruled};

use crate::effect::{Done, given, queue, show, unchanged};
use crate::ends::closing::close;
use crate::judged::Context;
use crate::lend::asking::end_ask;
use crate::lend::lending::end_lend;
use crate::take::awaiting::{Answered, give_answer};
use crate::take::holding::hold;
use crate::take::judging::ruling;
use crate::take::lines::item_line;
use crate::take::messages::{gain, refuse};
use crate::take::ruling::Ruling;
use do_base::{Exc, NodeId, Shown};
use do_behave::{Answer, Invocation, Reason};
use do_machine::{Effect, Item};
use do_packet::ObjList;
use std::alloc::AllocError;

/// A message is received, and its method begins.
fn begins(
    effect: &mut Effect,
    from: NodeId,
    item: &Item,
    copies: &ObjList,
    invocation: Invocation,
) -> Done
    ensures { OnOk result (effect.new ≡ and_then effect.old
        (ruled from item.now (Ruling.Begins copies.now invocation))) }
{
    let invocation = given(invocation, gain(effect, from, item, copies))?;
    effect.node.stack.insert(0, invocation)
}

/// A message is received, and refused.
fn refuses(
    effect: &mut Effect,
    from: NodeId,
    item: &Item,
    copies: &ObjList,
    reason: Reason,
    exc: Exc,
) -> Done
    ensures { OnOk result (effect.new ≡ and_then effect.old
        (ruled from item.now (Ruling.Refuses copies.now reason exc))) }
{
    let exc = given(exc, gain(effect, from, item, copies))?;
    refuse(effect, exc, reason)
}

/// A message is received, and the invocation that waits for it has its answer.
fn answers(
    effect: &mut Effect,
    from: NodeId,
    item: &Item,
    copies: &ObjList,
    call: &Answered,
    answer: Option<Answer>,
) -> Done
    ensures { OnOk result (effect.new ≡ and_then effect.old
        (ruled from item.now (Ruling.Answers copies.now call.now answer))) }
{
    let answer = given(answer, gain(effect, from, item, copies))?;
    give_answer(&mut effect.node, call, answer);
    Ok(())
}

/// What the ruling on an item does.
fn carry_out(effect: &mut Effect, from: NodeId, item: &Item, ruling: Ruling) -> Done
    ensures { OnOk result (effect.new ≡ and_then effect.old (ruled from item.now ruling)) }
{
    match ruling {
        Ruling::Begins { copies, invocation } => begins(effect, from, item, &copies, invocation),
        Ruling::Refuses {
            copies,
            reason,
            exc,
        } => refuses(effect, from, item, &copies, reason, exc),
        Ruling::Answers {
            copies,
            call,
            answer,
        } => answers(effect, from, item, &copies, &call, answer),
        Ruling::Raises { call, exc } => {
            give_answer(&mut effect.node, &call, Some(Answer::Raised(exc)));
            Ok(())
        }
        Ruling::Replies { item } => queue(effect, from, item),
        Ruling::EndsAsk { wanted } => end_ask(effect, &wanted),
        Ruling::EndsLend { number } => {
            end_lend(&mut effect.node, from, number);
            Ok(())
        }
        Ruling::Closes => close(effect, from),
        Ruling::Stays => Ok(()),
    }
}

impl<'a> Context<'a> {
    /// The item is shown, the node holds what it exports, and then it does what it comes to.
    fn take(&self, effect: &mut Effect, from: NodeId, item: &Item) -> Done
        requires { effect.old ≡ only self.now.node.now }
        ensures { OnOk result (effect.new ≡ take_effect (step_of self.now) from item.now) }
    {
        let line = item_line(from, self.node.port, item)?;
        show(effect, Shown::Took(line))?;
        hold(&mut effect.node, from, item)?;
        let ruling = ruling(self, from, item)?;
        carry_out(effect, from, item, ruling)
    }

    /// The item is shown, the node holds what it exports, and then it does what it comes to.
    pub fn take_effect(&self, from: NodeId, item: &Item) -> Result<Effect, AllocError>
        ensures { IfOk result (λ e. e ≡ take_effect (step_of self.now) from item.now) }
    {
        let mut effect = unchanged(self.node)?;
        let done = self.take(&mut effect, from, item);
        given(effect, done)
    }
}
