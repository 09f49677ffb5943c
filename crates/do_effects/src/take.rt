//! The ruling on an item that is taken, carried out.
mod receiving;

ghost use Rattle.std.specs.Prelude.{◌≡◌, ◌≤◌, ◌<◌, IsOk, OnOk, OnErr, false, length, true};
ghost use Rattle.std.specs.{Prelude.vec_capacity, List.list_any};
ghost use Rattle.do_effects.specs.{Doing.doing, Taking.{CanTake, ended_own, is_granted}};
ghost use Rattle.do_effects.specs.Taking.{on_message, takes, taking_needs};
ghost use Rattle.do_machine.specs.lend.Asking.{same_wanted};
ghost use Rattle.do_effects.specs.{Bounded.IsBounded, Paying.{IsEnding, Pays}, Tidy.IsTidy};

use crate::changing::Core;
use do_base::{Exc, NodeId, Shown, Token};
use do_behave::{Answer, Invocation, Reason};
use do_frames::Frame;
use do_machine::{Item, Wanted};
use do_packet::ObjList;
use do_part::Part;
use do_rules::{Answered, Ruling};
use std::alloc::AllocError;

/// Whether an item grants what was asked for.
fn is_granted(item: &Item) -> bool
    ensures { result ≡ is_granted item.now }
{
    matches!(item, Item::Granted { .. })
}

/// An ask is over: the object is held where it was granted.
fn end_ask(part: &mut Part, wanted: &Wanted, granted: bool)
    requires names { 0 < part.old.room.names }
    requires entries { 0 < part.old.room.entries }
    requires asked { granted ≡ true
        → list_any (same_wanted wanted.now) part.old.own.node.asked ≡ true }
    ensures { part.new.own ≡ ended_own granted wanted.now part.old.own }
{
    if granted {
        part.granted(wanted.object, wanted.token);
    } else {
        part.gone(wanted.object, wanted.token);
    }
}

impl Core {
    /// The method of a message begins.
    fn begins(
        &mut self,
        from: NodeId,
        item: &Item,
        line: Shown,
        copies: ObjList,
        invocation: Invocation,
    ) -> Result<(), AllocError>
        requires { CanTake from item.now (Ruling.Begins copies invocation) self.old }
        ensures ok { OnOk result (doing self.new
            ≡ takes from item.now line (Ruling.Begins copies invocation) (doing self.old)) }
        ensures err { OnErr result (doing self.new ≡ doing self.old) }
        ensures tidy { IsTidy self.new.part.own }
        ensures within { IsBounded (taking_needs self.old.part.own.node item.now
            (Ruling.Begins copies invocation)) self.old self.new }
    {
        self.gain(from, item, line, copies)?;
        self.part.push(invocation);
        Ok(())
    }

    /// A message is refused: a call goes back as an exception, and of a oneway message that is
    /// shown.
    fn refuses(
        &mut self,
        from: NodeId,
        item: &Item,
        line: Shown,
        copies: ObjList,
        reason: Reason,
        exc: Exc,
    ) -> Result<(), AllocError>
        requires { CanTake from item.now (Ruling.Refuses copies reason exc) self.old }
        ensures ok { OnOk result (doing self.new
            ≡ takes from item.now line (Ruling.Refuses copies reason exc) (doing self.old)) }
        ensures err { OnErr result (doing self.new ≡ doing self.old) }
        ensures tidy { IsTidy self.new.part.own }
        ensures within { IsBounded (taking_needs self.old.part.own.node item.now
            (Ruling.Refuses copies reason exc)) self.old self.new }
    {
        self.gain(from, item, line, copies)?;
        match reason {
            Reason::Call { peer, number } => {
                self.streams.post(peer, Frame::Raised { call: number, exc });
                Ok(())
            }
            _ => {
                self.streams.show(Shown::Raise(exc));
                Ok(())
            }
        }
    }

    /// The invocation that waits for a call has its answer, or a late call is over.
    fn answers(
        &mut self,
        from: NodeId,
        item: &Item,
        line: Shown,
        copies: ObjList,
        call: Answered,
        answer: Option<Answer>,
    ) -> Result<(), AllocError>
        requires { CanTake from item.now (Ruling.Answers copies call answer) self.old }
        ensures ok { OnOk result (doing self.new
            ≡ takes from item.now line (Ruling.Answers copies call answer) (doing self.old)) }
        ensures err { OnErr result (doing self.new ≡ doing self.old) }
        ensures tidy { IsTidy self.new.part.own }
        ensures within { IsBounded (taking_needs self.old.part.own.node item.now
            (Ruling.Answers copies call answer)) self.old self.new }
    {
        self.gain(from, item, line, copies)?;
        self.part.answer(call.peer, call.number, call.root, answer);
        Ok(())
    }

    /// The call that an item answers ended with an exception.
    fn raises(&mut self, from: NodeId, item: &Item, line: Shown, call: Answered, exc: Exc)
        requires { CanTake from item.now (Ruling.Raises call exc) self.old }
        ensures done { doing self.new
            ≡ takes from item.now line (Ruling.Raises call exc) (doing self.old) }
        ensures tidy { IsTidy self.new.part.own }
        ensures within { IsBounded (taking_needs self.old.part.own.node item.now
            (Ruling.Raises call exc)) self.old self.new }
    {
        self.streams.show(line);
        let answer = Some(Answer::Raised(exc));
        self.part.answer(call.peer, call.number, call.root, answer);
    }

    /// An item goes back.
    fn replies(&mut self, from: NodeId, item: &Item, line: Shown, answer: Item)
        requires { CanTake from item.now (Ruling.Replies answer) self.old }
        ensures done { doing self.new
            ≡ takes from item.now line (Ruling.Replies answer) (doing self.old) }
        ensures tidy { IsTidy self.new.part.own }
        ensures within { IsBounded (taking_needs self.old.part.own.node item.now
            (Ruling.Replies answer)) self.old self.new }
    {
        self.streams.show(line);
        self.send(from, answer);
    }

    /// An ask is over, and so is the lend: the object is held where it was granted.
    fn ends_ask(&mut self, from: NodeId, item: &Item, line: Shown, wanted: Wanted)
        requires { CanTake from item.now (Ruling.EndsAsk wanted) self.old }
        ensures done { doing self.new
            ≡ takes from item.now line (Ruling.EndsAsk wanted) (doing self.old) }
        ensures tidy { IsTidy self.new.part.own }
        ensures within { IsBounded (taking_needs self.old.part.own.node item.now
            (Ruling.EndsAsk wanted)) self.old self.new }
    {
        self.streams.show(line);
        end_ask(&mut self.part, &wanted, is_granted(item));
        self.settle(wanted.token);
    }

    /// A lend to a peer is over.
    fn ends_lend(&mut self, from: NodeId, item: &Item, line: Shown, number: u64)
        requires { CanTake from item.now (Ruling.EndsLend number) self.old }
        ensures done { doing self.new
            ≡ takes from item.now line (Ruling.EndsLend number) (doing self.old) }
        ensures tidy { IsTidy self.new.part.own }
        ensures within { IsBounded (taking_needs self.old.part.own.node item.now
            (Ruling.EndsLend number)) self.old self.new }
        ensures pays { Pays self.old self.new }
    {
        self.streams.show(line);
        self.part.settle(from, number);
    }

    /// Nothing more happens at the node.
    fn stays(&mut self, from: NodeId, item: &Item, line: Shown)
        requires { CanTake from item.now Ruling.Stays self.old }
        ensures done { doing self.new
            ≡ takes from item.now line Ruling.Stays (doing self.old) }
        ensures tidy { IsTidy self.new.part.own }
        ensures within { IsBounded (taking_needs self.old.part.own.node item.now Ruling.Stays)
            self.old self.new }
    {
        self.streams.show(line);
    }

    /// A peer closed its end, and the node closes its own.
    fn closes(&mut self, from: NodeId, item: &Item, line: Shown, settled: &mut Vec<Token>)
        requires can { CanTake from item.now Ruling.Closes self.old }
        requires settled { length self.old.part.own.node.asked ≤ vec_capacity settled.old }
        ensures done { doing self.new
            ≡ takes from item.now line Ruling.Closes (doing self.old) }
        ensures tidy { IsTidy self.new.part.own }
        ensures within { IsBounded (taking_needs self.old.part.own.node item.now Ruling.Closes)
            self.old self.new }
        ensures pays { Pays self.old self.new }
        ensures settled_room { vec_capacity settled.new ≡ vec_capacity settled.old }
    {
        self.streams.show(line);
        self.close(from, settled);
    }
}

impl Core {
    /// Carries out the ruling on an item that a peer sent, in room that was made before: the line
    /// of the item is shown, what it names is received, and then the ruling does what it does.
    ///
    /// If memory runs out, which it can only for what comes in a message, nothing changes.
    pub fn rule(
        &mut self,
        from: NodeId,
        item: &Item,
        line: Shown,
        ruling: Ruling,
        settled: &mut Vec<Token>,
    ) -> Result<(), AllocError>
        requires can { CanTake from item.now ruling self.old }
        requires settled { length self.old.part.own.node.asked ≤ vec_capacity settled.old }
        ensures ok { OnOk result
            (doing self.new ≡ takes from item.now line ruling (doing self.old)) }
        ensures err { OnErr result (doing self.new ≡ doing self.old) }
        ensures tidy { IsTidy self.new.part.own }
        ensures within { IsBounded (taking_needs self.old.part.own.node item.now ruling)
            self.old self.new }
        ensures settled_room { vec_capacity settled.new ≡ vec_capacity settled.old }
        ensures pays { IsEnding ruling → Pays self.old self.new }
        ensures sure { on_message ruling ≡ false → IsOk result }
    {
        match ruling {
            Ruling::Begins { copies, invocation } => {
                self.begins(from, item, line, copies, invocation)
            }
            Ruling::Refuses {
                copies,
                reason,
                exc,
            } => self.refuses(from, item, line, copies, reason, exc),
            Ruling::Answers {
                copies,
                call,
                answer,
            } => self.answers(from, item, line, copies, call, answer),
            Ruling::Raises { call, exc } => {
                self.raises(from, item, line, call, exc);
                Ok(())
            }
            Ruling::Replies { item: answer } => {
                self.replies(from, item, line, answer);
                Ok(())
            }
            Ruling::EndsAsk { wanted } => {
                self.ends_ask(from, item, line, wanted);
                Ok(())
            }
            Ruling::EndsLend { number } => {
                self.ends_lend(from, item, line, number);
                Ok(())
            }
            Ruling::Closes => {
                self.closes(from, item, line, settled);
                Ok(())
            }
            Ruling::Stays => {
                self.stays(from, item, line);
                Ok(())
            }
        }
    }
}
