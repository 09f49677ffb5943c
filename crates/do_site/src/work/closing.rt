//! Ends that close, and calls that are given up.
ghost use Rattle.std.specs.Prelude.{◌≡◌, ◌+◌, ◌≤◌, [], IfOk, IfSome, List, OnErr, OnOk, IsOk};
ghost use Rattle.std.specs.Prelude.{is_some, length, true};
ghost use Rattle.do_class.specs.Class.{Class};
ghost use Rattle.do_machine.specs.{State.is_open, ends.{Closing.closing, TimeOut.time_out}};
ghost use Rattle.do_machine.specs.{take.Take.take_effect, declared.item.Item.TheVariants.End};
ghost use Rattle.do_network.specs.Own.{site_context};
ghost use Rattle.do_effects.specs.Tidy.{IsTidy};
ghost use Rattle.do_site.specs.{Kept.{StaysBut, StaysKept}, Room.{CanSettle, HasPlaceToClose}};
ghost use Rattle.do_site.specs.Steps.{Does, IsSame, IsTold, Moves, close_effect, end_effect};

use crate::needs::Needs;
use crate::work::Work;
use do_base::{NodeId, Shown, Took};
use do_behave::InvState;
use do_part::Part;
use std::alloc::AllocError;

/// How many frames a close sends at most: the end, and for each ask that its lend is over. None
/// only where there are 2^64 or more.
fn closing_frames(part: &Part) -> Option<u64>
    ensures { IfSome result (λ n. length part.now.own.node.asked + 1 ≤ n) }
{
    part.asks().checked_add(1)
}

impl Work {
    /// Makes room for a close, and for one line more. Where no line waits there is room, and no
    /// memory is taken.
    pub(super) fn make_room_to_close(&mut self) -> Result<(), AllocError>
        requires { CanSettle self.old }
        ensures same { IsSame self.old.core self.new.core }
        ensures stays { StaysBut self.old self.new }
        ensures places { CanSettle self.new }
        ensures room { OnOk result (HasPlaceToClose self.new.core self.new.told) }
        ensures sure { IsTold self.old.core → IsOk result }
    {
        if self.core.streams.is_told() {
            return Ok(());
        }
        let Some(frames) = closing_frames(&self.core.part) else {
            return Err(AllocError);
        };
        let Some(waiting) = frames.checked_add(1) else {
            return Err(AllocError);
        };
        self.make_room(&Needs::to_tell(waiting))
    }

    /// Closes the end towards a peer, which is open, and leaves what then nothing holds.
    ///
    /// An error means that memory ran out, which it cannot where no line waits;
    /// nothing but room changed then.
    pub fn close(&mut self, peer: NodeId) -> Result<(), AllocError>
        requires tidy { IsTidy self.old.core.part.own }
        requires places { CanSettle self.old }
        requires open { is_open self.old.core.part.own.node peer ≡ true }
        ensures ok { OnOk result (Moves self.old.core self.new.core
            (closing peer self.old.core.part.own.node)) }
        ensures err { OnErr result (IsSame self.old.core self.new.core) }
        ensures kept { StaysKept self.old self.new }
        ensures places { CanSettle self.new }
        ensures sure { IsTold self.old.core → IsOk result }
    {
        self.make_room_to_close()?;
        self.core.close(peer, &mut self.told.settled);
        self.leave();
        Ok(())
    }

    /// The connection to a peer ended, whose end can be taken: that is shown, and the end towards
    /// the peer is closed.
    ///
    /// An error means that memory ran out; nothing but room changed then.
    pub fn end(&mut self, peer: NodeId) -> Result<(), AllocError>
        requires tidy { IsTidy self.old.core.part.own }
        requires places { CanSettle self.old }
        requires open { is_open self.old.core.part.own.node peer ≡ true }
        ensures ok { OnOk result ((table : List Class) → Moves self.old.core self.new.core
            (take_effect (site_context table self.old.core.part.own) peer (End []))) }
        ensures err { OnErr result (IsSame self.old.core self.new.core) }
        ensures kept { StaysKept self.old self.new }
        ensures places { CanSettle self.new }
        ensures sure { IsTold self.old.core → IsOk result }
    {
        self.make_room_to_close()?;
        self.core.streams.show(Shown::Took(Took::End));
        self.core.close(peer, &mut self.told.settled);
        self.leave();
        Ok(())
    }

    /// Whether the top invocation waits for an answer.
    fn top_waits(&self) -> bool
        ensures { result ≡ is_some (time_out self.now.core.part.own.node) }
    {
        match self.core.part.top() {
            Some(top) => matches!(&top.state, InvState::Waits { .. }),
            None => false,
        }
    }

    /// The top invocation waits no longer for its answer. False exactly where it does not wait, or
    /// there is none, and then nothing changes.
    ///
    /// An error means that memory ran out; nothing but room changed then.
    pub fn time_out(&mut self) -> Result<bool, AllocError>
        requires tidy { IsTidy self.old.core.part.own }
        requires places { CanSettle self.old }
        ensures done { IfOk result (λ told. Does self.old.core self.new.core told
            (time_out self.old.core.part.own.node)) }
        ensures err { OnErr result (IsSame self.old.core self.new.core) }
        ensures kept { StaysKept self.old self.new }
        ensures places { CanSettle self.new }
    {
        if !self.top_waits() {
            return Ok(false);
        }
        self.make_room(&Needs::to_push(0))?;
        self.core.part.abandon();
        self.has_few();
        self.leave();
        Ok(true)
    }

    /// Closes the end towards a peer, if it is open. False exactly where it is not, and then
    /// nothing changes.
    ///
    /// An error means that memory ran out; nothing but room changed then.
    pub(crate) fn close_if_open(&mut self, peer: NodeId) -> Result<bool, AllocError>
        requires tidy { IsTidy self.old.core.part.own }
        requires places { CanSettle self.old }
        ensures done { IfOk result (λ told. Does self.old.core self.new.core told
            (close_effect peer self.old.core.part.own.node)) }
        ensures err { OnErr result (IsSame self.old.core self.new.core) }
        ensures kept { StaysKept self.old self.new }
        ensures places { CanSettle self.new }
        ensures sure { IsTold self.old.core → IsOk result }
    {
        if !self.core.part.is_open(peer) {
            return Ok(false);
        }
        self.close(peer)?;
        Ok(true)
    }

    /// The connection to a peer ended, if its end can be taken. False exactly where it cannot, and
    /// then nothing changes.
    ///
    /// An error means that memory ran out; nothing but room changed then.
    pub(crate) fn end_if_taken(&mut self, peer: NodeId) -> Result<bool, AllocError>
        requires tidy { IsTidy self.old.core.part.own }
        requires places { CanSettle self.old }
        ensures done { IfOk result (λ told. (table : List Class)
            → Does self.old.core self.new.core told
            (end_effect table peer self.old.core.part.own)) }
        ensures err { OnErr result (IsSame self.old.core self.new.core) }
        ensures kept { StaysKept self.old self.new }
        ensures places { CanSettle self.new }
        ensures sure { IsTold self.old.core → IsOk result }
    {
        if !self.core.part.can_take(peer) {
            return Ok(false);
        }
        self.end(peer)?;
        Ok(true)
    }
}
