//! Frames that a peer may not send, and names that it gives back.
ghost use Rattle.std.specs.Prelude.{◌≡◌, ◌≤◌, IfSome, IsOk, List, OnErr, OnOk, true};
ghost use Rattle.do_class.specs.Class.{Class};
ghost use Rattle.do_export.specs.Counts.{count_of};
ghost use Rattle.do_frames.specs.declared.frame.Frame.{Frame as Framed};
ghost use Rattle.do_machine.specs.{State.is_open, ends.Closing.closing};
ghost use Rattle.do_network.specs.{Counting.given_back, Site.{frame_move, site_move}};
ghost use Rattle.do_streams.specs.Reading.{AreKnown, IsReadBy, names_of};
ghost use Rattle.do_effects.specs.{Doing.doing, Tidy.IsTidy};
ghost use Rattle.do_site.specs.{Kept.StaysKept, Room.CanSettle};
ghost use Rattle.do_site.specs.Steps.{IsSame, IsTold, Makes, with_reading};

use crate::work::Work;
use do_base::{NodeId, Oid, Shown, Took};
use do_coder::Recent;
use do_part::Part;
use std::alloc::AllocError;

/// A peer gives names of an own object back, no more than it was sent.
fn give_back(part: &mut Part, from: NodeId, serial: u64, amount: u64)
    requires open { is_open part.old.own.node from ≡ true }
    requires few { amount ≤ count_of part.old.own.counts from serial }
    ensures { part.new.own ≡ given_back from serial amount part.old.own }
{
    if amount == 0 {
        let _entered = part.has_entry(from, serial);
        return;
    }
    let Ok(_left) = part.give_back(from, serial, amount) else {
        unreachable!();
    };
}

impl Work {
    /// The end towards a peer is closed that may not send a frame which was read by these names.
    /// Nothing is shown of the frame.
    pub(super) fn refuse(&mut self, from: NodeId, names: Option<Recent>) -> Result<(), AllocError>
        requires tidy { IsTidy self.old.core.part.own }
        requires places { CanSettle self.old }
        requires open { is_open self.old.core.part.own.node from ≡ true }
        requires known { IfSome names (λ ns. AreKnown self.old.core.streams.classes ns) }
        ensures ok { OnOk result ((f : Framed)
            → IsReadBy (names_of self.old.core.streams.links from) f names
            → Makes (with_reading from f (doing self.old.core)) self.new.core
            (site_move self.old.core.part.own (closing from self.old.core.part.own.node))) }
        ensures err { OnErr result (IsSame self.old.core self.new.core) }
        ensures kept { StaysKept self.old self.new }
        ensures places { CanSettle self.new }
        ensures sure { IsTold self.old.core → IsOk result }
    {
        self.make_room_to_close()?;
        self.core.streams.keep_read(from, names);
        self.core.close(from, &mut self.told.settled);
        self.leave();
        Ok(())
    }

    /// A peer gives names of an own object back, no more than it was sent.
    pub(super) fn release(
        &mut self,
        from: NodeId,
        serial: u64,
        amount: u64,
        names: Option<Recent>,
    ) -> Result<(), AllocError>
        requires tidy { IsTidy self.old.core.part.own }
        requires places { CanSettle self.old }
        requires open { is_open self.old.core.part.own.node from ≡ true }
        requires known { IfSome names (λ ns. AreKnown self.old.core.streams.classes ns) }
        requires few { amount ≤ count_of self.old.core.part.own.counts from serial }
        ensures ok { OnOk result ((table : List Class) (f : Framed)
            → IsReadBy (names_of self.old.core.streams.links from) f names
            → f ≡ Framed.Release serial amount
            → Makes (with_reading from f (doing self.old.core)) self.new.core
            (frame_move table from f self.old.core.part.own)) }
        ensures err { OnErr result (IsSame self.old.core self.new.core) }
        ensures kept { StaysKept self.old self.new }
        ensures places { CanSettle self.new }
        ensures sure { IsTold self.old.core → IsOk result }
    {
        self.make_room_to_close()?;
        let node = self.core.part.port();
        self.core.streams.keep_read(from, names);
        give_back(&mut self.core.part, from, serial, amount);
        let object = Oid { node, serial };
        self.core.streams.show(Shown::Took(Took::Left(object)));
        self.leave();
        Ok(())
    }
}
