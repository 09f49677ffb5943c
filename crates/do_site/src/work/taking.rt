//! Frames that are taken.
ghost use Rattle.std.specs.Prelude.{◌≡◌, ◌≢◌, ◌≤◌, IfErr, IfOk, IfSome, IsOk, OnErr, OnOk, None};
ghost use Rattle.std.specs.Prelude.{Some, false, true};
ghost use Rattle.do_frames.specs.declared.fault.RawFault.TheVariants.{Memory};
ghost use Rattle.do_frames.specs.{declared.frame.Frame.Frame as Framed, Frames.kind_of};
ghost use Rattle.do_frames.specs.Kinds.{kind_number, numbers_alone};
ghost use Rattle.do_machine.specs.{run.Run.Acting, State.is_open};
ghost use Rattle.do_network.specs.{Faults.peer_fault, Frames.read_frame, Links.having_read};
ghost use Rattle.do_network.specs.{Own.site_context, Site.{frame_input, frame_move, takes_frame}};
ghost use Rattle.do_machine.specs.take.Lines.{item_line};
ghost use Rattle.do_rules.specs.Ruling.{ruling as ruling_on};
ghost use Rattle.do_streams.specs.Reading.{AreKnown, IsReadBy, IsReading, names_of};
ghost use Rattle.do_effects.specs.{Doing.doing, Taking.{CanTake, on_message, taking_needs}};
ghost use Rattle.do_site.specs.{Kept.{IsKept, StaysBut}, Room.{CanSettle, HasPlaceToFollow}};
ghost use Rattle.do_site.specs.{Room.IsReadyToTake, Steps.{Handles, IsSame, IsTold, Makes}};
ghost use Rattle.do_site.specs.Steps.{item_move, part_of, seen_of, with_reading};

use crate::faults::peer_fault;
use crate::ground::judged_by;
use crate::items::item_of;
use crate::ruling::{copies_in, names_in, ruling_allowed};
use crate::work::Work;
use do_base::{NodeId, Shown};
use do_class::ClassTable;
use do_coder::Recent;
use do_frames::{Frame, RawFault, RawFrame};
use do_machine::Item;
use do_network::{Done, PeerFault};
use do_rules::{Ruling, item_line, ruling, rulings_are_arrivals};
use do_streams::Reading;
use std::alloc::AllocError;

impl Work {
    /// What the ruling on an item says is done, in room that was made before.
    ///
    /// An error means that memory ran out, which it can only for what comes in a message; nothing
    /// but room changed then.
    pub(super) fn follow(
        &mut self,
        table: &ClassTable,
        from: NodeId,
        item: &Item,
        line: Shown,
        ruling: Ruling,
        names: Option<Recent>,
    ) -> Result<(), AllocError>
        requires kept { IsKept table.now self.old }
        requires places { CanSettle self.old }
        requires can { CanTake from item.now ruling self.old.core }
        requires place { HasPlaceToFollow ruling
            (taking_needs self.old.core.part.own.node item.now ruling)
            self.old.core self.old.told }
        requires judged { ruling
            ≡ ruling_on (site_context table.now self.old.core.part.own) from item.now }
        requires line { line
            ≡ Shown.Took (item_line from self.old.core.part.own.node.port item.now) }
        requires known { IfSome names (λ ns. AreKnown self.old.core.streams.classes ns) }
        ensures ok { OnOk result ((f : Framed)
            → IsReadBy (names_of self.old.core.streams.links from) f names
            → Makes (with_reading from f (doing self.old.core)) self.new.core
            (item_move table.now from item.now self.old.core.part.own)) }
        ensures err { OnErr result (IsSame self.old.core self.new.core) }
        ensures kept { IsKept table.now self.new }
        ensures places { CanSettle self.new }
        ensures sure { on_message ruling ≡ false → IsOk result }
    {
        rulings_are_arrivals();
        let ruled = self
            .core
            .rule(from, item, line, ruling, &mut self.told.settled);
        self.has_few();
        ruled?;
        self.core.streams.keep_read(from, names);
        self.leave();
        Ok(())
    }

    /// What the rules say of an item of a peer.
    fn judged(&self, table: &ClassTable, from: NodeId, item: &Item) -> Result<Ruling, AllocError>
        ensures { IfOk result (λ r. r
            ≡ ruling_on (site_context table.now self.now.core.part.own) from item.now) }
    {
        let ground = judged_by(table, &self.core.part);
        ruling(&ground, from, item)
    }

    /// Makes room to do what the ruling on an item of a peer says, and tells the line that shows
    /// the item.
    ///
    /// An error means that memory ran out, or that a number would pass what a node can count;
    /// nothing but room changed then.
    fn make_room_to_take(
        &mut self,
        from: NodeId,
        item: &Item,
        ruling: &Ruling,
    ) -> Result<Shown, AllocError>
        ensures same { IsSame self.old.core self.new.core }
        ensures stays { StaysBut self.old self.new }
        ensures places { CanSettle self.old → CanSettle self.new }
        ensures line { IfOk result (λ line. line
            ≡ Shown.Took (item_line from self.old.core.part.own.node.port item.now)) }
        ensures ready { OnOk result
            (IsReadyToTake from item.now ruling.now self.new.core self.new.told) }
    {
        let Some(needs) = ruling_allowed(&self.core.part, from, item, ruling) else {
            return Err(AllocError);
        };
        self.make_room(&needs)?;
        let line = item_line(from, self.core.part.port(), item)?;
        Ok(Shown::Took(line))
    }

    /// An item of a peer is judged and taken.
    fn take_item(
        &mut self,
        table: &ClassTable,
        from: NodeId,
        item: &Item,
        names: Option<Recent>,
    ) -> Result<(), AllocError>
        requires kept { IsKept table.now self.old }
        requires places { CanSettle self.old }
        requires open { is_open self.old.core.part.own.node from ≡ true }
        requires known { IfSome names (λ ns. AreKnown self.old.core.streams.classes ns) }
        ensures ok { OnOk result ((f : Framed)
            → IsReadBy (names_of self.old.core.streams.links from) f names
            → Makes (with_reading from f (doing self.old.core)) self.new.core
            (item_move table.now from item.now self.old.core.part.own)) }
        ensures err { OnErr result (IsSame self.old.core self.new.core) }
        ensures kept { IsKept table.now self.new }
        ensures places { CanSettle self.new }
    {
        let Ok(ruling) = self.judged(table, from, item) else {
            return Err(AllocError);
        };
        let Ok(line) = self.make_room_to_take(from, item, &ruling) else {
            drop(ruling);
            return Err(AllocError);
        };
        self.follow(table, from, item, line, ruling, names)
    }

    /// A frame that its peer may send is taken.
    ///
    /// An error means that memory ran out, which it cannot for a frame of kind 10 or more where no
    /// line waits; nothing but room changed then.
    fn take_allowed(
        &mut self,
        table: &ClassTable,
        from: NodeId,
        frame: Frame,
        names: Option<Recent>,
    ) -> Result<(), AllocError>
        requires kept { IsKept table.now self.old }
        requires places { CanSettle self.old }
        requires open { is_open self.old.core.part.own.node from ≡ true }
        requires read { IsReadBy (names_of self.old.core.streams.links from) frame names }
        requires known { IfSome names (λ ns. AreKnown self.old.core.streams.classes ns) }
        requires may { peer_fault self.old.core.part.own from frame ≡ None }
        ensures ok { OnOk result (Makes (with_reading from frame (doing self.old.core))
            self.new.core (frame_move table.now from frame self.old.core.part.own)) }
        ensures err { OnErr result (IsSame self.old.core self.new.core) }
        ensures kept { IsKept table.now self.new }
        ensures places { CanSettle self.new }
        ensures sure { 10 ≤ kind_number (kind_of frame) → IsTold self.old.core → IsOk result }
    {
        match frame {
            Frame::Release { serial, amount } => self.release(from, serial, amount, names),
            Frame::Settle { number } => self.settled(table, from, number, names),
            Frame::Shutdown => self.shut(table, from, names),
            frame => {
                let item = item_of(self.core.part.allocator(), frame);
                self.take_item(table, from, &item, names)
            }
        }
    }

    /// A frame that was read is taken, unless its peer may not send it.
    fn take_frame(
        &mut self,
        table: &ClassTable,
        from: NodeId,
        reading: Reading,
    ) -> Result<Done, AllocError>
        requires kept { IsKept table.now self.old }
        requires places { CanSettle self.old }
        requires open { is_open self.old.core.part.own.node from ≡ true }
        requires read { IsReadBy (names_of self.old.core.streams.links from) reading.frame
            reading.names }
        requires known { IfSome reading.names (λ ns.
            AreKnown self.old.core.streams.classes ns) }
        ensures done { (act : Acting) → Handles (seen_of table.now act self.old.core)
            (seen_of table.now act self.new.core) result
            (Some (takes_frame table.now
            (having_read from reading.frame (part_of self.old.core)) from reading.frame
            (peer_fault self.old.core.part.own from reading.frame))) }
        ensures kept { IsKept table.now self.new }
        ensures places { CanSettle self.new }
        ensures sure { 10 ≤ kind_number (kind_of reading.frame) → IsTold self.old.core
            → IsOk result }
    {
        let Reading { frame, names } = reading;
        if let Some(fault) = peer_fault(&self.core.part, from, &frame) {
            self.refuse(from, names)?;
            return Ok(Done::Closed(from, fault));
        }
        self.take_allowed(table, from, frame, names)?;
        Ok(Done::Moved)
    }

    /// Reads a frame of a peer by the names that its frames named lately. Nothing changes.
    fn read(
        &mut self,
        table: &ClassTable,
        from: NodeId,
        raw: &RawFrame,
    ) -> Result<Reading, RawFault>
        requires kept { IsKept table.now self.old }
        ensures read { IsReading (names_of self.old.core.streams.links from)
            (read_frame table.now from self.old.core.part.own.node.port
            (names_of self.old.core.streams.links from) raw.now) result }
        ensures known { IfOk result (λ r. IfSome r.names (λ ns.
            AreKnown self.old.core.streams.classes ns)) }
        ensures kind { IfOk result (λ r. kind_number (kind_of r.frame) ≡ raw.now.kind) }
        ensures no_memory { numbers_alone raw.now.kind ≡ true
            → IfErr result (λ fault. fault ≢ Memory) }
        ensures same { self.new ≡ self.old }
    {
        let port = self.core.part.port();
        self.core.streams.read(table, from, port, raw)
    }

    /// The next frame of a peer is taken, where the node can take one.
    ///
    /// An error means that memory ran out, which it cannot for a frame of kind 10 or more where no
    /// line waits; nothing but room changed then.
    pub fn take(
        &mut self,
        table: &ClassTable,
        from: NodeId,
        raw: &RawFrame,
    ) -> Result<Done, AllocError>
        requires kept { IsKept table.now self.old }
        requires places { CanSettle self.old }
        ensures done { (act : Acting) → Handles (seen_of table.now act self.old.core)
            (seen_of table.now act self.new.core) result
            (frame_input table.now (part_of self.old.core) from raw.now) }
        ensures kept { IsKept table.now self.new }
        ensures places { CanSettle self.new }
        ensures sure { 10 ≤ raw.now.kind → IsTold self.old.core → IsOk result }
    {
        if !self.core.part.can_take(from) {
            return Ok(Done::Skipped);
        }
        match self.read(table, from, raw) {
            Ok(reading) => self.take_frame(table, from, reading),
            Err(RawFault::BadFrame(place)) => {
                self.close(from)?;
                Ok(Done::Closed(from, PeerFault::BadFrame(place)))
            }
            Err(RawFault::Memory) => Err(AllocError),
        }
    }
}
