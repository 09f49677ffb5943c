//! Items that say that something is over, for which no memory is taken.
ghost use Rattle.std.specs.Prelude.{◌≡◌, [], IfSome, IsOk, OnErr, OnOk, false, true};
ghost use Rattle.do_frames.specs.declared.frame.Frame.{Frame as Framed};
ghost use Rattle.do_machine.specs.{State.is_open, declared.item.Item.TheVariants.{End, Settled}};
ghost use Rattle.do_machine.specs.take.Lines.{item_line};
ghost use Rattle.do_network.specs.Own.{site_context};
ghost use Rattle.do_rules.specs.Ruling.{ruling as ruling_on};
ghost use Rattle.do_streams.specs.Reading.{AreKnown, IsReadBy, names_of};
ghost use Rattle.do_effects.specs.{Doing.doing, Paying.IsEnding};
ghost use Rattle.do_site.specs.{Kept.IsKept, Room.CanSettle};
ghost use Rattle.do_site.specs.Steps.{IsSame, IsTold, Makes, item_move, with_reading};

use crate::work::Work;
use do_base::{Items, NodeId, Shown, Took};
use do_class::ClassTable;
use do_coder::Recent;
use do_machine::Item;
use do_rules::Ruling;
use std::alloc::AllocError;

impl Work {
    /// What the ruling says on an item by which something is over is done.
    ///
    /// An error means that memory ran out, which it cannot where no line waits;
    /// nothing but room changed then.
    fn end_by(
        &mut self,
        table: &ClassTable,
        from: NodeId,
        item: &Item,
        line: Took,
        ruling: Ruling,
        names: Option<Recent>,
    ) -> Result<(), AllocError>
        requires kept { IsKept table.now self.old }
        requires places { CanSettle self.old }
        requires open { is_open self.old.core.part.own.node from ≡ true }
        requires over { IsEnding ruling }
        requires judged { ruling
            ≡ ruling_on (site_context table.now self.old.core.part.own) from item.now }
        requires line { line ≡ item_line from self.old.core.part.own.node.port item.now }
        requires known { IfSome names (λ ns. AreKnown self.old.core.streams.classes ns) }
        ensures ok { OnOk result ((f : Framed)
            → IsReadBy (names_of self.old.core.streams.links from) f names
            → Makes (with_reading from f (doing self.old.core)) self.new.core
            (item_move table.now from item.now self.old.core.part.own)) }
        ensures err { OnErr result (IsSame self.old.core self.new.core) }
        ensures kept { IsKept table.now self.new }
        ensures places { CanSettle self.new }
        ensures sure { IsTold self.old.core → IsOk result }
    {
        self.make_room_to_close()?;
        self.follow(table, from, item, Shown::Took(line), ruling, names)
    }

    /// A lend to a peer is over, as the peer says.
    pub(super) fn settled(
        &mut self,
        table: &ClassTable,
        from: NodeId,
        number: u64,
        names: Option<Recent>,
    ) -> Result<(), AllocError>
        requires kept { IsKept table.now self.old }
        requires places { CanSettle self.old }
        requires open { is_open self.old.core.part.own.node from ≡ true }
        requires known { IfSome names (λ ns. AreKnown self.old.core.streams.classes ns) }
        ensures ok { OnOk result ((f : Framed)
            → IsReadBy (names_of self.old.core.streams.links from) f names
            → Makes (with_reading from f (doing self.old.core)) self.new.core
            (item_move table.now from (Settled number) self.old.core.part.own)) }
        ensures err { OnErr result (IsSame self.old.core self.new.core) }
        ensures kept { IsKept table.now self.new }
        ensures places { CanSettle self.new }
        ensures sure { IsTold self.old.core → IsOk result }
    {
        let item = Item::Settled { number };
        let ruling = Ruling::EndsLend { number };
        self.end_by(table, from, &item, Took::Settled, ruling, names)
    }

    /// A peer closed its end.
    pub(super) fn shut(
        &mut self,
        table: &ClassTable,
        from: NodeId,
        names: Option<Recent>,
    ) -> Result<(), AllocError>
        requires kept { IsKept table.now self.old }
        requires places { CanSettle self.old }
        requires open { is_open self.old.core.part.own.node from ≡ true }
        requires known { IfSome names (λ ns. AreKnown self.old.core.streams.classes ns) }
        ensures ok { OnOk result ((f : Framed)
            → IsReadBy (names_of self.old.core.streams.links from) f names
            → Makes (with_reading from f (doing self.old.core)) self.new.core
            (item_move table.now from (End []) self.old.core.part.own)) }
        ensures err { OnErr result (IsSame self.old.core self.new.core) }
        ensures kept { IsKept table.now self.new }
        ensures places { CanSettle self.new }
        ensures sure { IsTold self.old.core → IsOk result }
    {
        let item = Item::End {
            serials: Items::new(self.core.part.allocator()),
        };
        self.end_by(table, from, &item, Took::End, Ruling::Closes, names)
    }
}
