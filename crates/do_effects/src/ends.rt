//! An end that closes, and what a node leaves after a step.
ghost use Rattle.std.specs.Prelude.{◌≡◌, ◌≤◌, ◌+◌, ◌++◌, fold, length, map, true, vec_capacity};
ghost use Rattle.do_leaving.specs.Left.{free_shown};
ghost use Rattle.do_machine.specs.{State.is_open, ends.Closing.{closing, parted}};
ghost use Rattle.do_network.specs.Links.{sending};
ghost use Rattle.do_part.specs.Left.{given_up};
ghost use Rattle.do_streams.specs.Streamed.{outbox};
ghost use Rattle.do_effects.specs.{Bounded.HasNoMore, Settled.settle_posts};
ghost use Rattle.do_effects.specs.{Doing.{cleared, doing, does, moved}, Paying.Pays, Tidy.IsTidy};

use crate::changing::Core;
use do_base::{NodeId, Oid, Shown, Token};
use do_frames::Frame;

impl Core {
    /// Tells the lenders of what was asked for that their lends are over, over the ends that are
    /// open.
    fn settle_all(&mut self, settled: &[Token])
        requires tidy { IsTidy self.old.part.own }
        requires room { length settled.now ≤ self.old.streams.room }
        ensures out { outbox self.new.streams ≡ fold sending (outbox self.old.streams)
            (settle_posts self.old.part.own.node settled.now) }
        ensures part { self.new.part ≡ self.old.part }
        ensures shown { self.new.streams.shown ≡ self.old.streams.shown }
        ensures room { self.old.streams.room ≤ self.new.streams.room + length settled.now }
        ensures bare { self.old.streams.bare ≤ self.new.streams.bare + length settled.now }
        ensures classes { self.new.streams.classes ≡ self.old.streams.classes }
    {
        for token in settled {
            self.settle(*token);
        }
    }

    /// Closes the end towards a peer, which is told, and settles what was lent of its objects, in
    /// room that was made before. What the list had is dropped.
    pub fn close(&mut self, peer: NodeId, settled: &mut Vec<Token>)
        requires tidy { IsTidy self.old.part.own }
        requires open { is_open self.old.part.own.node peer ≡ true }
        requires settled { length self.old.part.own.node.asked ≤ vec_capacity settled.old }
        requires room { length self.old.part.own.node.asked + 1 ≤ self.old.streams.room }
        ensures closed { doing self.new
            ≡ does (doing self.old) (closing peer self.old.part.own.node) }
        ensures node { self.new.part.own.node ≡ parted peer self.old.part.own.node }
        ensures tidy { IsTidy self.new.part.own }
        ensures room { self.old.streams.room
            ≤ self.new.streams.room + (length self.old.part.own.node.asked + 1) }
        ensures pays { Pays self.old self.new }
        ensures classes { self.new.streams.classes ≡ self.old.streams.classes }
        ensures settled_room { vec_capacity settled.new ≡ vec_capacity settled.old }
    {
        settled.clear();
        self.part.close(peer, settled);
        self.streams.post(peer, Frame::Shutdown);
        self.settle_all(settled.as_slice());
    }

    /// Shows that own objects were freed.
    fn show_freed(&mut self, freed: &[u64])
        requires { length freed.now ≤ self.old.streams.room }
        ensures part { self.new.part ≡ self.old.part }
        ensures shown { self.new.streams.shown
            ≡ self.old.streams.shown ++ free_shown self.old.part.own.node freed.now }
        ensures out { outbox self.new.streams ≡ outbox self.old.streams }
        ensures room { self.old.streams.room ≤ self.new.streams.room + length freed.now }
        ensures bare { self.new.streams.bare ≡ self.old.streams.bare }
        ensures classes { self.new.streams.classes ≡ self.old.streams.classes }
    {
        let node = self.part.port();
        for freed_serial in freed {
            let serial = *freed_serial;
            self.streams.show(Shown::Free(Oid { node, serial }));
        }
    }

    /// Gives foreign objects back, each with the number of times that it was received.
    fn give_back_all(&mut self, left: &[(Oid, u64)])
        requires { length left.now ≤ self.old.streams.room }
        ensures part { self.new.part ≡ self.old.part }
        ensures out { outbox self.new.streams
            ≡ fold sending (outbox self.old.streams) (map given_up left.now) }
        ensures shown { self.new.streams.shown ≡ self.old.streams.shown }
        ensures bare { self.old.streams.bare ≤ self.new.streams.bare + length left.now }
        ensures classes { self.new.streams.classes ≡ self.old.streams.classes }
    {
        for one in left {
            let (oid, amount) = *one;
            let serial = oid.serial;
            let frame = Frame::Release { serial, amount };
            self.streams.post(oid.node, frame);
        }
    }

    /// Frees what nothing holds any more, which is shown, and gives back what the node no longer
    /// refers to, each with the number of times that it was received, in room that was made before.
    pub fn leave(&mut self, freed: &mut Vec<u64>, left: &mut Vec<(Oid, u64)>)
        requires freed { length self.old.part.own.node.heap ≤ vec_capacity freed.old }
        requires left { length self.old.part.own.node.held ≤ vec_capacity left.old }
        requires room { length self.old.part.own.node.heap + length self.old.part.own.node.held
            ≤ self.old.streams.room }
        ensures moved { doing self.new ≡ moved (doing self.old) (cleared self.old.part.own) }
        ensures tidy { IsTidy self.new.part.own }
        ensures classes { self.new.streams.classes ≡ self.old.streams.classes }
        ensures fewer { HasNoMore self.old.part.own.node self.new.part.own.node }
        ensures pays { Pays self.old self.new }
        ensures freed_room { vec_capacity freed.new ≡ vec_capacity freed.old }
        ensures left_room { vec_capacity left.new ≡ vec_capacity left.old }
    {
        self.part.leave(freed, left);
        self.show_freed(freed.as_slice());
        self.give_back_all(left.as_slice());
    }
}
