//! The end of a peer: all that a part has with it.
//!
//! A peer's end takes its entries out one by one. Each costs the logarithm of their number, and
//! all that a part promises holds after each; no list of them is built.
ghost use Rattle.std.specs.FinMap as map;
ghost use Rattle.std.specs.Prelude.{◌≡◌, ◌≤◌, ◌+◌, ◌++◌, ◌∷◌, [], ◌==◌, not, true, filter, length};
ghost use Rattle.std.specs.Prelude.{ℕ, vec_len, map as each, MatchOption, vec_capacity};
ghost use Rattle.do_export.specs.Counts.{others_of, HasNoneFrom, IsLowestFrom};
ghost use Rattle.do_machine.specs.{Effect.only, State.is_open, declared.node.Wanted.Wanted};
ghost use Rattle.do_machine.specs.{ends.Closing.{asked_of, parted}, lend.Asking.without_wanted};
ghost use Rattle.do_network.specs.Counting.{counted, of_known};
ghost use Rattle.do_part.specs.{Rooting.held_of, Parting.{without_asks, without_links}};

use crate::part::Part;
use do_base::{NodeId, Token};

impl Part {
    /// Ends all that the part has with a peer, whose end is open, and closes the end.
    ///
    /// Objects received from the peer, lends to it, asks of its objects, entries of own objects
    /// and late calls to it are forgotten, and who waits for it is answered with the connection's
    /// death. The tokens of the asks that are over are added to `settled`, which is empty and has
    /// room for all asks; no memory is taken.
    pub fn close(&mut self, peer: NodeId, settled: &mut Vec<Token>)
        requires ends { is_open self.old.own.node peer ≡ true }
        requires none { settled.old.items ≡ [] }
        requires room { length self.old.own.node.asked ≤ vec_capacity settled.old }
        ensures own { self.new.own
            ≡ counted self.old.own (only (parted peer self.old.own.node)) }
        ensures settled { settled.new.items
            ≡ each (λ w. w.token) (asked_of peer self.old.own.node) }
        ensures capacity { vec_capacity settled.new ≡ vec_capacity settled.old }
        ensures objects { self.new.room.objects ≡ self.old.room.objects }
        ensures names { self.old.room.names ≤ self.new.room.names }
        ensures entries { self.old.room.entries ≤ self.new.room.entries }
    {
        self.ends_are_open();
        self.end_entries(peer);
        self.end_asks(peer, settled);
        self.end_links(peer);
        self.fail_peer(peer);
        self.close_end(peer);
    }

    /// The end of each entry is open, and just what was received is held.
    fn ends_are_open(&self)
        ensures ends { (k : ℕ × ℕ) → map.contains_key self.now.own.counts k ≡ true
            → is_open self.now.own.node k.0 ≡ true }
        ensures held { self.now.own.node.held ≡ held_of self.now.own.received }
    {
        let _node = self.holders.node;
    }

    /// The serial of a peer's first entry. None exactly where it has none.
    fn first_entry(&self, peer: NodeId) -> Option<u64>
        ensures { MatchOption result (HasNoneFrom self.now.own.counts peer 0)
            (IsLowestFrom self.now.own.counts peer 0) }
    {
        self.exports.next_entry(peer, 0)
    }

    /// Takes out all entries of a peer.
    fn end_entries(&mut self, peer: NodeId)
        requires { is_open self.old.own.node peer ≡ true }
        ensures own { self.new.own
            ≡ record self.old.own { counts = others_of self.old.own.counts peer } }
        ensures objects { self.new.room.objects ≡ self.old.room.objects }
        ensures invocations { self.new.room.invocations ≡ self.old.room.invocations }
        ensures names { self.old.room.names ≤ self.new.room.names }
        ensures entries { self.old.room.entries ≤ self.new.room.entries }
    {
        while let Some(serial) = self.first_entry(peer) {
            self.forget(peer, serial);
        }
    }

    /// Ends the first ask of a peer's objects, and tells its token. None exactly where there is
    /// none.
    fn end_ask(&mut self, peer: NodeId) -> Option<Token>
        ensures which { MatchOption result
            ((asked_of peer self.old.own.node ≡ []) × (self.new.own ≡ self.old.own))
            (λ token. (w : Wanted) × (w.token ≡ token)
            × (asked_of peer self.old.own.node ≡ w ∷ asked_of peer self.new.own.node)
            × (self.new.own ≡ record self.old.own {
              node = without_wanted w self.old.own.node;
              classes = of_known (without_wanted w self.old.own.node) self.old.own.classes;
            })) }
        ensures objects { self.new.room.objects ≡ self.old.room.objects }
        ensures invocations { self.new.room.invocations ≡ self.old.room.invocations }
        ensures names { self.old.room.names ≤ self.new.room.names }
        ensures entries { self.old.room.entries ≤ self.new.room.entries }
    {
        self.holders.imports.counts_are_tied();
        let Some(ask) = self.holders.imports.ended_ask(peer) else {
            return None;
        };
        self.holders.imports.counts_are_tied();
        Some(ask.1)
    }

    /// Ends all asks of a peer's objects, and adds their tokens to a list that has room for them.
    fn end_asks(&mut self, peer: NodeId, settled: &mut Vec<Token>)
        requires { vec_len settled.old + length (asked_of peer self.old.own.node)
            ≤ vec_capacity settled.old }
        ensures own { self.new.own ≡ record self.old.own {
          node = without_asks peer self.old.own.node;
          classes = of_known (without_asks peer self.old.own.node) self.old.own.classes;
        } }
        ensures settled { settled.new.items ≡ settled.old.items
            ++ each (λ w. w.token) (asked_of peer self.old.own.node) }
        ensures capacity { vec_capacity settled.new ≡ vec_capacity settled.old }
        ensures objects { self.new.room.objects ≡ self.old.room.objects }
        ensures invocations { self.new.room.invocations ≡ self.old.room.invocations }
        ensures names { self.old.room.names ≤ self.new.room.names }
        ensures entries { self.old.room.entries ≤ self.new.room.entries }
    {
        while let Some(token) = self.end_ask(peer) {
            settled.push_reserved(token);
        }
        self.classes_are_known();
    }

    /// Forgets what was received of a peer, and ends all lends to it.
    fn end_links(&mut self, peer: NodeId)
        ensures own { self.new.own ≡ record self.old.own {
          node = without_links peer self.old.own.node;
          received = others_of self.old.own.received peer;
          classes = of_known (without_links peer self.old.own.node) self.old.own.classes;
        } }
        ensures objects { self.new.room.objects ≡ self.old.room.objects }
        ensures invocations { self.new.room.invocations ≡ self.old.room.invocations }
        ensures names { self.old.room.names ≤ self.new.room.names }
        ensures entries { self.old.room.entries ≤ self.new.room.entries }
    {
        self.holders.imports.counts_are_tied();
        self.holders.imports.end_peer(peer);
        self.holders.imports.counts_are_tied();
    }

    /// Closes the end towards a peer, which has no entry.
    fn close_end(&mut self, peer: NodeId)
        requires { HasNoneFrom self.old.own.counts peer 0 }
        ensures own { self.new.own ≡ record self.old.own {
          node = record self.old.own.node {
            open_to = filter (λ p. not (p == peer)) self.old.own.node.open_to;
          };
        } }
        ensures room { self.new.room ≡ self.old.room }
    {
        let place = self.ends.place(peer);
        if let Some(at) = place {
            self.ends.remove(at);
        }
    }
}
