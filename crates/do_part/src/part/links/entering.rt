//! Entries: the own objects that peers may use.
ghost use Rattle.std.specs.FinMap as map;
ghost use Rattle.std.specs.Prelude.{◌≡◌, ◌+◌, ◌<◌, ◌≤◌, true, IsSome, Some, None, MatchResult};
ghost use Rattle.std.specs.Prelude.{if◌then◌else◌};
ghost use Rattle.do_export.specs.Counts.{count_of, raised, lowered};
ghost use Rattle.do_machine.specs.State.{is_open, stored};

use crate::part::Part;
use crate::tally::Tally;
use do_base::NodeId;
use do_export::OverRelease;

/// A serial, where it counts.
fn serial_if(counts: bool, serial: u64) -> Option<u64>
    ensures { result ≡ (if counts then Some serial else None) }
{
    if counts {
        return Some(serial);
    }
    None
}

impl Part {
    /// Names a stored object to a peer once more, in room that was made before.
    pub fn name(&mut self, peer: NodeId, serial: u64)
        requires open { is_open self.old.own.node peer ≡ true }
        requires stored { IsSome (stored serial self.old.own.node.heap) }
        requires names { 0 < self.old.room.names }
        requires room { 0 < self.old.room.entries }
        ensures own { self.new.own
            ≡ record self.old.own { counts = raised self.old.own.counts peer serial } }
        ensures objects { self.new.room.objects ≡ self.old.room.objects }
        ensures invocations { self.new.room.invocations ≡ self.old.room.invocations }
        ensures names { self.old.room.names ≤ self.new.room.names + 1 }
        ensures entries { self.old.room.entries ≤ self.new.room.entries + 1 }
    {
        let known = self.exports.has(peer, serial);
        self.holders.come_once(serial_if(!known, serial));
        self.exports.name(peer, serial);
    }

    /// Takes off what a peer gave back, and tells what is left. At 0 the entry is gone.
    ///
    /// It is refused exactly where the peer gives back more names than it was sent, and then
    /// nothing changes.
    pub fn give_back(&mut self, peer: NodeId, serial: u64, n: u64) -> Result<u64, OverRelease>
        requires open { is_open self.old.own.node peer ≡ true }
        requires some { 0 < n }
        ensures which { MatchResult result
            (λ left. (left + n ≡ count_of self.old.own.counts peer serial)
            × (self.new.own
            ≡ record self.old.own { counts = lowered self.old.own.counts peer serial n }))
            (λ over. (over.had < n) × (over.had ≡ count_of self.old.own.counts peer serial)
            × (over.asked ≡ n) × (self.new.own ≡ self.old.own)) }
        ensures objects { self.new.room.objects ≡ self.old.room.objects }
        ensures invocations { self.new.room.invocations ≡ self.old.room.invocations }
        ensures names { self.old.room.names ≤ self.new.room.names }
        ensures entries { self.old.room.entries ≤ self.new.room.entries }
    {
        let left = self.exports.give_back(peer, serial, n)?;
        self.holders
            .tally_root(Tally::Less, serial_if(left == 0, serial));
        Ok(left)
    }

    /// Takes out an entry, at any count.
    pub fn forget(&mut self, peer: NodeId, serial: u64)
        requires { is_open self.old.own.node peer ≡ true }
        ensures own { self.new.own ≡ record self.old.own {
          counts = map.remove self.old.own.counts (peer, serial);
        } }
        ensures objects { self.new.room.objects ≡ self.old.room.objects }
        ensures invocations { self.new.room.invocations ≡ self.old.room.invocations }
        ensures names { self.old.room.names ≤ self.new.room.names }
        ensures entries { self.old.room.entries ≤ self.new.room.entries }
    {
        let known = self.exports.has(peer, serial);
        self.exports.forget(peer, serial);
        self.holders
            .tally_root(Tally::Less, serial_if(known, serial));
    }
}
