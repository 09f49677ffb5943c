//! A peer whose end closes.
ghost use Rattle.std.specs.FinMap as map;
ghost use Rattle.std.specs.Prelude.{◌≡◌, ◌≤◌};
ghost use Rattle.do_export.specs.Counts.{others_of};
ghost use Rattle.do_import.specs.{ByObject.home_ended, Imported.{all_off, lent_to}};

use super::Imports;
use crate::by_object::ByObject;
use crate::holdings::Holdings;
use crate::lends::Lends;
use do_base::NodeId;

/// Takes the uses and names off that the lends to a borrower were.
fn take_lends_off(holdings: &mut Holdings, named: &mut ByObject<u64>, lends: &Lends, borrower: u16)
    ensures received { holdings.new.received ≡ holdings.old.received }
    ensures uses { holdings.new.uses
        ≡ all_off holdings.old.uses (lent_to borrower (map.entries lends.now.lends)) }
    ensures spare { holdings.old.spare ≤ holdings.new.spare }
    ensures places { holdings.new.places ≡ holdings.old.places }
    ensures named { named.new.rows
        ≡ all_off named.old.rows (lent_to borrower (map.entries lends.now.lends)) }
    ensures room { named.old.spare ≤ named.new.spare }
{
    for at in 0..lends.len() {
        let Some(row) = lends.row(at) else {
            unreachable!();
        };
        if row.0.0 == borrower {
            holdings.take_off(row.1);
            named.take_off(row.1);
        }
    }
}

impl Imports {
    /// Forgets how often the objects of a peer were received, and ends the lends to it, each in one
    /// go. Other uses and the asks stay.
    pub fn end_peer(&mut self, peer: NodeId)
        ensures same { self.new ≡ record self.old {
          received = others_of self.old.received peer;
          uses = all_off self.old.uses (lent_to peer (map.entries self.old.lends));
          named = all_off self.old.named (lent_to peer (map.entries self.old.lends));
          lends = others_of self.old.lends peer;
          classes = home_ended self.old.classes peer self.old.asked;
          spare = self.new.spare;
          links = self.new.links;
        } }
        ensures spare { self.old.spare ≤ self.new.spare }
        ensures links { self.old.links ≤ self.new.links }
    {
        let borrower = peer.port();
        take_lends_off(&mut self.holdings, &mut self.named, &self.lends, borrower);
        self.lends.end_peer(peer);
        self.holdings.end_peer(peer);
        self.classes.end_home(peer, &self.asked);
    }
}
