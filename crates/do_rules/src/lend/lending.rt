//! Foreign objects that a node names to third nodes.
ghost use Rattle.std.specs.{Prelude.{◌≡◌, ◌++◌, OnOk}, List.filter_map};
ghost use Rattle.do_machine.specs.lend.Lending.{is_lend, lend_of, lending, lends_of, with_settled};

use crate::effect::Done;
use crate::lists::{Test, keep};
use do_base::NodeId;
use do_class::{Name, Packet};
use do_machine::{Lend, Lends, Node};
use std::alloc::AllocError;

/// Appends what names lend to a borrower.
fn push_lends(lends: &mut Lends, borrower: NodeId, names: &[Name]) -> Done
    ensures { OnOk result (lends.new ≡ lends.old ++ filter_map (lend_of borrower) names.now) }
{
    let [first, rest @ ..] = names else {
        return Ok(());
    };
    match first {
        Name::Lent { oid, token, .. } => {
            lends.push(Lend {
                number: *token,
                object: *oid,
                borrower,
            })?;
            push_lends(lends, borrower, rest)
        }
        Name::Mine { .. } => push_lends(lends, borrower, rest),
        Name::Yours { .. } => push_lends(lends, borrower, rest),
    }
}

/// The node sends a message to a peer: what that names of third nodes is lent. A token past what a
/// number can be is want of memory too.
pub(crate) fn lend(node: &mut Node, peer: NodeId, packet: &Packet) -> Done
    ensures { OnOk result (node.new ≡ lending (lends_of peer packet.now) node.old) }
{
    let mut lends = Lends::new(packet.names.allocator());
    push_lends(&mut lends, peer, packet.names.as_slice())?;
    let Some(next) = node.next_token.checked_add(lends.len() as u64) else {
        return Err(AllocError);
    };
    node.next_token = next;
    node.lent.append(lends)
}

/// Whether a lend is that of a number to a borrower.
fn is_lend(borrower: NodeId, number: u64, lend: &Lend) -> bool
    ensures { result ≡ is_lend borrower number lend.now }
{
    lend.number == number && lend.borrower == borrower
}

/// All lends but that of a number to a borrower.
#[derive(Drop)]
struct BesideLend {
    borrower: NodeId,
    number: u64,
}

impl Test<Lend> for BesideLend {
    ghost use Rattle.std.specs.{Prelude.not, List.filter_map};
    ghost use Rattle.do_machine.specs.lend.Lending.{is_lend};

    ghost passes = { λ besides lend. not (is_lend besides.borrower besides.number lend) };

    fn passes(&self, lend: &Lend) -> bool {
        !is_lend(self.borrower, self.number, lend)
    }
}

/// A lend is over.
pub(crate) fn end_lend(node: &mut Node, borrower: NodeId, number: u64)
    ensures { node.new ≡ with_settled borrower number node.old }
{
    keep(&mut node.lent, &BesideLend { borrower, number });
}
