//! Names of objects that have a spelling.
ghost use Rattle.std.specs.{Prelude.{◌↔◌, ◌≡◌, ◌<◌, ◌∷◌, [], length, IsTrue}, List.AllByRecursion};
ghost use Rattle.do_grammar.specs.BesideHoles.{IsBeside};
ghost use Rattle.do_coder.specs.{Recent.IsSerial, Names.IsName};
ghost use Rattle.do_coder.specs.Packets.{surroundings, sides_of, slot_counts};

use crate::ranges::port_fits;
use do_base::NodeId;
use do_class::{ClassId, ClassTable, Name};

/// The greatest serial, call, token and amount.
const GREATEST: u64 = 9_223_372_036_854_775_807;

/// Whether a serial, a call, a token or an amount has a spelling.
pub(crate) fn has_number(number: u64) -> bool
    ensures { IsTrue result ↔ IsSerial number }
{
    0 < number && number <= GREATEST
}

/// Whether a class is of the table.
#[tactic(auto, using(crate::proofs::Packets::class_count))]
pub(crate) fn has_class(class: ClassId, table: &ClassTable) -> bool
    ensures { IsTrue result ↔ (class.0 < length (slot_counts table.now)) }
{
    class.0 < table.count()
}

/// Whether a node is neither end of a message.
fn is_beside(node: NodeId, from: NodeId, to: NodeId) -> bool
    ensures { IsTrue result ↔ IsBeside (from ∷ to ∷ []) 1 65535 node }
{
    port_fits(node);
    node != from && node != to
}

/// Whether a name has a spelling.
fn has_name(name: &Name, table: &ClassTable, from: NodeId, to: NodeId) -> bool
    ensures { IsTrue result ↔ IsName (sides_of (surroundings table.now from to)) name.now }
{
    match *name {
        Name::Mine { serial, class } => has_number(serial) && has_class(class, table),
        Name::Yours { serial } => has_number(serial),
        Name::Lent { oid, class, token } => {
            is_beside(oid.node, from, to)
                && has_number(oid.serial)
                && has_class(class, table)
                && has_number(token)
        }
    }
}

/// Whether each name has a spelling.
pub(crate) fn have_names(names: &[Name], table: &ClassTable, from: NodeId, to: NodeId) -> bool
    ensures { IsTrue result
        ↔ AllByRecursion (IsName (sides_of (surroundings table.now from to))) names.now }
{
    for name in names {
        if !has_name(name, table, from, to) {
            return false;
        }
    }
    true
}
