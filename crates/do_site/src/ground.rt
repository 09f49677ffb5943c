//! What a site's own state is to the rules that judge it.
ghost use Rattle.std.specs.Prelude.{◌≡◌};

use do_class::ClassTable;
use do_part::Part;

/// What a site is judged by: the classes, and what the node has of its own.
#[derive(Drop)]
pub struct Ground<'a> {
    /// The classes.
    pub table: &'a ClassTable,
    /// What the node has of its own.
    pub part: &'a Part,
}

/// What a node is judged by.
pub(crate) fn judged_by<'a>(table: &'a ClassTable, part: &'a Part) -> Ground<'a>
    ensures table { result.table.now ≡ table.now }
    ensures part { result.part.now ≡ part.now }
{
    Ground { table, part }
}
