//! Starts that an exception ended.
ghost use Rattle.std.specs.Prelude.{◌≡◌, ◌++◌, OnOk};
ghost use Rattle.do_advice.specs.Advice.{raised_text};

use do_base::Text;
use do_grammar::push_dec;
use std::alloc::AllocError;

/// What stands before the number.
const ENDED: &[u8] = b"starts that an exception ended: ";

/// What stands behind it.
const WHERE: &[u8] = b"; each is a line `raise` of the record\n";

/// Adds the line that tells how many starts of a node an exception ended.
///
/// If memory runs out, a part of it may have been added.
pub fn push_raised(out: &mut Text, count: u64) -> Result<(), AllocError>
    ensures { OnOk result (out.new ≡ out.old ++ raised_text count) }
{
    out.push_bytes(ENDED)?;
    push_dec(out, count)?;
    out.push_bytes(WHERE)
}
