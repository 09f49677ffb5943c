//! Foreign objects that nothing uses any more.
ghost use Rattle.std.specs.FinMap as map;
ghost use Rattle.std.specs.Prelude.{◌≡◌, ℕ, ◌+◌, ◌≤◌, vec_len, vec_capacity};
ghost use Rattle.do_export.specs.Counts.{IsPositive};
ghost use Rattle.do_leaving.specs.Leavers.{AllLeave};

use do_base::Oid;
use do_import::Imports;

/// Takes out each foreign object that is not used, by rising port and serial, and adds it with the
/// number of times that it was received.
///
/// No memory is taken: the list has room for all that was received. What it looks at is what
/// leaves.
pub fn leave_all(imports: &mut Imports, left: &mut Vec<(Oid, u64)>)
    requires { vec_len left.old + map.len imports.old.received ≤ vec_capacity left.old }
    ensures positive { IsPositive imports.old.uses }
    ensures leave { AllLeave imports.old imports.new left.old.items left.new.items }
    ensures links { imports.old.links ≤ imports.new.links }
    ensures capacity { vec_capacity left.new ≡ vec_capacity left.old }
{
    while let Some(one) = imports.leave_next() {
        left.push_reserved(one);
    }
}
