//! In the definitions a local or a slot that is not there holds nothing. An instruction that
//! finds nothing, or no value of its kind, has no act. `or_fault` makes a fault of type of
//! that, in one place. In code too a local is looked up (`get`), so no function needs to be
//! told that there are 16 locals or that a local is one of them. A struct or a record with that
//! premise would say it once, but each function would still name it. The definitions would
//! still need a value for a local that is not there.

ghost use Rattle.std.specs.Prelude.{◌≡◌, ◌<◌, ◌+◌, ◌^◌};
ghost use Rattle.do_behave.specs.{Steps.{gives, goes_to, writes, handles}, Changes.Means};

use crate::change::Change;
use crate::invocation::{Handler, Invocation};
use do_base::Value;

/// Sets a local, and goes on.
pub(crate) fn gives(inv: &Invocation, into: u8, value: Value) -> Change
    requires room { inv.now.pc + 1 < 2 ^ 32 }
    ensures { Means inv.now result (gives inv.now into value) }
{
    let pc = inv.pc + 1;
    Change::Local { into, value, pc }
}

/// Goes on at a place.
pub(crate) fn goes_to(inv: &Invocation, place: usize) -> Change
    requires { place < 2 ^ 32 }
    ensures { Means inv.now result (goes_to inv.now place) }
{
    let _pc = inv.pc;
    Change::Goto { pc: place as u32 }
}

/// Writes a slot, and goes on.
pub(crate) fn writes(inv: &Invocation, slot: usize, value: Value) -> Change
    requires { inv.now.pc + 1 < 2 ^ 32 }
    ensures { Means inv.now result (writes inv.now slot value) }
{
    let pc = inv.pc + 1;
    Change::Slot { slot, value, pc }
}

/// Has another handler or none, and goes on.
pub(crate) fn handles(inv: &Invocation, handler: Option<Handler>) -> Change
    requires { inv.now.pc + 1 < 2 ^ 32 }
    ensures { Means inv.now result (handles inv.now handler) }
{
    let pc = inv.pc + 1;
    Change::Handler { handler, pc }
}
