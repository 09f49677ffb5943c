ghost use Rattle.std.specs.Prelude.{◌≡◌, ◌≤◌, ◌++◌, ◌∷◌, [], false, length, map, IfOk, OnOk};
ghost use Rattle.std.specs.{List.IsDistinct, Str.bytes_eq};
ghost use Rattle.do_class_kinds.specs.Native.{native_slots, slot_names};

use crate::kind::Kind;
use do_base::Text;
use do_class::{Slot, Slots};
use std::alloc::{AllocError, Global};

/// The slots of a pasteboard.
const PASTEBOARD: [&str; 5] = ["count", "owner", "types", "data", "boards"];

/// The slots of a center.
const CENTER: [&str; 3] = ["regs", "suspended", "queues"];

/// The names of a kind's slots.
fn slot_names(kind: Kind) -> &'static [&'static str]
    ensures { map (λ n. n.now) result.now ≡ slot_names kind }
{
    match kind {
        Kind::Script => &[],
        Kind::Names => &["names"],
        Kind::Pasteboard => &PASTEBOARD,
        Kind::Services => &["services"],
        Kind::Center => &CENTER,
        Kind::Checker => &["target"],
    }
}

/// Adds a slot that is not copied.
fn push_slot(slots: &mut Slots, name: &str) -> Result<(), AllocError>
    ensures { OnOk result
        (slots.new ≡ slots.old ++ record { name = name.now; copy = false } ∷ []) }
{
    let name = Text::from_slice(slots.allocator(), name.as_bytes())?;
    slots.push(Slot { name, copy: false })
}

/// The slots of a native class, of which none is copied with its object; of a checker its target.
///
/// A class of scripts has no slots but its own, so there are none for `Script`. An error means that
/// memory ran out. The slots are this project's own.
pub fn native_slots(alloc: Global, kind: Kind) -> Result<Slots, AllocError>
    ensures value { IfOk result (λ slots. slots ≡ native_slots kind) }
    ensures few { IfOk result (λ slots. length slots ≤ 16) }
    ensures distinct { IfOk result (λ slots. IsDistinct bytes_eq (map (λ s. s.name) slots)) }
{
    let mut slots = Slots::new(alloc);
    let names = slot_names(kind);
    for name in names {
        push_slot(&mut slots, *name)?;
    }
    Ok(slots)
}
