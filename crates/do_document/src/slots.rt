//! The slots of a class.
ghost use Rattle.std.specs.{Prelude.{◌≡◌, ◌≤◌, IfOk, length, map}, List.filter_map};
ghost use Rattle.toml.specs.View.{table_view};
ghost use Rattle.do_document.specs.Checks.{first_among};
ghost use Rattle.do_document.specs.ClassFaults.{is_new_slot, slot_fault, slots_fault};
ghost use Rattle.do_document.specs.{Classes.{slot_of, slots_in}, Finding.Finds};

use crate::document::{ItemKind, check_list, texts_at};
use crate::fault::WorldFault;
use crate::place::Place;
use do_base::Text;
use do_class::{Slot, Slots};
use do_grammar::{is_name, is_text};
use std::alloc::{AllocError, Global};
use toml::Table;

/// The most slots of a class.
const MOST_SLOTS: usize = 16;

/// The slot of a text: a name, or a name and ` copy`.
fn slot_of(alloc: Global, text: &str) -> Result<Option<Slot>, AllocError>
    ensures { IfOk result (λ slot. slot ≡ slot_of text.now) }
{
    let (name, copy) = match text.as_bytes().strip_suffix(b" copy") {
        Some(name) => (name, true),
        None => (text.as_bytes(), false),
    };
    if !is_name(name) {
        return Ok(None);
    }
    Ok(Some(Slot {
        name: Text::from_slice(alloc, name)?,
        copy,
    }))
}

/// Whether no slot has the name of this one.
fn is_new(slots: &Slots, slot: &Slot) -> bool
    ensures { result ≡ is_new_slot slots.now slot.now }
{
    for other in slots.as_slice() {
        if is_text(slot.name.as_slice(), other.name.as_slice()) {
            return false;
        }
    }
    true
}

/// The slots of texts, in their order.
fn slots_of(alloc: Global, texts: &[&str], place: Place) -> Result<Slots, WorldFault>
    ensures { let ts = map (λ t. t.now) texts.now in Finds (first_among (slot_fault place) ts)
        (λ slots. (slots ≡ filter_map slot_of ts) × (length slots ≤ length ts)) result }
{
    let mut slots = Slots::new(alloc);
    for (k, text) in texts.iter().enumerate() {
        match slot_of(alloc, *text)? {
            Some(slot) if is_new(&slots, &slot) => slots.push(slot)?,
            _ => return Err(place.wrong_member(alloc, "slots", k)),
        }
    }
    Ok(slots)
}

/// The slots of a class at a place, which come from the list at `slots`; none where it is missing.
pub(crate) fn slots_at(alloc: Global, table: &Table, place: Place) -> Result<Slots, WorldFault>
    ensures { Finds (slots_fault place (table_view table.now))
        (λ slots. (slots ≡ slots_in (table_view table.now)) × (length slots ≤ 16)) result }
{
    check_list(alloc, table, place, "slots", 0, MOST_SLOTS, ItemKind::Text)?;
    let texts = texts_at(alloc, table, "slots")?;
    slots_of(alloc, texts.as_slice(), place)
}
