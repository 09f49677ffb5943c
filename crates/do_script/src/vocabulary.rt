ghost use Rattle.std.specs.Prelude.{◌≡◌, ◌<◌, ◌≤◌, length, IfOk};
ghost use Rattle.do_script.specs.{Fault.Gives, Operands.{place, named}};
ghost use Rattle.do_script.specs.Labels.{scope_in, PlacesWithin};

use crate::fault::Kind;
use crate::labels::{Labels, find_label};
use crate::operands::place_among;
use do_base::Texts;

/// The names that a method's code can use: its class's slots, the classes, and the labels.
#[derive(Drop)]
pub(crate) struct Vocabulary<'a> {
    pub slots: &'a Texts,
    pub classes: &'a Texts,
    pub labels: Labels<'a>,
}

/// The place of a slot.
pub(crate) fn slot_of(names: &Vocabulary<'_>, word: &[u8]) -> Result<usize, Kind>
    ensures value { Gives (λ k. k) result (named names.now.slots.now word.now) }
    ensures within { IfOk result (λ k. k < length names.now.slots.now) }
{
    place_among(names.slots, word)
}

/// The place of a class.
pub(crate) fn class_of(names: &Vocabulary<'_>, word: &[u8]) -> Result<usize, Kind>
    ensures value { Gives (λ k. k) result (named names.now.classes.now word.now) }
    ensures within { IfOk result (λ k. k < length names.now.classes.now) }
{
    place_among(names.classes, word)
}

/// The place at which a label stands.
pub(crate) fn target_of(names: &Vocabulary<'_>, label: &[u8]) -> Result<usize, Kind>
    requires { PlacesWithin names.now.labels }
    ensures value { Gives (λ k. k) result (place (scope_in names.now) label.now) }
    ensures within { IfOk result (λ k. k ≤ names.now.labels.instructions) }
{
    match find_label(&names.labels, label) {
        Some(found) => Ok(found.place),
        None => Err(Kind::Jump),
    }
}
