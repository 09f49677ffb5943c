//! Values of messages that have a spelling.
ghost use Rattle.std.specs.{Prelude.{◌↔◌, ◌≤◌, ◌<◌, ◌-◌, length, IsTrue}, List.AllByRecursion};
ghost use Rattle.do_grammar.specs.Grammar.{IsBytes};
ghost use Rattle.do_coder.specs.Parts.{IsPart};

use crate::ranges::{bytes_fit, number_fits};
use do_base::{LONGEST_TEXT, Text};
use do_class::Part;

/// The most items of a list.
const MAX_ITEMS: usize = 1024;

/// Whether a text has a spelling: any bytes have, if they are not too many.
pub(crate) fn has_text(text: &Text) -> bool
    ensures few { IsTrue result ↔ (length text.now ≤ 1048575) }
    ensures bytes { IsBytes text.now }
{
    bytes_fit(text.as_slice());
    text.len() <= LONGEST_TEXT
}

/// Whether a value has a spelling, where the message has so many copies and names, and so many
/// lists may still be nested.
#[cycle(parts)]
#[tactic(auto, using(crate::proofs::Parts::list_fits_iff))]
fn has_part(part: &Part, copies: u64, names: u64, depth: u8) -> bool
    ensures { IsTrue result ↔ IsPart copies names depth part.now }
{
    match part {
        Part::Nil => true,
        Part::Num(number) => {
            number_fits(*number);
            true
        }
        Part::Text(text) => has_text(text),
        Part::Copy(place) => *place < copies,
        Part::Named(place) => *place < names,
        Part::List(items) => has_list(items.as_slice(), copies, names, depth),
    }
}

/// Whether a list has a spelling, which is one of the lists that may still be nested.
#[cycle(parts)]
fn has_list(items: &[Part], copies: u64, names: u64, depth: u8) -> bool
    ensures { IsTrue result ↔ ((0 < depth) × ((length items.now ≤ 1024)
        × AllByRecursion (IsPart copies names (depth - 1)) items.now)) }
{
    depth > 0 && items.len() <= MAX_ITEMS && have_parts(items, copies, names, depth - 1)
}

/// Whether each value has a spelling.
#[cycle(parts)]
pub(crate) fn have_parts(parts: &[Part], copies: u64, names: u64, depth: u8) -> bool
    ensures { IsTrue result ↔ AllByRecursion (IsPart copies names depth) parts.now }
{
    for part in parts {
        if !has_part(part, copies, names, depth) {
            return false;
        }
    }
    true
}
