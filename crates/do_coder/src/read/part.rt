//! Reading the values of packets.
ghost use Rattle.std.specs.Prelude.{◌≡◌, ◌≤◌, ◌<◌, ◌-◌, ◌+◌, ◌^◌, length};
ghost use Rattle.do_grammar.specs.{Reader.{no_kind, times}, RestAnswers.Gives, OneSpelling.list_at};
ghost use Rattle.do_coder.specs.Parts.{part_at};

use crate::tags::{COPY, LIST, NAMED, NIL, NUMBER, TEXT};
use do_base::{Items, LONGEST_TEXT};
use do_class::{Part, Parts};
use do_grammar::{ReadFault, num_of, signed_of, split_byte, text_of};
use std::alloc::Global;

/// The value that begins the bytes, where so many copies and names may be spoken of, and so many
/// lists still be nested.
#[cycle(parts)]
#[tactic(auto, using(crate::proofs::values::Items::lists), unfolding(crate::specs::Parts::part_at))]
pub fn part_of(
    alloc: Global,
    bytes: &[u8],
    copies: u64,
    names: u64,
    depth: u8,
) -> Result<(Part, &[u8]), ReadFault>
    ensures { Gives (λ x. (x.0, x.1.now)) result (part_at copies names depth bytes.now) }
{
    let Some((tag, rest)) = split_byte(bytes) else {
        return Err(ReadFault::Short);
    };
    match tag {
        NIL => Ok((Part::Nil, rest)),
        NUMBER => {
            let (number, rest) = signed_of(rest)?;
            Ok((Part::Num(number), rest))
        }
        TEXT => match text_of(alloc, rest, LONGEST_TEXT as u64) {
            Ok((text, rest)) => Ok((Part::Text(text), rest)),
            Err(e) => Err(e),
        },
        COPY if copies > 0 => {
            let (k, rest) = num_of(rest, 0, copies - 1)?;
            Ok((Part::Copy(k), rest))
        }
        NAMED if names > 0 => {
            let (k, rest) = num_of(rest, 0, names - 1)?;
            Ok((Part::Named(k), rest))
        }
        LIST if depth > 0 => match list_of(alloc, rest, copies, names, depth - 1) {
            Ok((items, rest)) => Ok((Part::List(items), rest)),
            Err(e) => Err(e),
        },
        _ => Err(ReadFault::Bad(bytes.len())),
    }
}

/// The items of a list, and the bytes behind them.
#[cycle(parts)]
fn list_of(
    alloc: Global,
    bytes: &[u8],
    copies: u64,
    names: u64,
    depth: u8,
) -> Result<(Parts, &[u8]), ReadFault>
    ensures { Gives (λ x. (x.0, x.1.now)) result
        (list_at 0 1024 (times (part_at copies names depth)) bytes.now) }
{
    let (count, rest) = num_of(bytes, 0, 1024)?;
    parts_of(alloc, rest, copies, names, depth, count)
}

/// So many values, and the bytes behind them.
#[cycle(parts)]
pub fn parts_of(
    alloc: Global,
    bytes: &[u8],
    copies: u64,
    names: u64,
    depth: u8,
    count: u64,
) -> Result<(Parts, &[u8]), ReadFault>
    ensures { Gives (λ x. (x.0, x.1.now)) result
        (times (part_at copies names depth) count bytes.now) }
{
    let mut parts = Items::new(alloc);
    let mut rest = bytes;
    for _ in 0..count {
        match part_of(alloc, rest, copies, names, depth) {
            Ok((part, after)) => {
                parts.push(part)?;
                rest = after;
            }
            Err(e) => return Err(e),
        }
    }
    Ok((parts, rest))
}
