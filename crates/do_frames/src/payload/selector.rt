//! Reading selectors.
//!
//! A selector is read byte by byte, since its length is known before its bytes. The eighth
//! colon is refused unless it is the last byte, and so is a last byte that is no colon once a
//! colon stood.
ghost use Rattle.std.specs.Prelude.{◌≡◌, ◌≤◌, ◌<◌, ◌+◌, ◌^◌, length, take, IfOk};
ghost use Rattle.do_grammar.specs.RestAnswers.{Gives};
ghost use Rattle.do_frames.specs.Selectors.{begins_selector, colons_after, follows_selector};
ghost use Rattle.do_frames.specs.Selectors.{later_at, letters_at, selector_at};

use do_base::Text;
use do_grammar::{ReadFault, num_of, split_byte};
use std::alloc::Global;

/// Whether a byte may begin a selector.
fn begins(byte: u8) -> bool
    ensures { result ≡ begins_selector byte }
{
    byte.is_ascii_alphabetic() || byte == b'_'
}

/// Whether a byte may stand where so many follow it and so many colons stood before it.
fn follows(left: u8, colons: u8, byte: u8) -> bool
    ensures { result ≡ follows_selector left colons byte }
{
    let may_stand = if left == 0 {
        byte == b':' || colons == 0
    } else {
        byte != b':' || colons < 7
    };
    (byte.is_ascii_alphanumeric() || byte == b'_' || byte == b':') && may_stand
}

/// The colons so far after a byte.
fn with_byte(colons: u8, byte: u8) -> u8
    requires room { colons < 255 }
    ensures value { result ≡ colons_after colons byte }
    ensures most { result ≤ colons + 1 }
{
    if byte == b':' { colons + 1 } else { colons }
}

/// The bytes behind `left` later bytes of a selector, with so many colons before them.
fn later_of(bytes: &[u8], left: u8, colons: u8) -> Result<&[u8], ReadFault>
    requires few { left + colons < 256 }
    ensures gives { Gives (λ rest. (take left bytes.now, rest.now)) result
        (later_at left colons bytes.now) }
    ensures long { IfOk result (λ rest. left ≤ length bytes.now) }
{
    if left == 0 {
        return Ok(bytes);
    }
    let Some((byte, after)) = split_byte(bytes) else {
        return Err(ReadFault::Short);
    };
    if !follows(left - 1, colons, byte) {
        return Err(ReadFault::Bad(bytes.len()));
    }
    match later_of(after, left - 1, with_byte(colons, byte)) {
        Ok(rest) => Ok(rest),
        Err(e) => Err(e),
    }
}

/// The bytes behind `count` bytes of a selector.
fn letters_of(bytes: &[u8], count: u8) -> Result<&[u8], ReadFault>
    requires some { 0 < count }
    ensures gives { Gives (λ rest. (take count bytes.now, rest.now)) result
        (letters_at count bytes.now) }
    ensures long { IfOk result (λ rest. count ≤ length bytes.now) }
{
    let Some((byte, after)) = split_byte(bytes) else {
        return Err(ReadFault::Short);
    };
    if !begins(byte) {
        return Err(ReadFault::Bad(bytes.len()));
    }
    match later_of(after, count - 1, 0) {
        Ok(rest) => Ok(rest),
        Err(e) => Err(e),
    }
}

/// The selector behind its length that begins the bytes, and the bytes behind it.
#[tactic(auto, unfolding(crate::specs::Selectors::selector_at))]
pub fn selector_of(alloc: Global, bytes: &[u8]) -> Result<(Text, &[u8]), ReadFault>
    ensures { Gives (λ x. (x.0, x.1.now)) result (selector_at bytes.now) }
{
    let (count, rest) = num_of(bytes, 1, 255)?;
    match letters_of(rest, count as u8) {
        Ok(after) => match Text::from_slice(alloc, &rest[..count as usize]) {
            Ok(selector) => Ok((selector, after)),
            Err(_) => Err(ReadFault::Memory),
        },
        Err(e) => Err(e),
    }
}
