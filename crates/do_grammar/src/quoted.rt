ghost use Rattle.std.specs.Prelude.{◌≡◌, ◌<◌, ◌+◌, ◌*◌, ◌++◌, ℕ, List, Some, IfOk, IfSome, OnOk};
ghost use Rattle.std.specs.{Prelude.OnErr, List.flat_map};
ghost use Rattle.do_grammar.specs.Quoted.{is_plain, hex_digit, hex_value, quoted_byte, quoted};
ghost use Rattle.do_grammar.specs.Quoted.{escape_at, piece_at, closing, denoted, quoted_at};
ghost use Rattle.do_grammar.specs.{Quoted.{front_view, slice_view, Quoted}, Grammar.Takes};
ghost use Rattle.do_grammar.specs.PartlyAdded.{AddedPartly};

use crate::byte::split_byte;
use do_base::Text;
use std::alloc::{AllocError, Global};

/// The text in quotes that begins the bytes, and the bytes behind it; none where none begins them
/// that denotes at most `limit` bytes.
///
/// A byte from the space to `~` other than `"` and `\` stands for itself, and every other byte is
/// `\` and two hexadecimal digits in lower case. The form is this project's own. `AllocError`
/// comes where no memory is left for the text.
pub fn quoted_of(
    alloc: Global,
    bytes: &[u8],
    limit: usize,
) -> Result<Option<(Text, &[u8])>, AllocError>
    ensures value { IfOk result (λ text. front_view text ≡ quoted_at limit bytes.now) }
    ensures exact { IfOk result (λ text. IfSome text
        (λ x. Takes (Quoted limit) bytes.now x.0 x.1.now)) }
    ensures only { (text rest : List ℕ) → Takes (Quoted limit) bytes.now text rest
        → IfOk result (λ found. front_view found ≡ Some (text, rest)) }
{
    front_quoted(alloc, bytes, limit)
}

/// What the reader of specs/ gives.
#[tactic(auto, unfolding(crate::specs::Quoted::quoted_at))]
fn front_quoted(
    alloc: Global,
    bytes: &[u8],
    limit: usize,
) -> Result<Option<(Text, &[u8])>, AllocError>
    ensures { IfOk result (λ text. front_view text ≡ quoted_at limit bytes.now) }
{
    let Some((first, behind)) = split_byte(bytes) else {
        return Ok(None);
    };
    if first != b'"' {
        return Ok(None);
    }
    denoted_of(alloc, behind, limit)
}

/// At most `limit` bytes that are denoted, up to the quote that ends them.
#[tactic(auto, using(crate::proofs::loops::QuotedLoop::quoted_facts))]
fn denoted_of(
    alloc: Global,
    bytes: &[u8],
    limit: usize,
) -> Result<Option<(Text, &[u8])>, AllocError>
    ensures { IfOk result (λ text. front_view text ≡ denoted limit bytes.now) }
{
    let mut text = Text::new(alloc);
    let mut rest = bytes;
    for _i in 0..limit {
        if let Some(behind) = closing_of(rest) {
            return Ok(Some((text, behind)));
        }
        let Some((byte, after)) = piece_of(rest) else {
            return Ok(None);
        };
        text.push(byte)?;
        rest = after;
    }
    match closing_of(rest) {
        Some(behind) => Ok(Some((text, behind))),
        None => Ok(None),
    }
}

/// The bytes behind the quote that stands first.
pub(crate) fn closing_of(bytes: &[u8]) -> Option<&[u8]>
    ensures { slice_view result ≡ closing bytes.now }
{
    let (first, rest) = split_byte(bytes)?;
    if first == b'"' { Some(rest) } else { None }
}

/// The first byte that is denoted, and the bytes behind it.
pub(crate) fn piece_of(bytes: &[u8]) -> Option<(u8, &[u8])>
    ensures { front_view result ≡ piece_at bytes.now }
{
    let (first, rest) = split_byte(bytes)?;
    if is_plain(first) {
        Some((first, rest))
    } else if first == b'\\' {
        escape_of(rest)
    } else {
        None
    }
}

fn escape_of(bytes: &[u8]) -> Option<(u8, &[u8])>
    ensures { front_view result ≡ escape_at bytes.now }
{
    let (high, rest) = split_byte(bytes)?;
    let (low, rest) = split_byte(rest)?;
    let byte = hex_value(high)? * 16 + hex_value(low)?;
    if is_plain(byte) {
        None
    } else {
        Some((byte, rest))
    }
}

/// Whether a byte stands for itself.
fn is_plain(byte: u8) -> bool
    ensures { result ≡ is_plain byte }
{
    32 <= byte && byte <= 126 && byte != b'"' && byte != b'\\'
}

fn hex_value(digit: u8) -> Option<u8>
    ensures value { result ≡ hex_value digit }
    ensures small { IfSome result (λ n. n < 16) }
{
    match digit {
        b'0'..=b'9' => Some(digit - b'0'),
        b'a'..=b'f' => Some(digit - b'a' + 10),
        _ => None,
    }
}

fn hex_digit(n: u8) -> u8
    requires { n < 16 }
    ensures { result ≡ hex_digit n }
{
    if n < 10 { b'0' + n } else { b'a' + (n - 10) }
}

/// Adds a text in quotes, a byte that does not stand for itself as `\` and two hexadecimal digits.
///
/// A text of any length is added. The form is this project's own. `AllocError` comes where memory
/// ran out, and a front of the text's spelling may then have been added.
pub fn push_quoted(out: &mut Text, text: &[u8]) -> Result<(), AllocError>
    ensures ok { OnOk result (out.new ≡ out.old ++ quoted text.now) }
    ensures partly { OnErr result (AddedPartly out.old (quoted text.now) out.new) }
{
    out.push(b'"')?;
    push_inside(out, text)?;
    out.push(b'"')
}

fn push_inside(out: &mut Text, text: &[u8]) -> Result<(), AllocError>
    ensures ok { OnOk result (out.new ≡ out.old ++ flat_map quoted_byte text.now) }
    ensures partly { OnErr result (AddedPartly out.old (flat_map quoted_byte text.now) out.new) }
{
    for byte in text {
        push_byte(out, *byte)?;
    }
    Ok(())
}

fn push_byte(out: &mut Text, byte: u8) -> Result<(), AllocError>
    ensures ok { OnOk result (out.new ≡ out.old ++ quoted_byte byte) }
    ensures partly { OnErr result (AddedPartly out.old (quoted_byte byte) out.new) }
{
    if is_plain(byte) {
        return out.push(byte);
    }
    out.push(b'\\')?;
    out.push(hex_digit(byte / 16))?;
    out.push(hex_digit(byte % 16))
}
