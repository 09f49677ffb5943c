ghost use Rattle.std.specs.Prelude.{◌≡◌, ◌≤◌, IfOk, IfSome, length};
ghost use Rattle.do_grammar.specs.{Dec.dec_in, Quoted.front_view, Words.{word, part, text_view}};
ghost use Rattle.do_sched.specs.{Version.longest, Reading.{port_at, pair_at, word_value}};
ghost use Rattle.do_sched.specs.Reading.{is_quote_first, plain_at, values_at, start_line_at};
ghost use Rattle.do_sched.specs.Reading.{run_line_at, take_line_at, close_line_at, lose_line_at};
ghost use Rattle.do_sched.specs.Reading.{timeout_line_at, form_at, line_at};

use crate::line::Line;
use crate::version::Version;
use do_base::{Items, NodeId, Text, Value, Values};
use do_grammar::{
    colons_in, dec_of, int_of, is_selector, is_text, part_of, quoted_of, split_byte, word_of,
};
use std::alloc::{AllocError, Global};

/// The bytes before the first space, and those after it; none where there is no space.
#[tactic(auto, using(do_grammar::proofs::texts::WordExact::word_found))]
pub fn word_in(bytes: &[u8]) -> Option<(&[u8], &[u8])>
    ensures { text_view result ≡ word 32 bytes.now }
{
    word_of(bytes, b' ')
}

/// The bytes before the first space, and those from it on; where there is no space all and none.
#[tactic(auto, using(do_grammar::proofs::texts::WordExact::part_found))]
pub fn part_in(bytes: &[u8]) -> (&[u8], &[u8])
    ensures before { result.0.now ≡ (part 32 bytes.now).0 }
    ensures after { result.1.now ≡ (part 32 bytes.now).1 }
{
    part_of(bytes, b' ')
}

/// The node whose number these digits are.
pub fn node_of(digits: &[u8]) -> Option<NodeId>
    ensures { result ≡ port_at digits.now }
{
    NodeId::new(dec_of(digits, 1, 65535)? as u16)
}

/// A node's number, a space and a number between two bounds.
pub fn pair_of(bytes: &[u8], low: u64, high: u64) -> Option<(NodeId, u64)>
    ensures { result ≡ pair_at low high bytes.now }
{
    let (digits, number) = word_in(bytes)?;
    let node = node_of(digits)?;
    let number = dec_of(number, low, high)?;
    Some((node, number))
}

/// Two nodes' numbers with a space between.
pub fn nodes_of(bytes: &[u8]) -> Option<(NodeId, NodeId)>
    ensures { result ≡ pair_at 1 65535 bytes.now }
{
    let (digits, others) = word_in(bytes)?;
    let first = node_of(digits)?;
    let second = node_of(others)?;
    Some((first, second))
}

/// Nil or a number.
fn word_value(word: &[u8]) -> Option<Value>
    ensures { result ≡ word_value word.now }
{
    if is_text(word, b"nil") {
        return Some(Value::Nil);
    }
    let number = int_of(word)?;
    Some(Value::Num(number))
}

/// Whether a quote stands first.
fn is_quote_first(bytes: &[u8]) -> bool
    ensures { result ≡ is_quote_first bytes.now }
{
    match bytes {
        [first, ..] => *first == b'"',
        [] => false,
    }
}

/// The plain value that begins the bytes, a text of at most `limit` bytes, and what stands behind
/// it.
pub fn plain_of(
    alloc: Global,
    bytes: &[u8],
    limit: usize,
) -> Result<Option<(Value, &[u8])>, AllocError>
    ensures { IfOk result (λ found. front_view found ≡ plain_at limit bytes.now) }
{
    if is_quote_first(bytes) {
        let Some((text, rest)) = quoted_of(alloc, bytes, limit)? else {
            return Ok(None);
        };
        return Ok(Some((Value::Text(text), rest)));
    }
    let (word, rest) = part_in(bytes);
    let Some(value) = word_value(word) else {
        return Ok(None);
    };
    Ok(Some((value, rest)))
}

/// So many plain values, a space before each; none where the bytes are no such values.
#[tactic(auto, using(crate::proofs::ValuesLoop::values_facts))]
pub fn values_of(
    alloc: Global,
    bytes: &[u8],
    count: usize,
    limit: usize,
) -> Result<Option<Values>, AllocError>
    ensures { IfOk result (λ values. values ≡ values_at limit count bytes.now) }
{
    let mut values = Items::with_capacity(alloc, count)?;
    let mut rest = bytes;
    for _i in 0..count {
        let Some((first, behind)) = split_byte(rest) else {
            return Ok(None);
        };
        if first != b' ' {
            return Ok(None);
        }
        let Some((value, after)) = plain_of(alloc, behind, limit)? else {
            return Ok(None);
        };
        values.push(value)?;
        rest = after;
    }
    if !rest.is_empty() {
        return Ok(None);
    }
    Ok(Some(values))
}

/// What stands behind `start `.
fn start_of(alloc: Global, bytes: &[u8], limit: usize) -> Result<Option<Line>, AllocError>
    ensures { IfOk result (λ line. line ≡ start_line_at limit bytes.now) }
{
    let Some((digits, called)) = word_in(bytes) else {
        return Ok(None);
    };
    let Some(node) = node_of(digits) else {
        return Ok(None);
    };
    let (selector, values) = part_in(called);
    if !is_selector(selector) {
        return Ok(None);
    }
    let Some(values) = values_of(alloc, values, colons_in(selector), limit)? else {
        return Ok(None);
    };
    let selector = Text::from_slice(alloc, selector)?;
    Ok(Some(Line::Start {
        node,
        selector,
        values,
    }))
}

/// What stands behind `run `.
fn run_of(bytes: &[u8]) -> Option<Line>
    ensures { result ≡ run_line_at bytes.now }
{
    let (node, count) = pair_of(bytes, 1, 1000)?;
    Some(Line::Run { node, count })
}

/// What stands behind `take `.
fn take_of(bytes: &[u8]) -> Option<Line>
    ensures { result ≡ take_line_at bytes.now }
{
    let (node, from) = nodes_of(bytes)?;
    Some(Line::Take { node, from })
}

/// What stands behind `close `.
fn close_of(bytes: &[u8]) -> Option<Line>
    ensures { result ≡ close_line_at bytes.now }
{
    let (node, peer) = nodes_of(bytes)?;
    Some(Line::Close { node, peer })
}

/// What stands behind `lose `.
fn lose_of(bytes: &[u8]) -> Option<Line>
    ensures { result ≡ lose_line_at bytes.now }
{
    let (digits, rest) = word_in(bytes)?;
    let from = node_of(digits)?;
    let (to, after) = pair_of(rest, 0, u64::MAX)?;
    Some(Line::Lose { from, to, after })
}

/// What stands behind `timeout `, where the version has time-outs.
fn timeout_of(bytes: &[u8], version: Version) -> Option<Line>
    ensures { result ≡ timeout_line_at version bytes.now }
{
    if !version.has_timeouts() {
        return None;
    }
    let node = node_of(bytes)?;
    Some(Line::Timeout { node })
}

/// The line that a first word and what stands behind it are.
fn form_of(
    alloc: Global,
    first: &[u8],
    rest: &[u8],
    version: Version,
) -> Result<Option<Line>, AllocError>
    ensures { IfOk result (λ line. line ≡ form_at version (first.now, rest.now)) }
{
    if is_text(first, b"run") {
        return Ok(run_of(rest));
    }
    if is_text(first, b"take") {
        return Ok(take_of(rest));
    }
    if is_text(first, b"close") {
        return Ok(close_of(rest));
    }
    if is_text(first, b"lose") {
        return Ok(lose_of(rest));
    }
    if is_text(first, b"timeout") {
        return Ok(timeout_of(rest, version));
    }
    if is_text(first, b"start") {
        return start_of(alloc, rest, version.longest());
    }
    Ok(None)
}

/// The line that a text without its line feed spells, if it spells one.
#[tactic(auto, unfolding(crate::specs::Reading::line_at))]
pub fn line_from(alloc: Global, text: &[u8], version: Version) -> Result<Option<Line>, AllocError>
    ensures { IfOk result (λ line. line ≡ line_at version text.now) }
{
    if is_text(text, b"check") {
        return Ok(Some(Line::Check));
    }
    let Some((first, rest)) = word_in(text) else {
        return Ok(None);
    };
    form_of(alloc, first, rest, version)
}
