//! Which bytes are an object's name, a text in quotes, or a value.
//!
//! A value is walked by one flat loop with a count of open lists. There is no recursion over
//! what was read, so no text makes the stack deep.
ghost use Rattle.std.specs.Prelude.{◌≡◌, ◌<◌, ◌≤◌, length};
ghost use Rattle.do_grammar.specs.Words.{part, word, text_view};
ghost use Rattle.do_record.specs.Value.{at_value, behind_leaf, behind_value, in_list};
ghost use Rattle.do_record.specs.Value.{is_home_and_serial, is_leaf, is_object, is_quoted};
ghost use Rattle.do_record.specs.Value.{is_value, is_walked, leaf_at, walk_one, walked_view};

use do_base::LONGEST_TEXT;
use do_grammar::{dec_of, int_of, is_text, part_of, skip_quoted, split_byte, word_of};
use do_sched::node_of;

/// How far a value is walked: whether a value comes next, how many lists are open, what is left.
type Walked<'a> = (bool, usize, &'a [u8]);

/// Whether bytes are a home and a serial with a dot between.
fn is_home_and_serial(bytes: &[u8]) -> bool
    ensures { result ≡ is_home_and_serial bytes.now }
{
    let Some((digits, serial)) = dot_in(bytes) else {
        return false;
    };
    if node_of(digits).is_none() {
        return false;
    }
    dec_of(serial, 1, 9_223_372_036_854_775_807).is_some()
}

/// The bytes before the first dot, and those after it; none where there is no dot.
#[tactic(auto, using(do_grammar::proofs::texts::WordExact::word_found))]
fn dot_in(bytes: &[u8]) -> Option<(&[u8], &[u8])>
    ensures { text_view result ≡ word 46 bytes.now }
{
    do_grammar::word_of(bytes, b'.')
}

/// Whether bytes are an object's name.
pub(crate) fn is_object(bytes: &[u8]) -> bool
    ensures { result ≡ is_object bytes.now }
{
    match split_byte(bytes) {
        Some((first, rest)) => first == b'#' && is_home_and_serial(rest),
        None => false,
    }
}

/// Whether bytes are a text in quotes, with nothing behind it.
pub(crate) fn is_quoted(bytes: &[u8]) -> bool
    ensures { result ≡ is_quoted bytes.now }
{
    match skip_quoted(bytes, LONGEST_TEXT) {
        Some(rest) => rest.is_empty(),
        None => false,
    }
}

/// Whether bytes are nil, a number or an object's name.
fn is_leaf(text: &[u8]) -> bool
    ensures { result ≡ is_leaf text.now }
{
    is_text(text, b"nil") || int_of(text).is_some() || is_object(text)
}

/// The bytes before the first byte `end`; all of them where it stands nowhere.
#[tactic(auto, using(do_grammar::proofs::texts::WordExact::part_found))]
fn before(bytes: &[u8], end: u8) -> &[u8]
    ensures value { result.now ≡ (part end bytes.now).0 }
    ensures within { length result.now ≤ length bytes.now }
{
    part_of(bytes, end).0
}

/// The bytes up to the next space or bracket that ends a list.
fn leaf_of(bytes: &[u8]) -> &[u8]
    ensures leaf { result.now ≡ leaf_at bytes.now }
    ensures within { length result.now ≤ length bytes.now }
{
    before(before(bytes, b' '), b']')
}

/// Behind a value of one word.
fn behind_leaf(depth: usize, bytes: &[u8]) -> Option<Walked<'_>>
    ensures { walked_view result ≡ behind_leaf depth bytes.now }
{
    let leaf = leaf_of(bytes);
    if is_leaf(leaf) {
        Some((false, depth, &bytes[leaf.len()..]))
    } else {
        None
    }
}

/// Behind a value: a list has one more, or is over.
fn behind_value(depth: usize, bytes: &[u8]) -> Option<Walked<'_>>
    ensures { walked_view result ≡ behind_value depth bytes.now }
{
    if depth == 0 {
        return None;
    }
    match split_byte(bytes) {
        Some((b' ', rest)) => Some((true, depth, rest)),
        Some((b']', rest)) => Some((false, depth - 1, rest)),
        _ => None,
    }
}

/// In a list that begins, which may have no item.
fn in_list(depth: usize, bytes: &[u8]) -> Option<Walked<'_>>
    requires { depth < 8 }
    ensures { walked_view result ≡ in_list depth bytes.now }
{
    let (first, rest) = split_byte(bytes)?;
    if first == b']' {
        Some((false, depth, rest))
    } else {
        Some((true, depth + 1, bytes))
    }
}

/// Where a value begins.
fn at_value(depth: usize, bytes: &[u8]) -> Option<Walked<'_>>
    ensures { walked_view result ≡ at_value depth bytes.now }
{
    let (first, rest) = split_byte(bytes)?;
    if first == b'"' {
        let behind = skip_quoted(bytes, LONGEST_TEXT)?;
        return Some((false, depth, behind));
    }
    if first == b'[' {
        return if depth < 8 {
            in_list(depth, rest)
        } else {
            None
        };
    }
    behind_leaf(depth, bytes)
}

/// One token of a value.
fn walk_one(want: bool, depth: usize, bytes: &[u8]) -> Option<Walked<'_>>
    ensures { walked_view result ≡ walk_one want depth bytes.now }
{
    if want {
        at_value(depth, bytes)
    } else {
        behind_value(depth, bytes)
    }
}

/// Whether all of a value is walked.
fn is_walked(want: bool, depth: usize, bytes: &[u8]) -> bool
    ensures { result ≡ is_walked want depth bytes.now }
{
    !want && depth == 0 && bytes.is_empty()
}

/// Whether bytes are one value.
pub(crate) fn is_value(bytes: &[u8]) -> bool
    ensures { result ≡ is_value bytes.now }
{
    let mut want = true;
    let mut depth = 0;
    let mut rest = bytes;
    for _token in 0..bytes.len() {
        if is_walked(want, depth, rest) {
            return true;
        }
        let Some((next, deeper, behind)) = walk_one(want, depth, rest) else {
            return false;
        };
        want = next;
        depth = deeper;
        rest = behind;
    }
    is_walked(want, depth, rest)
}
