//! Which lines show something of a node.
//!
//! A line that shows something is do_lines' spelling of what a step shows, so a record is read
//! by the words in which it is written. The crate stands on do_lines for this alone.
ghost use Rattle.std.specs.Prelude.{◌≡◌};
ghost use Rattle.do_grammar.specs.Quoted.{slice_view};
ghost use Rattle.do_record.specs.Shown.{behind_port, is_exception, is_long_took, is_of_port};
ghost use Rattle.do_record.specs.Shown.{is_plain_exception, is_plain_took, is_shown, is_took};
ghost use Rattle.do_record.specs.Value.{is_value};

use crate::value::{is_object, is_quoted, is_value};
use do_base::NodeId;
use do_grammar::{is_selector, is_text};
use do_sched::{node_of, word_in};

/// Whether bytes are the name of an exception without a text.
fn is_plain_exception(text: &[u8]) -> bool
    ensures { result ≡ is_plain_exception text.now }
{
    is_text(text, b"Type")
        || is_text(text, b"Range")
        || is_text(text, b"Deep")
        || is_text(text, b"NotUnderstood")
        || is_text(text, b"ConnectionDied")
        || is_text(text, b"NotVended")
        || is_text(text, b"TooLarge")
        || is_text(text, b"TimedOut")
}

/// Whether bytes are an exception.
fn is_exception(text: &[u8]) -> bool
    ensures { result ≡ is_exception text.now }
{
    if is_plain_exception(text) {
        return true;
    }
    match word_in(text) {
        Some((first, rest)) => is_text(first, b"User") && is_quoted(rest),
        None => false,
    }
}

/// Whether bytes are what is taken, where that is one word.
fn is_plain_took(text: &[u8]) -> bool
    ensures { result ≡ is_plain_took text.now }
{
    is_text(text, b"reply")
        || is_text(text, b"rootask")
        || is_text(text, b"rootanswer")
        || is_text(text, b"settled")
        || is_text(text, b"end")
}

/// Whether a word and what stands behind it are what is taken.
fn is_long_took(first: &[u8], rest: &[u8]) -> bool
    ensures { result ≡ is_long_took first.now rest.now }
{
    if is_text(first, b"call") || is_text(first, b"oneway") {
        return is_selector(rest);
    }
    if is_text(first, b"raised") {
        return is_exception(rest);
    }
    let with_object = is_text(first, b"ask")
        || is_text(first, b"granted")
        || is_text(first, b"gone")
        || is_text(first, b"left");
    with_object && is_object(rest)
}

/// Whether bytes are what is taken.
fn is_took(text: &[u8]) -> bool
    ensures { result ≡ is_took text.now }
{
    match word_in(text) {
        Some((first, rest)) => is_long_took(first, rest),
        None => is_plain_took(text),
    }
}

/// The bytes behind the port of a node and a space.
fn behind_port(port: NodeId, bytes: &[u8]) -> Option<&[u8]>
    ensures { slice_view result ≡ behind_port port bytes.now }
{
    let (digits, rest) = word_in(bytes)?;
    let node = node_of(digits)?;
    if node == port { Some(rest) } else { None }
}

/// Whether a value stands behind the node's port.
fn is_value_of(port: NodeId, bytes: &[u8]) -> bool
    ensures { result ≡ is_of_port port is_value bytes.now }
{
    match behind_port(port, bytes) {
        Some(rest) => is_value(rest),
        None => false,
    }
}

/// Whether an exception stands behind the node's port.
fn is_exception_of(port: NodeId, bytes: &[u8]) -> bool
    ensures { result ≡ is_of_port port is_exception bytes.now }
{
    match behind_port(port, bytes) {
        Some(rest) => is_exception(rest),
        None => false,
    }
}

/// Whether a text without its line feed is a line that shows something of a node.
pub(crate) fn is_shown(port: NodeId, text: &[u8]) -> bool
    ensures { result ≡ is_shown port text.now }
{
    let Some((first, rest)) = word_in(text) else {
        return false;
    };
    if is_text(first, b"took") {
        return is_took(rest);
    }
    if is_text(first, b"free") {
        return is_object(rest);
    }
    if is_text(first, b"say") || is_text(first, b"return") {
        return is_value_of(port, rest);
    }
    is_text(first, b"raise") && is_exception_of(port, rest)
}
