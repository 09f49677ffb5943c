ghost use Rattle.std.specs.Prelude.{◌≡◌, ◌∷◌, [], ◌++◌, OnOk, decimal, map};
ghost use Rattle.do_sched.specs.Value.{object_name, value_text};
ghost use Rattle.do_lines.specs.{Shown.{exception_text, took_text, shown_text}, Lines.joined};

use do_base::{Exc, Oid, Shown, ShownList, Text, Took, Value};
use do_grammar::{push_dec, push_quoted};
use do_sched::{push_object, push_value};
use std::alloc::AllocError;

/// Adds the name of an exception, and the text of one that a program raised.
pub fn push_exception(out: &mut Text, exception: &Exc) -> Result<(), AllocError>
    ensures { OnOk result (out.new ≡ out.old ++ exception_text exception.now) }
{
    match exception {
        Exc::TypeFault => out.push_bytes(b"Type"),
        Exc::Range => out.push_bytes(b"Range"),
        Exc::Deep => out.push_bytes(b"Deep"),
        Exc::NotUnderstood => out.push_bytes(b"NotUnderstood"),
        Exc::ConnectionDied => out.push_bytes(b"ConnectionDied"),
        Exc::NotVended => out.push_bytes(b"NotVended"),
        Exc::TimedOut => out.push_bytes(b"TimedOut"),
        Exc::TooLarge => out.push_bytes(b"TooLarge"),
        Exc::User(text) => {
            out.push_bytes(b"User ")?;
            push_quoted(out, text.as_slice())
        }
    }
}

/// Adds words that end with a space, and a selector.
fn push_with_selector(out: &mut Text, word: &[u8], selector: &Text) -> Result<(), AllocError>
    ensures { OnOk result (out.new ≡ out.old ++ word.now ++ selector.now) }
{
    out.push_bytes(word)?;
    out.push_bytes(selector.as_slice())
}

/// Adds words that end with a space, and the name of an object.
fn push_with_object(out: &mut Text, word: &[u8], object: &Oid) -> Result<(), AllocError>
    ensures { OnOk result (out.new ≡ out.old ++ word.now ++ object_name object.now) }
{
    out.push_bytes(word)?;
    push_object(out, object)
}

/// Adds the words for what was taken from a queue.
pub fn push_took(out: &mut Text, took: &Took) -> Result<(), AllocError>
    ensures { OnOk result (out.new ≡ out.old ++ took_text took.now) }
{
    match took {
        Took::Call(selector) => push_with_selector(out, b"call ", selector),
        Took::Oneway(selector) => push_with_selector(out, b"oneway ", selector),
        Took::Reply => out.push_bytes(b"reply"),
        Took::Raised(exception) => {
            out.push_bytes(b"raised ")?;
            push_exception(out, exception)
        }
        Took::RootAsk => out.push_bytes(b"rootask"),
        Took::RootAnswer => out.push_bytes(b"rootanswer"),
        Took::Ask(object) => push_with_object(out, b"ask ", object),
        Took::Granted(object) => push_with_object(out, b"granted ", object),
        Took::Gone(object) => push_with_object(out, b"gone ", object),
        Took::Left(object) => push_with_object(out, b"left ", object),
        Took::Settled => out.push_bytes(b"settled"),
        Took::End => out.push_bytes(b"end"),
    }
}

/// Adds a word with its space, the port of the node that shows something, and a space.
fn push_with_port(out: &mut Text, word: &[u8], port: u16) -> Result<(), AllocError>
    ensures { OnOk result (out.new ≡ out.old ++ word.now ++ decimal port ++ 32 ∷ []) }
{
    out.push_bytes(word)?;
    push_dec(out, u64::from(port))?;
    out.push(b' ')
}

/// Adds a word with its space, the port of the node that shows a value, and the value.
fn push_with_value(out: &mut Text, word: &[u8], port: u16, value: &Value) -> Result<(), AllocError>
    ensures { OnOk result (out.new ≡ out.old ++ word.now ++ decimal port
        ++ 32 ∷ value_text value.now) }
{
    push_with_port(out, word, port)?;
    push_value(out, value)
}

/// Adds what a node with this port showed, without the end of the line.
pub fn push_shown(out: &mut Text, port: u16, shown: &Shown) -> Result<(), AllocError>
    ensures { OnOk result (out.new ≡ out.old ++ shown_text port shown.now) }
{
    match shown {
        Shown::Took(took) => {
            out.push_bytes(b"took ")?;
            push_took(out, took)
        }
        Shown::Say(value) => push_with_value(out, b"say ", port, value),
        Shown::Return(value) => push_with_value(out, b"return ", port, value),
        Shown::Raise(exception) => {
            push_with_port(out, b"raise ", port)?;
            push_exception(out, exception)
        }
        Shown::Free(object) => push_with_object(out, b"free ", object),
    }
}

/// Adds the lines for all that a node with this port showed, in order.
pub(crate) fn push_all_shown(out: &mut Text, port: u16, shown: &ShownList) -> Result<(), AllocError>
    ensures { OnOk result (out.new ≡ out.old ++ joined (map (shown_text port) shown.now)) }
{
    for one in shown.as_slice() {
        push_shown(out, port, one)?;
        out.push(b'\n')?;
    }
    Ok(())
}
