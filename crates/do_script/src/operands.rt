ghost use Rattle.std.specs.{Prelude.{◌≡◌, true, ◌<◌, ◌≤◌, length, All, IfOk}, Option.ok_or};
ghost use Rattle.do_base.specs.values.Texts.{longest_text};
ghost use Rattle.do_grammar.specs.Dec.{int_in};
ghost use Rattle.do_script.specs.declared.fault.Kind.TheVariants.{Op};
ghost use Rattle.do_grammar.specs.Names.{is_selector, colons as colons_of};
ghost use Rattle.do_script.specs.{Fault.{Gives, Reads}, Words.words, Quoted.quoted_in};
ghost use Rattle.do_script.specs.Operands.{local, locals, selector, named, label, no_word};
ghost use Rattle.do_script.specs.Operands.{one_word, two_words, three_words};

use crate::fault::{Kind, LineFault};
use crate::words::split_word;
use do_base::{LONGEST_TEXT, Locals, Text, Texts};
use do_grammar::{colons_in, dec_of, int_of, is_name, is_selector, quoted_of, split_byte};
use std::alloc::Global;

/// No word, and then this value.
pub(crate) fn no_word<T: Drop>(operands: &[u8], value: T) -> Result<T, Kind>
    ensures { Gives (λ x. x) result (no_word (words operands.now) value) }
{
    match split_word(operands) {
        None => Ok(value),
        Some(_) => Err(Kind::Op),
    }
}

/// One word and no other.
pub(crate) fn one_word(operands: &[u8]) -> Result<&[u8], Kind>
    ensures { Gives (λ w. w.now) result (one_word (words operands.now)) }
{
    let Some((word, rest)) = split_word(operands) else {
        return Err(Kind::Op);
    };
    match split_word(rest) {
        None => Ok(word),
        Some(_) => Err(Kind::Op),
    }
}

/// Two words and no other.
pub(crate) fn two_words(operands: &[u8]) -> Result<(&[u8], &[u8]), Kind>
    ensures { Gives (λ x. (x.0.now, x.1.now)) result (two_words (words operands.now)) }
{
    let Some((first, rest)) = split_word(operands) else {
        return Err(Kind::Op);
    };
    Ok((first, one_word(rest)?))
}

/// Three words and no other.
pub(crate) fn three_words(operands: &[u8]) -> Result<(&[u8], &[u8], &[u8]), Kind>
    ensures { Gives (λ x. (x.0.now, x.1.now, x.2.now)) result (three_words (words operands.now)) }
{
    let Some((first, rest)) = split_word(operands) else {
        return Err(Kind::Op);
    };
    let (second, third) = two_words(rest)?;
    Ok((first, second, third))
}

/// The local that a word names: `l0` to `l15`.
pub(crate) fn local_of(word: &[u8]) -> Result<u8, Kind>
    ensures value { Gives (λ k. k) result (local word.now) }
    ensures within { IfOk result (λ k. k < 16) }
{
    let Some((b'l', digits)) = split_byte(word) else {
        return Err(Kind::Local);
    };
    match dec_of(digits, 0, 15) {
        Some(n) => Ok(n as u8),
        None => Err(Kind::Local),
    }
}

/// The place of a word in a list of names.
pub(crate) fn place_among(names: &Texts, word: &[u8]) -> Result<usize, Kind>
    ensures value { Gives (λ k. k) result (named names.now word.now) }
    ensures within { IfOk result (λ k. k < length names.now) }
{
    for (place, name) in names.as_slice().iter().enumerate() {
        if name.as_slice() == word {
            return Ok(place);
        }
    }
    Err(Kind::Op)
}

/// The name of a label: what stands behind the `@`.
pub(crate) fn label_of(word: &[u8]) -> Result<&[u8], Kind>
    ensures { Gives (λ name. name.now) result (label word.now) }
{
    let Some((b'@', name)) = split_byte(word) else {
        return Err(Kind::Op);
    };
    if is_name(name) {
        Ok(name)
    } else {
        Err(Kind::Op)
    }
}

/// The number that a word spells.
pub(crate) fn number_of(word: &[u8]) -> Result<i64, Kind>
    ensures { Gives (λ z. z) result (ok_or (int_in word.now) Op) }
{
    match int_of(word) {
        Some(number) => Ok(number),
        None => Err(Kind::Op),
    }
}

/// The text that a word denotes in quotes.
#[tactic(auto, unfolding(crate::specs::Quoted::quoted_in))]
pub(crate) fn text_of(alloc: Global, word: &[u8]) -> Result<Text, LineFault>
    ensures value { Reads (λ t. t) result (ok_or (quoted_in word.now) Op) }
    ensures short { IfOk result (λ t. length t ≤ longest_text) }
{
    match quoted_of(alloc, word, LONGEST_TEXT)? {
        Some((text, rest)) if rest.is_empty() => Ok(text),
        _ => Err(LineFault::Bad(Kind::Op)),
    }
}

/// The selector that a word is, if it has so many colons.
pub(crate) fn selector_of(alloc: Global, word: &[u8], colons: usize) -> Result<Text, LineFault>
    ensures value { Reads (λ t. t) result (selector word.now colons) }
    ensures name { IfOk result (λ t. is_selector t ≡ true) }
    ensures count { IfOk result (λ t. colons_of t ≡ colons) }
{
    if is_selector(word) && colons_in(word) == colons {
        Ok(Text::from_slice(alloc, word)?)
    } else {
        Err(LineFault::Bad(Kind::Op))
    }
}

/// The locals that all the words name, in order.
pub(crate) fn locals_of(alloc: Global, operands: &[u8]) -> Result<Locals, LineFault>
    ensures value { Reads (λ ks. ks) result (locals (words operands.now)) }
    ensures within { IfOk result (All (λ k. k < 16)) }
    ensures count { IfOk result (λ ks. length ks ≡ length (words operands.now)) }
{
    let mut locals = Locals::new(alloc);
    let mut rest = operands;
    while let Some((word, more)) = split_word(rest) {
        locals.push(local_of(word)?)?;
        rest = more;
    }
    Ok(locals)
}
