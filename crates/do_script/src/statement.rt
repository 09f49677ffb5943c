ghost use Rattle.std.specs.Prelude.{◌≡◌};
ghost use Rattle.do_script.specs.{Words.words, Program.{statement_of, begins_with}};
ghost use Rattle.do_script.specs.StatementOf.{statement_in};

use crate::operands::label_of;
use crate::words::split_word;

/// What a line says.
#[derive(Clone, Copy, Debug)]
pub(crate) enum Said<'a> {
    Nothing,
    Label(&'a [u8]),
    NoLabel,
    /// An instruction by its name, and the bytes behind the name.
    Instruction(&'a [u8], &'a [u8]),
}

fn begins_with(word: &[u8], byte: u8) -> bool
    ensures { result ≡ begins_with byte word.now }
{
    match word {
        [first, ..] => *first == byte,
        [] => false,
    }
}

/// What a line says.
pub(crate) fn said_in(line: &[u8]) -> Said<'_>
    ensures { statement_in result ≡ statement_of (words line.now) }
{
    let Some((word, rest)) = split_word(line) else {
        return Said::Nothing;
    };
    if begins_with(word, b';') {
        return Said::Nothing;
    }
    if !begins_with(word, b'@') {
        return Said::Instruction(word, rest);
    }
    match label_of(word) {
        Ok(name) if split_word(rest).is_none() => Said::Label(name),
        _ => Said::NoLabel,
    }
}
