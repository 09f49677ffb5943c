//! Calls of the assembler of method texts.

use crate::repeated::repeated;
use crate::scripts::names::names;
use call_rows::{
    Part, call_of, count_at, count_value, no_call, number_at, pair_value, printed, shown, text_at,
};
use do_base::{Text, Texts, Value, Values};
use do_script::{Code, assemble};
use std::alloc::{AllocError, Global};
use std::test::Fail;

/// The slots that the texts of rows speak of.
const SLOTS: [&[u8]; 6] = [b"value", b"link", b"a", b"b", b"n", b"next"];

/// Their classes.
const CLASSES: [&[u8]; 4] = [b"Counter", b"Client", b"Item", b"Peer"];

/// What a row calls.
#[derive(Clone, Copy)]
enum Call {
    Code,
    Instruction,
    Vocabulary,
    Jumps,
    Jump,
    Quoted,
}

/// The words of the calls.
const CALLS: [(&[u8], Call); 6] = [
    (b"code", Call::Code),
    (b"instruction", Call::Instruction),
    (b"vocabulary", Call::Vocabulary),
    (b"jumps", Call::Jumps),
    (b"jump", Call::Jump),
    (b"quoted", Call::Quoted),
];

/// The assembler, with the slots and classes that texts may name.
#[derive(Drop)]
pub(crate) struct CodeCalls {
    alloc: Global,
    slots: Texts,
    classes: Texts,
}

/// The instruction at a place, printed, or nil.
fn instruction_value(alloc: Global, code: &Code, place: usize) -> Result<Value, Fail> {
    match code.get(place) {
        Some(instruction) => shown(alloc, instruction),
        None => Ok(Value::Nil),
    }
}

/// Adds a line with a text in quotes of these letters.
fn push_quoted(line: &mut Text, letters: &[u8]) -> Result<(), AllocError> {
    line.push_bytes(b"text l0 \"")?;
    line.push_bytes(letters)?;
    line.push(b'"')
}

/// Two counts.
fn counts(alloc: Global, first: usize, second: usize) -> Result<Value, Fail> {
    let (first, second) = (count_value(first)?, count_value(second)?);
    pair_value(alloc, first, second)
}

impl CodeCalls {
    /// Calls that take memory here.
    pub(crate) fn new(alloc: Global) -> Result<CodeCalls, AllocError> {
        Ok(CodeCalls {
            alloc,
            slots: names(alloc, &SLOTS)?,
            classes: names(alloc, &CLASSES)?,
        })
    }

    /// How many instructions a text makes, or its first fault, printed.
    fn code(&self, text: &Text) -> Result<Value, Fail> {
        match assemble(self.alloc, text.as_slice(), &self.slots, &self.classes) {
            Ok(code) => count_value(code.len()),
            Err(fault) => printed(self.alloc, fault),
        }
    }

    /// The instruction that a text has at a place.
    fn instruction(&self, text: &Text, place: usize) -> Result<Value, Fail> {
        match assemble(self.alloc, text.as_slice(), &self.slots, &self.classes) {
            Ok(code) => instruction_value(self.alloc, &code, place),
            Err(fault) => printed(self.alloc, fault),
        }
    }

    /// The instruction that the text at the first place has at the second.
    fn instruction_at(&self, args: &Values) -> Result<Value, Fail> {
        let place = usize::from(count_at(args, 1)?);
        self.instruction(text_at(args, 0)?, place)
    }

    /// How many slots and classes a text's code may name.
    fn vocabulary(&self, args: &Values) -> Result<Value, Fail> {
        let text = text_at(args, 0)?;
        let code = assemble(self.alloc, text.as_slice(), &self.slots, &self.classes)?;
        counts(self.alloc, code.slots(), code.classes())
    }

    /// A first line, as many jumps to the end, and the end.
    fn jumps(&self, args: &Values) -> Result<Text, Fail> {
        let (first, count) = (text_at(args, 0)?, count_at(args, 1)?);
        let mut text = repeated(self.alloc, first.as_slice(), b"jump @end\n", count)?;
        text.push_bytes(b"; the end\n@end")?;
        Ok(text)
    }

    /// How many instructions such a text makes.
    fn count_jumps(&self, args: &Values) -> Result<Value, Fail> {
        let text = self.jumps(args)?;
        self.code(&text)
    }

    /// The instruction at a place of such a text.
    fn jump(&self, args: &Values) -> Result<Value, Fail> {
        let place = usize::from(count_at(args, 2)?);
        let text = self.jumps(args)?;
        self.instruction(&text, place)
    }

    /// A line with a text in quotes of as many letters.
    fn quoted(&self, count: i64) -> Result<Text, Fail> {
        let letters = vec![in self.alloc; b'a'; usize::try_from(count)?]?;
        let mut line = Text::new(self.alloc);
        push_quoted(&mut line, &letters)?;
        Ok(line)
    }

    /// How many instructions such a line makes.
    fn count_quoted(&self, args: &Values) -> Result<Value, Fail> {
        let line = self.quoted(number_at(args, 0)?)?;
        self.code(&line)
    }
}

impl Part for CodeCalls {
    fn call(&mut self, word: &[u8], args: &Values) -> Result<Value, Fail> {
        match call_of(&CALLS, word) {
            Some(Call::Code) => self.code(text_at(args, 0)?),
            Some(Call::Instruction) => self.instruction_at(args),
            Some(Call::Vocabulary) => self.vocabulary(args),
            Some(Call::Jumps) => self.count_jumps(args),
            Some(Call::Jump) => self.jump(args),
            Some(Call::Quoted) => self.count_quoted(args),
            None => no_call(),
        }
    }
}
