//! Calls of what reads and prints numbers, in digits and as bytes.

ghost use Rattle.std.specs.Prelude.{◌≤◌};
ghost use Rattle.do_grammar.specs.BesideHoles.{next_beside};

use call_rows::{
    Part, call_of, count_value, no_call, number_at, number_or_nil, pair_value, printed, text_at,
    word_alone, word_with,
};
use do_base::{Text, Value, Values};
use do_grammar::{
    CodeFault, ReadFault, dec_of, int_of, num_beside_of, num_of, push_dec, push_int, push_num,
    push_signed, push_text, signed_of, text_of,
};
use std::alloc::{AllocError, Global};
use std::test::Fail;

/// What a row calls.
#[derive(Clone, Copy)]
enum Call {
    Int,
    Dec,
    Num,
    NumBeside5,
    NumBeside256,
    NumBeside256And257,
    Signed,
    Text,
    PrintInt,
    PrintNum,
    PrintSigned,
    PrintText,
    PrintBad,
    PrintShort,
}

/// The words of the calls.
const CALLS: [(&[u8], Call); 14] = [
    (b"int", Call::Int),
    (b"dec", Call::Dec),
    (b"num", Call::Num),
    (b"but_5", Call::NumBeside5),
    (b"but_256", Call::NumBeside256),
    (b"but_256_257", Call::NumBeside256And257),
    (b"signed", Call::Signed),
    (b"text", Call::Text),
    (b"print_int", Call::PrintInt),
    (b"print_num", Call::PrintNum),
    (b"print_signed", Call::PrintSigned),
    (b"print_text", Call::PrintText),
    (b"print_bad", Call::PrintBad),
    (b"print_short", Call::PrintShort),
];

/// The readers and printers of numbers.
#[derive(Drop)]
pub(crate) struct NumberCalls {
    alloc: Global,
}

/// A number without a sign in digits, as rows write it.
fn digits(alloc: Global, n: u64) -> Result<Value, AllocError> {
    let mut text = Text::new(alloc);
    push_dec(&mut text, n)?;
    Ok(Value::Text(text))
}

/// The number whose digits stand at a place.
fn digits_at(args: &Values, at: usize) -> Result<u64, Fail> {
    Ok(dec_of(text_at(args, at)?.as_slice(), 0, u64::MAX).ok_or("no digits")?)
}

/// What was read, and how many bytes are left behind it.
fn found(alloc: Global, value: Value, left: usize) -> Result<Value, Fail> {
    let left = count_value(left)?;
    pair_value(alloc, value, left)
}

/// Why the bytes were not read: `bad` with the place of the first byte at fault, or `short`.
fn refused(alloc: Global, fault: ReadFault, len: usize) -> Result<Value, Fail> {
    match fault {
        ReadFault::Bad(left) => {
            let place = count_value(len.checked_sub(left).ok_or("no place")?)?;
            word_with(alloc, b"bad", place)
        }
        ReadFault::Short => word_alone(alloc, b"short"),
        ReadFault::Memory => Err(Fail::from(AllocError)),
    }
}

/// A number that was read from bytes.
fn number_found(
    alloc: Global,
    bytes: &Text,
    read: Result<(u64, &[u8]), ReadFault>,
) -> Result<Value, Fail> {
    match read {
        Ok((n, rest)) => found(alloc, digits(alloc, n)?, rest.len()),
        Err(fault) => refused(alloc, fault, bytes.len()),
    }
}

/// A number in digits with its sign, or nil.
fn int(args: &Values) -> Result<Value, Fail> {
    Ok(number_or_nil(int_of(text_at(args, 0)?.as_slice())))
}

impl NumberCalls {
    /// Calls that take memory here.
    pub(crate) fn new(alloc: Global) -> NumberCalls {
        NumberCalls { alloc }
    }

    /// Reads a number in digits, between two bounds.
    fn dec(&self, args: &Values) -> Result<Value, Fail> {
        let text = text_at(args, 0)?;
        match dec_of(text.as_slice(), digits_at(args, 1)?, digits_at(args, 2)?) {
            Some(n) => Ok(digits(self.alloc, n)?),
            None => Ok(Value::Nil),
        }
    }

    /// Reads a number between two bounds as bytes.
    fn num(&self, args: &Values) -> Result<Value, Fail> {
        let bytes = text_at(args, 0)?;
        let (low, high) = (digits_at(args, 1)?, digits_at(args, 2)?);
        if low > high {
            return Err(Fail::from("no bounds"));
        }
        number_found(self.alloc, bytes, num_of(bytes.as_slice(), low, high))
    }

    /// Reads a number from 0 to 257 but for these.
    fn num_beside(&self, args: &Values, holes: &[u64]) -> Result<Value, Fail>
        requires { next_beside holes.now 0 ≤ 257 }
    {
        let bytes = text_at(args, 0)?;
        let read = num_beside_of(bytes.as_slice(), 0, 257, holes);
        number_found(self.alloc, bytes, read)
    }

    /// Reads a number with a sign as bytes.
    fn signed(&self, args: &Values) -> Result<Value, Fail> {
        let bytes = text_at(args, 0)?;
        match signed_of(bytes.as_slice()) {
            Ok((n, rest)) => found(self.alloc, Value::Num(n), rest.len()),
            Err(fault) => refused(self.alloc, fault, bytes.len()),
        }
    }

    /// Reads a text of at most two bytes behind its length.
    fn text(&self, args: &Values) -> Result<Value, Fail> {
        let bytes = text_at(args, 0)?;
        match text_of(self.alloc, bytes.as_slice(), 2) {
            Ok((text, rest)) => found(self.alloc, Value::Text(text), rest.len()),
            Err(fault) => refused(self.alloc, fault, bytes.len()),
        }
    }

    /// Prints a number in digits, with its sign.
    fn print_int(&self, args: &Values) -> Result<Value, Fail> {
        let n = number_at(args, 0)?;
        let mut out = Text::new(self.alloc);
        push_int(&mut out, n)?;
        Ok(Value::Text(out))
    }

    /// Prints a number without a sign as bytes.
    fn print_num(&self, args: &Values) -> Result<Value, Fail> {
        let n = digits_at(args, 0)?;
        let mut out = Text::new(self.alloc);
        push_num(&mut out, n)?;
        Ok(Value::Text(out))
    }

    /// Prints a number with a sign as bytes.
    fn print_signed(&self, args: &Values) -> Result<Value, Fail> {
        let n = number_at(args, 0)?;
        let mut out = Text::new(self.alloc);
        push_signed(&mut out, n)?;
        Ok(Value::Text(out))
    }

    /// Prints a text as bytes, behind its length.
    fn print_text(&self, args: &Values) -> Result<Value, Fail> {
        let text = text_at(args, 0)?;
        let mut out = Text::new(self.alloc);
        push_text(&mut out, text.as_slice())?;
        Ok(Value::Text(out))
    }
}

impl Part for NumberCalls {
    fn call(&mut self, word: &[u8], args: &Values) -> Result<Value, Fail> {
        match call_of(&CALLS, word) {
            Some(Call::Int) => int(args),
            Some(Call::Dec) => self.dec(args),
            Some(Call::Num) => self.num(args),
            Some(Call::NumBeside5) => self.num_beside(args, &[5]),
            Some(Call::NumBeside256) => self.num_beside(args, &[256]),
            Some(Call::NumBeside256And257) => self.num_beside(args, &[256, 257]),
            Some(Call::Signed) => self.signed(args),
            Some(Call::Text) => self.text(args),
            Some(Call::PrintInt) => self.print_int(args),
            Some(Call::PrintNum) => self.print_num(args),
            Some(Call::PrintSigned) => self.print_signed(args),
            Some(Call::PrintText) => self.print_text(args),
            Some(Call::PrintBad) => printed(self.alloc, CodeFault::Bad(3)),
            Some(Call::PrintShort) => printed(self.alloc, ReadFault::Short),
            None => no_call(),
        }
    }
}
