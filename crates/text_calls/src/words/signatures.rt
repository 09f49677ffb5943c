//! Calls of type encodings and signatures.

use call_rows::{
    Part, call_of, count_at, count_value, list_at, no_call, printed, text_at, triple_value,
    value_at,
};
use do_base::{Text, Value, Values};
use do_native_acts::as_number;
use do_sig::{Encoding, Scalar, Signature};
use std::alloc::Global;
use std::test::Fail;

/// What a signature is asked.
#[derive(Clone, Copy)]
enum Question {
    Args,
    Passing,
    Result,
    ArgsFit,
    InputsFit,
}

/// What a row calls.
#[derive(Clone, Copy)]
enum Call {
    Encoding,
    Signature,
    ResultFits,
    Simple,
    Ask(Question),
}

/// The words of the calls.
const CALLS: [(&[u8], Call); 9] = [
    (b"encoding", Call::Encoding),
    (b"signature", Call::Signature),
    (b"result_fits", Call::ResultFits),
    (b"simple", Call::Simple),
    (b"args", Call::Ask(Question::Args)),
    (b"passing", Call::Ask(Question::Passing)),
    (b"result", Call::Ask(Question::Result)),
    (b"args_fit", Call::Ask(Question::ArgsFit)),
    (b"inputs_fit", Call::Ask(Question::InputsFit)),
];

/// The readers of encodings and signatures, and what a signature tells.
#[derive(Drop)]
pub(crate) struct SignatureCalls {
    alloc: Global,
}

/// Three truth values as numbers.
fn flags(alloc: Global, first: bool, second: bool, third: bool) -> Result<Value, Fail> {
    let (first, second, third) = (as_number(first), as_number(second), as_number(third));
    triple_value(alloc, first, second, third)
}

/// An encoding, printed.
fn print_encoding(alloc: Global, encoding: &Encoding) -> Result<Value, Fail> {
    Ok(Value::Text(encoding.print(alloc)?))
}

/// A signature, printed.
fn print_signature(alloc: Global, signature: &Signature) -> Result<Value, Fail> {
    Ok(Value::Text(signature.print(alloc)?))
}

/// What a signature says of an argument: whether it goes in, comes out and is copied.
fn passing(alloc: Global, signature: &Signature, args: &Values) -> Result<Value, Fail> {
    let k = usize::from(count_at(args, 1)?);
    if k >= signature.args() {
        return Err(Fail::from("no argument"));
    }
    let qualifier = signature.qualifier(k);
    flags(
        alloc,
        qualifier.goes_in,
        qualifier.comes_out,
        qualifier.copy,
    )
}

/// What a signature says of its result: whether it is copied, not waited for, and void.
fn result(alloc: Global, signature: &Signature) -> Result<Value, Fail> {
    flags(
        alloc,
        signature.result_copy(),
        signature.oneway(),
        signature.result_is_void(),
    )
}

/// Whether values fit a signature as its arguments.
fn args_fit(signature: &Signature, args: &Values) -> Result<Value, Fail> {
    Ok(as_number(signature.args_fit(list_at(args, 1)?)))
}

/// Whether those of its arguments that go in fit.
fn inputs_fit(signature: &Signature, args: &Values) -> Result<Value, Fail> {
    Ok(as_number(signature.inputs_fit(list_at(args, 1)?)))
}

/// What a signature answers.
fn answer(
    alloc: Global,
    signature: &Signature,
    question: Question,
    args: &Values,
) -> Result<Value, Fail> {
    match question {
        Question::Args => count_value(signature.args()),
        Question::Passing => passing(alloc, signature, args),
        Question::Result => result(alloc, signature),
        Question::ArgsFit => args_fit(signature, args),
        Question::InputsFit => inputs_fit(signature, args),
    }
}

/// The types of a method without arguments that gives the type at the first place.
fn types_giving(args: &Values) -> Result<Text, Fail> {
    let mut types = text_at(args, 0)?.clone()?;
    types.push_bytes(b"@:")?;
    Ok(types)
}

impl SignatureCalls {
    /// Calls that take memory here.
    pub(crate) fn new(alloc: Global) -> SignatureCalls {
        SignatureCalls { alloc }
    }

    /// An encoding printed again, or why there is none, printed.
    fn encoding(&self, args: &Values) -> Result<Value, Fail> {
        match Encoding::read(self.alloc, text_at(args, 0)?.as_slice()) {
            Ok(encoding) => print_encoding(self.alloc, &encoding),
            Err(fault) => printed(self.alloc, fault),
        }
    }

    /// A signature printed again, or why there is none, printed.
    fn printed_again(&self, args: &Values) -> Result<Value, Fail> {
        match Signature::read(self.alloc, text_at(args, 0)?.as_slice()) {
            Ok(signature) => print_signature(self.alloc, &signature),
            Err(fault) => printed(self.alloc, fault),
        }
    }

    /// Whether a value fits the type at the first place as a result.
    fn result_fits(&self, args: &Values) -> Result<Value, Fail> {
        let value = value_at(args, 1)?;
        let types = types_giving(args)?;
        let signature = Signature::read(self.alloc, types.as_slice())?;
        Ok(as_number(signature.result_fits(value)))
    }

    /// A signature made by hand, which takes a number of 64 bits and gives nothing.
    fn simple(&self) -> Result<Value, Fail> {
        let signature = Signature::simple(self.alloc, None, &[Scalar::LongLong])?;
        print_signature(self.alloc, &signature)
    }

    /// What the signature at the first place answers.
    fn ask(&self, question: Question, args: &Values) -> Result<Value, Fail> {
        let signature = Signature::read(self.alloc, text_at(args, 0)?.as_slice())?;
        answer(self.alloc, &signature, question, args)
    }
}

impl Part for SignatureCalls {
    fn call(&mut self, word: &[u8], args: &Values) -> Result<Value, Fail> {
        match call_of(&CALLS, word) {
            Some(Call::Encoding) => self.encoding(args),
            Some(Call::Signature) => self.printed_again(args),
            Some(Call::ResultFits) => self.result_fits(args),
            Some(Call::Simple) => self.simple(),
            Some(Call::Ask(question)) => self.ask(question, args),
            None => no_call(),
        }
    }
}
