ghost use Rattle.std.specs.Prelude.{◌≡◌, ◌≤◌, ◌<◌, ◌++◌, ℕ, List, Ok, Some, IfOk, length, map};
ghost use Rattle.std.specs.Prelude.{slice_get};
ghost use Rattle.do_sig.specs.Answers.{answer_of, IsAnswer, Answers, BlamesByte};
ghost use Rattle.do_sig.specs.Bare.{simple_encoding, simple_method, simple_result};
ghost use Rattle.do_sig.specs.Calls.{qualifier_of, qualifiers_of, is_oneway, arg_count, arg_fits};
ghost use Rattle.do_sig.specs.Calls.{encoding_fits, input_fits, args_fit, inputs_fit};
ghost use Rattle.do_sig.specs.{Calls.{returned_fits, is_void, is_returned_copied}, Fits.each_takes};
ghost use Rattle.do_sig.specs.{Signatures.IsSignature, Spelling.signature_spelling};
ghost use Rattle.do_sig.specs.reading.{Gives.Gives, Signatures.{signature_of, signature_at}};

use crate::encoding::{Encoding, Encodings, encoding_of, push_encoding};
use crate::fault::{EncFault, Stop};
use crate::outermost::place::Place;
use crate::qualifiers::Qualifier;
use crate::signature::arguments::{args_of, push_encodings};
use crate::signature::passing::{bycopy, comes_out, goes_in};
use crate::signature::receiver::bare_of;
use crate::value_type::{OutermostType, Scalar};
use do_base::{Text, Value, Values};
use std::alloc::{AllocError, Global};
use std::marker::Model;

pub(crate) mod arguments;
pub(crate) mod passing;
pub(crate) mod receiver;

/// The signature of a method: its result, and its arguments behind the receiver and the selector.
///
/// It is what `NSMethodSignature` of Apple's Foundation stands for. Each has a spelling: the result
/// is no `^`, no argument is `v` or has `V` before it, and there are at most eight arguments.
#[derive(Debug, Drop)]
pub struct Signature {
    returned: Encoding,
    args: Encodings,
}

impl Model for Signature {
    ghost use Rattle.do_sig.specs.contracts.value_type.ValueType as types;
    ghost use Rattle.std.specs.Coded.{codes};
    ghost use Rattle.do_sig.specs.MethodTypes.{MethodType, IsMethodType};

    ghost Value = { MethodType };

    ghost coded = { Prim.hlevel (codes, types.the_row.coded) };

    ghost view = { λ s. record { returned = s.returned; args = s.args } };

    ghost invariant = { λ s. IsMethodType (record { returned = s.returned; args = s.args }) };
}

/// Whether an argument's value fits, or does not go in.
fn passes_in(arg: &Encoding, value: &Value) -> bool
    ensures { result ≡ input_fits arg.now value.now }
{
    !goes_in(arg.value_type(), arg.qualifiers()) || arg.fits(value)
}

/// The result and the arguments that all the bytes spell.
#[tactic(auto, unfolding(crate::specs::reading::Signatures::signature_at))]
fn parts_of(alloc: Global, bytes: &[u8]) -> Result<(Encoding, Encodings), Stop>
    ensures { Gives (λ x. signature_of x.0 x.1) result (signature_at bytes.now) }
{
    let (returned, rest) = encoding_of(alloc, bytes, Place::Returned)?;
    let rest = bare_of(rest, b'@')?;
    let rest = bare_of(rest, b':')?;
    args_of(alloc, returned, Encodings::new(alloc), rest, 8)
}

/// The encodings of types of one letter.
fn simple_encodings(alloc: Global, scalars: &[Scalar]) -> Result<Encodings, AllocError>
    ensures { IfOk result (λ es. es ≡ map simple_encoding scalars.now) }
{
    let mut encodings = Encodings::new(alloc);
    for scalar in scalars {
        encodings.push(Encoding::simple(*scalar))?;
    }
    Ok(encodings)
}

/// The encoding of a type of one letter, or `v`.
fn simple_returned(returned: Option<Scalar>) -> Encoding
    ensures { result ≡ simple_result returned }
{
    match returned {
        Some(scalar) => Encoding::simple(scalar),
        None => Encoding::void(),
    }
}

impl Signature {
    /// Reads the signature that the bytes spell: a result, `@`, `:` and up to eight arguments.
    ///
    /// Digits, with or without a sign, may stand behind each type, as runtimes write sizes and
    /// offsets, and are passed over. The first fault from left to right counts, with the place of
    /// the byte with which nothing goes on: `Unsupported`, `Deep` and `BadChar` as for an encoding,
    /// `NoSelf` where an argument could begin in place of the receiver or the selector, and
    /// `TooManyArgs` where a ninth argument could; `Ends` where the bytes end too early. `Memory`
    /// comes where memory ran out. The form is that of Apple's `method_getTypeEncoding`.
    ///
    /// `exact` says what each answer means by the grammar, `only` that a text of the grammar gives
    /// its value, `blame` what each fault says of its byte, and `first` which fault counts where
    /// two are at one byte, by the definition of reading.
    #[tactic(auto, using(crate::proofs::AnswerMeans::answers))]
    pub fn read(alloc: Global, bytes: &[u8]) -> Result<Signature, EncFault>
        ensures exact { Answers IsSignature bytes.now result }
        ensures only { (x : Signature) → IsSignature bytes.now x → IsAnswer result (Ok x) }
        ensures blame { BlamesByte bytes.now result }
        ensures first { IsAnswer result (answer_of bytes.now (signature_at bytes.now)) }
    {
        match parts_of(alloc, bytes) {
            Ok((returned, args)) => Ok(Signature { returned, args }),
            Err(stop) => Err(stop.fault(bytes.len())),
        }
    }

    /// Prints the signature in its one spelling, which `read` reads again as the same value.
    ///
    /// It is the result, `@`, `:` and the arguments, without sizes and offsets. Fails where memory
    /// ran out.
    pub fn print(&self, alloc: Global) -> Result<Text, AllocError>
        ensures value { IfOk result (λ t. t ≡ signature_spelling self.now) }
        ensures again { IfOk result (λ t. IsSignature t self.now) }
    {
        let mut text = Text::new(alloc);
        push_encoding(&mut text, &self.returned)?;
        text.push(b'@')?;
        text.push(b':')?;
        push_encodings(&mut text, &self.args)?;
        Ok(text)
    }

    /// The signature of a method whose result and arguments are types of one letter.
    ///
    /// With no result it is `v`. Fails where memory ran out.
    pub fn simple(
        alloc: Global,
        returned: Option<Scalar>,
        args: &[Scalar],
    ) -> Result<Signature, AllocError>
        requires { length args.now ≤ 8 }
        ensures value { IfOk result (λ s. s ≡ simple_method returned args.now) }
        ensures count { IfOk result (λ s. arg_count s ≡ length args.now) }
    {
        let args = simple_encodings(alloc, args)?;
        let returned = simple_returned(returned);
        Ok(Signature { returned, args })
    }

    /// The number of arguments, without the receiver and the selector.
    pub fn args(&self) -> usize
        ensures value { result ≡ arg_count self.now }
        ensures few { result ≤ 8 }
    {
        self.args.len()
    }

    /// What the signature says of one argument, which there must be.
    ///
    /// A pointer goes both ways unless it is marked, and a constant one goes in. What is no pointer
    /// goes in alone, and in a oneway signature nothing comes out. The rules are those of "Remote
    /// Messaging" in Apple's "The Objective-C Programming Language".
    pub fn qualifier(&self, k: usize) -> Qualifier
        requires { k < arg_count self.now }
        ensures { slice_get (qualifiers_of self.now) k ≡ Some result }
    {
        let arg = &self.args.as_slice()[k];
        Qualifier {
            goes_in: goes_in(arg.value_type(), arg.qualifiers()),
            comes_out: !self.oneway() && comes_out(arg.value_type(), arg.qualifiers()),
            copy: bycopy(arg.qualifiers()),
        }
    }

    /// Whether the result's objects are passed as copies, as `O` says.
    pub fn result_copy(&self) -> bool
        ensures { result ≡ is_returned_copied self.now }
    {
        bycopy(self.returned.qualifiers())
    }

    /// Whether nothing is answered, as `V` says.
    pub fn oneway(&self) -> bool
        ensures { result ≡ is_oneway self.now }
    {
        self.returned.qualifiers().oneway
    }

    /// Whether the result's type is `v`.
    pub fn result_is_void(&self) -> bool
        ensures { result ≡ is_void self.now }
    {
        matches!(self.returned.value_type(), OutermostType::Void)
    }

    /// Whether a value fits the type of one argument, which there must be.
    ///
    /// It takes no memory. What fits which type is this project's own.
    pub fn fits(&self, value: &Value, k: usize) -> bool
        requires { k < arg_count self.now }
        ensures { result ≡ arg_fits self.now k value.now }
    {
        match self.args.get(k) {
            Some(arg) => arg.fits(value),
            None => false,
        }
    }

    /// Whether a value fits the type of the result: of `v` nil alone does.
    ///
    /// It takes no memory.
    pub fn result_fits(&self, value: &Value) -> bool
        ensures { result ≡ returned_fits self.now value.now }
    {
        self.returned.fits(value)
    }

    /// Whether there is one value for each argument, and each fits.
    #[tactic(auto, using(crate::proofs::SideBySide::pair_steps))]
    pub fn args_fit(&self, values: &Values) -> bool
        ensures { result ≡ args_fit self.now values.now }
    {
        let args = self.args.as_slice();
        let values = values.as_slice();
        if args.len() != values.len() {
            return false;
        }
        for i in 0..args.len() {
            if !args[i].fits(&values[i]) {
                return false;
            }
        }
        true
    }

    /// Whether there is one value for each argument, and each that goes in fits.
    #[tactic(auto, using(crate::proofs::SideBySide::pair_steps))]
    pub fn inputs_fit(&self, values: &Values) -> bool
        ensures { result ≡ inputs_fit self.now values.now }
    {
        let args = self.args.as_slice();
        let values = values.as_slice();
        if args.len() != values.len() {
            return false;
        }
        for i in 0..args.len() {
            if !passes_in(&args[i], &values[i]) {
                return false;
            }
        }
        true
    }
}
