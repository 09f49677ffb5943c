ghost use Rattle.std.specs.Prelude.{◌≡◌, ◌++◌, ℕ, List, Ok, IfOk, OnOk};
ghost use Rattle.do_sig.specs.MethodTypes.{QualifiedType};
ghost use Rattle.do_sig.specs.Answers.{answer_of, IsAnswer, Answers, BlamesByte, IsOfEncoding};
ghost use Rattle.do_sig.specs.Bare.{simple_encoding, void_encoding};
ghost use Rattle.do_sig.specs.Calls.{encoding_fits, input_fits, is_void_type, qualifier_of};
ghost use Rattle.do_sig.specs.{Encodings.IsEncoding, Spelling.encoding_spelling};
ghost use Rattle.do_sig.specs.reading.{Gives.{Gives, IsEarly}, Outermost.{encoding_at, alone_at}};

use crate::fault::{EncFault, Kind, Stop};
use crate::outermost::fitting::fits_outermost;
use crate::outermost::marks::qualifiers_of;
use crate::outermost::offset::offset_of;
use crate::outermost::place::Place;
use crate::outermost::spelling::{push_outermost, push_qualifiers};
use crate::outermost::whole::qualified_of;
use crate::qualifiers::Qualifiers;
use crate::value_type::{OutermostType, Scalar, ValueType};
use do_base::{Items, Text, Value};
use do_grammar::split_byte;
use std::alloc::{AllocError, Global};
use std::marker::Model;

/// The encoding of a result or of an argument: its qualifiers and its type.
///
/// Each has a spelling: `V` stands before `v` alone, and the type keeps to the limits.
#[derive(Debug, Drop)]
pub struct Encoding {
    qualifiers: Qualifiers,
    value_type: OutermostType,
}

/// A list of encodings.
pub type Encodings = Items<Encoding>;

impl Model for Encoding {
    ghost use Rattle.do_sig.specs.contracts.value_type.ValueType as types;
    ghost use Rattle.std.specs.Coded.{codes};
    ghost use Rattle.do_sig.specs.{MethodTypes.QualifiedType, Places.MayStand};
    ghost use Rattle.do_sig.specs.declared.outermost.place.Place.TheVariants.{Alone};

    ghost Value = { QualifiedType };

    ghost coded = { Prim.hlevel (codes, types.the_row.coded) };

    ghost view = { λ e. record { qualifiers = e.qualifiers; value_type = e.value_type } };

    ghost invariant = { λ e. MayStand Alone e.qualifiers.oneway e.value_type };
}

/// The encoding that begins the bytes, at a place, and what comes behind it.
#[tactic(auto, unfolding(crate::specs::reading::Outermost::encoding_at))]
pub(crate) fn encoding_of(
    alloc: Global,
    bytes: &[u8],
    place: Place,
) -> Result<(Encoding, &[u8]), Stop>
    ensures gives { Gives (λ x. (x.0, x.1.now)) result (encoding_at place bytes.now) }
    ensures early { IsEarly result }
{
    let (qualifiers, rest) = qualifiers_of(bytes, place)?;
    let (value_type, rest) = qualified_of(alloc, rest, place, qualifiers.oneway)?;
    let encoding = Encoding {
        qualifiers,
        value_type,
    };
    Ok((encoding, rest))
}

/// The encoding that all the bytes spell.
#[tactic(auto, unfolding(crate::specs::reading::Outermost::alone_at))]
fn alone_of(alloc: Global, bytes: &[u8]) -> Result<Encoding, Stop>
    ensures gives { Gives (λ x. x) result (alone_at bytes.now) }
    ensures early { IsEarly result }
{
    let (encoding, rest) = encoding_of(alloc, bytes, Place::Alone)?;
    let rest = offset_of(rest)?;
    match split_byte(rest) {
        None => Ok(encoding),
        Some(_) => Err(Stop::Bad(Kind::BadChar, rest.len())),
    }
}

/// Adds the spelling of an encoding.
pub(crate) fn push_encoding(out: &mut Text, encoding: &Encoding) -> Result<(), AllocError>
    ensures { OnOk result (out.new ≡ out.old ++ encoding_spelling encoding.now) }
{
    push_qualifiers(out, &encoding.qualifiers)?;
    push_outermost(out, &encoding.value_type)
}

impl Encoding {
    /// Reads the encoding that the bytes spell, which may be a result's or an argument's.
    ///
    /// Digits, with or without a sign, may stand behind the type, as runtimes write sizes and
    /// offsets, and are passed over. The first fault from left to right counts: `Unsupported`,
    /// `Deep` and `BadChar` with the place of the byte with which nothing goes on, and `Ends` where
    /// the bytes end too early. `NoSelf` and `TooManyArgs` never come. `Memory` comes where memory
    /// ran out. The letters are those of Apple's "Type Encodings".
    ///
    /// `exact` says what each answer means by the grammar, `only` that a text of the grammar gives
    /// its value, `blame` what each fault says of its byte, and `first` which fault counts where
    /// two are at one byte, by the definition of reading.
    #[tactic(auto, using(crate::proofs::AnswerMeans::answers))]
    pub fn read(alloc: Global, bytes: &[u8]) -> Result<Encoding, EncFault>
        ensures exact { Answers IsEncoding bytes.now result }
        ensures only { (x : Encoding) → IsEncoding bytes.now x → IsAnswer result (Ok x) }
        ensures blame { BlamesByte bytes.now result }
        ensures first { IsAnswer result (answer_of bytes.now (alone_at bytes.now)) }
        ensures kinds { IsOfEncoding result }
    {
        match alone_of(alloc, bytes) {
            Ok(encoding) => Ok(encoding),
            Err(stop) => Err(stop.fault(bytes.len())),
        }
    }

    /// Prints the encoding in its one spelling, which `read` reads again as the same value.
    ///
    /// Qualifiers stand in the order `V r n N o O R`, and no size or offset behind the type, as in
    /// Apple's "Type Encodings". Fails where memory ran out.
    pub fn print(&self, alloc: Global) -> Result<Text, AllocError>
        ensures value { IfOk result (λ t. t ≡ encoding_spelling self.now) }
        ensures again { IfOk result (λ t. IsEncoding t self.now) }
    {
        let mut text = Text::new(alloc);
        push_qualifiers(&mut text, &self.qualifiers)?;
        push_outermost(&mut text, &self.value_type)?;
        Ok(text)
    }

    /// The encoding of a type that is made of no others, without qualifiers.
    pub fn simple(scalar: Scalar) -> Encoding
        ensures { result ≡ simple_encoding scalar }
    {
        Encoding {
            qualifiers: Qualifiers::none(),
            value_type: OutermostType::Plain(ValueType::Simple(scalar)),
        }
    }

    /// The encoding `v`, without qualifiers.
    pub fn void() -> Encoding
        ensures { result ≡ void_encoding }
    {
        Encoding {
            qualifiers: Qualifiers::none(),
            value_type: OutermostType::Void,
        }
    }

    /// The qualifiers that stand before the type.
    pub fn qualifiers(&self) -> &Qualifiers
        ensures { result.now ≡ self.now.qualifiers }
    {
        &self.qualifiers
    }

    /// The type, as it stands outermost.
    pub fn value_type(&self) -> &OutermostType
        ensures { result.now ≡ self.now.value_type }
    {
        &self.value_type
    }

    /// Whether a value fits the type, whatever its qualifiers.
    ///
    /// It takes no memory. What fits which type is this project's own.
    pub fn fits(&self, value: &Value) -> bool
        ensures { result ≡ encoding_fits self.now value.now }
    {
        fits_outermost(&self.value_type, value)
    }
}
