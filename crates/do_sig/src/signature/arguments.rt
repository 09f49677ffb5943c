ghost use Rattle.do_sig.specs.Blame as blame;
ghost use Rattle.std.specs.{Prelude.{◌≡◌, ◌++◌, OnOk}, List.flat_map};
ghost use Rattle.do_sig.specs.{Spelling.encoding_spelling, reading.Gives.Gives};
ghost use Rattle.do_sig.specs.reading.Signatures.{args_at, signature_of};

use crate::encoding::{Encoding, Encodings, encoding_of, push_encoding};
use crate::fault::{Kind, Stop};
use crate::letters::is_unsupported;
use crate::outermost::offset::offset_of;
use crate::outermost::place::Place;
use crate::signature::receiver::begins_argument;
use do_base::Text;
use do_grammar::split_byte;
use std::alloc::{AllocError, Global};

/// The fault of a byte behind the eighth argument.
fn more_fault(b: u8) -> Kind
    ensures { result ≡ blame.why_no_more b }
{
    if begins_argument(b) {
        Kind::TooManyArgs
    } else if is_unsupported(b) {
        Kind::Unsupported
    } else {
        Kind::BadChar
    }
}

/// The result and all the arguments, to which these bytes may add `left` more.
#[tactic(auto, using(crate::proofs::ArgumentSteps::args_steps))]
pub(crate) fn args_of(
    alloc: Global,
    returned: Encoding,
    args: Encodings,
    bytes: &[u8],
    left: u8,
) -> Result<(Encoding, Encodings), Stop>
    ensures { Gives (λ x. signature_of x.0 x.1) result (args_at left returned args bytes.now) }
{
    let mut args = args;
    let rest = offset_of(bytes)?;
    let Some((b, _after)) = split_byte(rest) else {
        return Ok((returned, args));
    };
    if left == 0 {
        return Err(Stop::Bad(more_fault(b), rest.len()));
    }
    let (arg, after) = encoding_of(alloc, rest, Place::Argument)?;
    args.push(arg)?;
    args_of(alloc, returned, args, after, left - 1)
}

/// Adds the spellings of a signature's arguments.
pub(crate) fn push_encodings(out: &mut Text, encodings: &Encodings) -> Result<(), AllocError>
    ensures { OnOk result (out.new ≡ out.old ++ flat_map encoding_spelling encodings.now) }
{
    for encoding in encodings.as_slice() {
        push_encoding(out, encoding)?;
    }
    Ok(())
}
