ghost use Rattle.do_sig.specs.Blame as blame;
ghost use Rattle.std.specs.Prelude.{◌≡◌};
ghost use Rattle.do_sig.specs.reading.{Gives.Gives, Signatures.bare_at};

use crate::fault::{Kind, Stop};
use crate::letters::{is_qualifier, is_unsupported, scalar_of};
use crate::outermost::offset::offset_of;
use do_grammar::split_byte;

/// Whether an argument could begin with a byte.
pub(crate) fn begins_argument(b: u8) -> bool
    ensures { result ≡ blame.begins_argument b }
{
    match scalar_of(b) {
        Some(_) => true,
        None => matches!(b, b'[' | b'{' | b'^') || (is_qualifier(b) && b != b'V'),
    }
}

/// The fault of a byte where the receiver's or the selector's letter must stand.
fn self_fault(b: u8) -> Kind
    ensures { result ≡ blame.why_no_self b }
{
    if is_unsupported(b) {
        Kind::Unsupported
    } else if begins_argument(b) {
        Kind::NoSelf
    } else {
        Kind::BadChar
    }
}

/// What comes behind the receiver's or the selector's letter.
#[tactic(auto, unfolding(crate::specs::reading::Signatures::bare_at))]
pub(crate) fn bare_of(bytes: &[u8], letter: u8) -> Result<&[u8], Stop>
    ensures { Gives (λ x. (letter, x.now)) result (bare_at letter bytes.now) }
{
    let rest = offset_of(bytes)?;
    let Some((b, after)) = split_byte(rest) else {
        return Err(Stop::Short);
    };
    if b == letter {
        Ok(after)
    } else {
        Err(Stop::Bad(self_fault(b), rest.len()))
    }
}
