ghost use Rattle.std.specs.Prelude.{◌≡◌};
ghost use Rattle.do_sig.specs.{reading.Gives.{Gives, IsEarly}, Offsets.{fresh, digits}};
ghost use Rattle.do_sig.specs.reading.Offsets.{skip};

use crate::fault::{Kind, Stop};
use do_grammar::split_byte;

/// What comes behind the digits that begin the bytes.
#[tactic(auto, using(crate::proofs::OffsetSteps::offset_steps))]
fn digits_of(bytes: &[u8]) -> Result<&[u8], Stop>
    ensures gives { Gives (λ x. x.now) result (skip digits bytes.now) }
    ensures early { IsEarly result }
{
    let mut rest = bytes;
    'digits: loop {
        let Some((b, after)) = split_byte(rest) else {
            return Ok(rest);
        };
        if b < 48 {
            return Ok(rest);
        }
        if b > 57 {
            return Ok(rest);
        }
        rest = after;
    }
}

/// What comes behind the size or offset that begins the bytes, if one does.
#[tactic(auto, using(crate::proofs::OffsetSteps::offset_steps))]
pub(crate) fn offset_of(bytes: &[u8]) -> Result<&[u8], Stop>
    ensures gives { Gives (λ x. x.now) result (skip fresh bytes.now) }
    ensures early { IsEarly result }
{
    let Some((b, after)) = split_byte(bytes) else {
        return Ok(bytes);
    };
    if b != b'+' && b != b'-' {
        return digits_of(bytes);
    }
    let Some((d, behind)) = split_byte(after) else {
        return Err(Stop::Short);
    };
    if d < 48 || d > 57 {
        return Err(Stop::Bad(Kind::BadChar, after.len()));
    }
    digits_of(behind)
}
