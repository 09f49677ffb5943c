ghost use Rattle.std.specs.Prelude.{◌≡◌, ◌≤◌};
ghost use Rattle.do_grammar.specs.Reader.{scan_to};
ghost use Rattle.do_sig.specs.reading.{Gives.{Gives, IsEarly}, Types.{count_step, count_at}};

use crate::fault::{Kind, Stop};
use do_grammar::split_byte;

/// The number that goes on with these digits, and what comes behind it.
#[tactic(auto, using(crate::proofs::CountSteps::counting))]
fn digits_from(bytes: &[u8], n: u16) -> Result<(u16, &[u8]), Stop>
    requires { n ≤ 1024 }
    ensures gives { Gives (λ x. (x.0, x.1.now)) result (scan_to count_step n bytes.now) }
    ensures early { IsEarly result }
{
    let Some((b, rest)) = split_byte(bytes) else {
        return Err(Stop::Short);
    };
    if b < 48 || b > 57 {
        return Ok((n, bytes));
    }
    if n == 0 {
        return Err(Stop::Bad(Kind::BadChar, bytes.len()));
    }
    let next = n * 10 + u16::from(b - 48);
    if next > 1024 {
        return Err(Stop::Bad(Kind::Unsupported, bytes.len()));
    }
    digits_from(rest, next)
}

/// The count that begins the bytes, and what comes behind it.
#[tactic(auto, using(crate::proofs::CountSteps::counting))]
pub(crate) fn count_of(bytes: &[u8]) -> Result<(u16, &[u8]), Stop>
    ensures gives { Gives (λ x. (x.0, x.1.now)) result (count_at bytes.now) }
    ensures early { IsEarly result }
{
    let Some((b, rest)) = split_byte(bytes) else {
        return Err(Stop::Short);
    };
    if b < 48 || b > 57 {
        return Err(Stop::Bad(Kind::BadChar, bytes.len()));
    }
    digits_from(rest, u16::from(b - 48))
}
