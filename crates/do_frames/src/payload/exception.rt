//! Reading exceptions.
ghost use Rattle.std.specs.Prelude.{◌≡◌, ◌≤◌, []};
ghost use Rattle.do_grammar.specs.RestAnswers.{Gives};
ghost use Rattle.do_frames.specs.Exceptions.{exc_at, exc_of, text_at};

use do_base::{Exc, LONGEST_TEXT, Text};
use do_grammar::{ReadFault, num_of, text_of};
use std::alloc::Global;

/// The exception of a number other than that of a user's.
fn plain_of(number: u64) -> Exc
    requires not_user { number ≡ 8 → ⊥ }
    ensures { result ≡ exc_of (number, []) }
{
    match number {
        1 => Exc::TypeFault,
        2 => Exc::Range,
        3 => Exc::Deep,
        4 => Exc::NotUnderstood,
        5 => Exc::ConnectionDied,
        6 => Exc::NotVended,
        7 => Exc::TooLarge,
        _ => Exc::TimedOut,
    }
}

/// The exception that begins the bytes, and the bytes behind it.
#[tactic(auto, unfolding(crate::specs::Exceptions::exc_at))]
pub(crate) fn exception_of(alloc: Global, bytes: &[u8]) -> Result<(Exc, &[u8]), ReadFault>
    ensures { Gives (λ x. (x.0, x.1.now)) result (exc_at bytes.now) }
{
    let (number, rest) = num_of(bytes, 1, 9)?;
    if number != 8 {
        return Ok((plain_of(number), rest));
    }
    match text_of(alloc, rest, LONGEST_TEXT as u64) {
        Ok((text, rest)) => Ok((Exc::User(text), rest)),
        Err(e) => Err(e),
    }
}
