ghost use Rattle.std.specs.Prelude.{◌≡◌, ◌&&◌, ◌||◌, nat_le, nat_lt, []};
ghost use Rattle.do_grammar.specs.Reader.{scan_to};
ghost use Rattle.do_sig.specs.{Letters.{is_digit, is_name_letter}, reading.Gives.{Gives, IsEarly}};
ghost use Rattle.do_sig.specs.reading.Types.{name_step, goes_on_name};

use crate::fault::{Kind, Stop};
use do_base::Text;
use do_grammar::split_byte;
use std::alloc::Global;

/// Whether a name goes on with a byte.
fn name_goes(name: &Text, b: u8) -> bool
    ensures { result ≡ goes_on_name name.now b }
{
    let letter = b.is_ascii_alphabetic() || b == b'_' || b == b'$';
    match name.as_slice() {
        [] => letter || b == b'?',
        [first, ..] => (letter || b.is_ascii_digit()) && (*first != b'?' && name.len() < 64),
    }
}

/// The name that begins the bytes, and what comes behind it.
#[tactic(auto, using(crate::proofs::NameSteps::naming))]
pub(crate) fn name_of(alloc: Global, bytes: &[u8]) -> Result<(Text, &[u8]), Stop>
    ensures gives { Gives (λ x. (x.0, x.1.now)) result (scan_to name_step [] bytes.now) }
    ensures early { IsEarly result }
{
    let mut name = Text::new(alloc);
    let mut rest = bytes;
    loop {
        let Some((b, after)) = split_byte(rest) else {
            return Err(Stop::Short);
        };
        if !name_goes(&name, b) {
            if b == b'=' && name.len() > 0 {
                return Ok((name, rest));
            }
            let kind = if b == b'}' {
                Kind::Unsupported
            } else {
                Kind::BadChar
            };
            return Err(Stop::Bad(kind, rest.len()));
        }
        name.push(b)?;
        rest = after;
    }
}
