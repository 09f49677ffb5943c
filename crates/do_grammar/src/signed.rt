ghost use Rattle.std.specs.Prelude.{◌≡◌, ◌++◌, ℤ, List, ℕ, OnOk, OnErr, IfErr, ◌≢◌};
ghost use Rattle.do_grammar.specs.declared.fault.ReadFault.TheVariants.{Memory};
ghost use Rattle.do_grammar.specs.{Num.{num, zigzag, signed_at, Signed}, Reader.no_kind};
ghost use Rattle.do_grammar.specs.{RestAnswers.{Gives, TellsRest, FindsRest}, Grammar.Takes};
ghost use Rattle.do_grammar.specs.PartlyAdded.{AddedPartly};

use crate::fault::ReadFault;
use crate::number::{num_of, push_num};
use do_base::Text;
use std::alloc::AllocError;

/// The signed number that begins the bytes, and the bytes behind it.
///
/// It is spelled as an unsigned one of 64 bits: twice the number from 0 on, and below 0 twice its
/// size less one. The form is this project's own.
///
/// `Bad` is at the first byte with which no such number goes on, and `Short` where the bytes end
/// before one does. `Memory` never comes.
pub fn signed_of(bytes: &[u8]) -> Result<(i64, &[u8]), ReadFault>
    ensures gives { Gives (λ x. (x.0, x.1.now)) result (signed_at no_kind bytes.now) }
    ensures exact { TellsRest Signed (λ z. z) bytes.now result }
    ensures only { (z : ℤ) (rest : List ℕ) → Takes Signed bytes.now z rest
        → FindsRest (λ z. z) z rest result }
    ensures no_memory { IfErr result (λ fault. fault ≢ Memory) }
{
    front_signed(bytes)
}

/// What the reader of specs/ gives.
#[tactic(auto, unfolding(crate::specs::Num::signed_at))]
fn front_signed(bytes: &[u8]) -> Result<(i64, &[u8]), ReadFault>
    ensures gives { Gives (λ x. (x.0, x.1.now)) result (signed_at no_kind bytes.now) }
    ensures no_memory { IfErr result (λ fault. fault ≢ Memory) }
{
    let (n, rest) = num_of(bytes, 0, u64::MAX)?;
    let half = (n / 2) as i64;
    if n % 2 == 0 {
        Ok((half, rest))
    } else {
        Ok((-half - 1, rest))
    }
}

/// Adds a signed number, spelled as twice the number from 0 on, and below 0 as twice its size less
/// one.
///
/// It has at most 9 bytes. The form is this project's own. `AllocError` comes where memory ran
/// out, and a front of the number's bytes may then have been added.
pub fn push_signed(out: &mut Text, x: i64) -> Result<(), AllocError>
    ensures ok { OnOk result (out.new ≡ out.old ++ num (zigzag x)) }
    ensures partly { OnErr result (AddedPartly out.old (num (zigzag x)) out.new) }
{
    if x >= 0 {
        push_num(out, 2 * (x as u64))
    } else {
        push_num(out, 2 * (-(x + 1)) as u64 + 1)
    }
}
