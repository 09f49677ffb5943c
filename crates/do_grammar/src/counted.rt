ghost use Rattle.std.specs.Prelude.{◌≡◌, ◌++◌, List, ℕ, OnOk, OnErr};
ghost use Rattle.do_grammar.specs.{Num.{counted, counted_at, CountedText}, Reader.no_kind};
ghost use Rattle.do_grammar.specs.{RestAnswers.{Gives, TellsRest, FindsRest}, Grammar.Takes};
ghost use Rattle.do_grammar.specs.PartlyAdded.{AddedPartly};

use crate::fault::ReadFault;
use crate::number::{num_of, push_num};
use do_base::Text;
use std::alloc::{AllocError, Global};

/// The text that begins the bytes, of at most `limit` bytes, and the bytes behind it.
///
/// A text is the number of its bytes and then these. The form is this project's own.
///
/// `Bad` is at the first byte of that number with which none up to the limit goes on, `Short`
/// where the bytes end before the text does, and `Memory` where none is left for the text.
pub fn text_of(alloc: Global, bytes: &[u8], limit: u64) -> Result<(Text, &[u8]), ReadFault>
    ensures gives { Gives (λ x. (x.0, x.1.now)) result (counted_at no_kind limit bytes.now) }
    ensures exact { TellsRest (CountedText limit) (λ t. t) bytes.now result }
    ensures only { (t rest : List ℕ) → Takes (CountedText limit) bytes.now t rest
        → FindsRest (λ t. t) t rest result }
{
    front_text(alloc, bytes, limit)
}

/// What the reader of specs/ gives.
#[tactic(auto, unfolding(crate::specs::Num::counted_at))]
fn front_text(alloc: Global, bytes: &[u8], limit: u64) -> Result<(Text, &[u8]), ReadFault>
    ensures { Gives (λ x. (x.0, x.1.now)) result (counted_at no_kind limit bytes.now) }
{
    let (n, rest) = num_of(bytes, 0, limit)?;
    let n = n as usize;
    if rest.len() < n {
        return Err(ReadFault::Short);
    }
    let (text, rest) = rest.split_at(n);
    Ok((Text::from_slice(alloc, text)?, rest))
}

/// Adds a text: the number of its bytes, and then these.
///
/// A text of any length is added. The form is this project's own. `AllocError` comes where memory
/// ran out, and a front of the text's spelling may then have been added.
pub fn push_text(out: &mut Text, text: &[u8]) -> Result<(), AllocError>
    ensures ok { OnOk result (out.new ≡ out.old ++ counted text.now) }
    ensures partly { OnErr result (AddedPartly out.old (counted text.now) out.new) }
{
    push_num(out, text.len() as u64)?;
    out.push_bytes(text)
}
