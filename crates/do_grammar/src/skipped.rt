ghost use Rattle.std.specs.{Prelude.{◌≡◌, ℕ, List, Some, IfSome}, Option.option_map};
ghost use Rattle.do_grammar.specs.{Quoted.{denoted, quoted_at, slice_view, Quoted}, Grammar.Takes};

use crate::byte::split_byte;
use crate::quoted::{closing_of, piece_of};

/// The bytes behind the text in quotes that begins the bytes; none where none begins them that
/// denotes at most `limit` bytes.
///
/// The form is that of `quoted_of`, this project's own. The text itself is not made, so no memory
/// is taken.
pub fn skip_quoted(bytes: &[u8], limit: usize) -> Option<&[u8]>
    ensures value { slice_view result ≡ option_map (λ x. x.1) (quoted_at limit bytes.now) }
    ensures exact { IfSome result (λ rest. (text : List ℕ)
        × Takes (Quoted limit) bytes.now text rest.now) }
    ensures only { (text rest : List ℕ) → Takes (Quoted limit) bytes.now text rest
        → slice_view result ≡ Some rest }
{
    behind_quoted(bytes, limit)
}

/// What the reader of specs/ gives.
#[tactic(auto, unfolding(crate::specs::Quoted::quoted_at))]
fn behind_quoted(bytes: &[u8], limit: usize) -> Option<&[u8]>
    ensures { slice_view result ≡ option_map (λ x. x.1) (quoted_at limit bytes.now) }
{
    let (first, behind) = split_byte(bytes)?;
    if first != b'"' {
        return None;
    }
    skip_denoted(behind, limit)
}

/// The bytes behind at most `limit` bytes that are denoted and the quote that ends them.
#[tactic(auto, using(crate::proofs::loops::SkippedLoop::skipped_facts))]
fn skip_denoted(bytes: &[u8], limit: usize) -> Option<&[u8]>
    ensures { slice_view result ≡ option_map (λ x. x.1) (denoted limit bytes.now) }
{
    let mut rest = bytes;
    for _i in 0..limit {
        if let Some(behind) = closing_of(rest) {
            return Some(behind);
        }
        let (_, after) = piece_of(rest)?;
        rest = after;
    }
    closing_of(rest)
}
