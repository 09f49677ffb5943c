ghost use Rattle.std.specs.Prelude.{◌≡◌, ◌≤◌, ◌^◌, ◌++◌, ℕ, ℤ, Some, FitsSigned, OnOk, OnErr};
ghost use Rattle.std.specs.{Prelude.IfSome, Int.w64, Fmt.{decimal, signed_decimal}};
ghost use Rattle.do_grammar.specs.{Dec.{dec_from, dec_in, int_in, minus}, PartlyAdded.AddedPartly};

use crate::byte::split_byte;
use do_base::Text;
use itoa::Buffer;
use std::alloc::AllocError;

/// The number between two bounds that all the bytes spell in decimal digits.
///
/// A zero stands in front of no other digit: `0` alone is zero, and `07` is no spelling. None
/// where the bytes are no such spelling or the number is outside the bounds, which have 64 bits
/// at most. The form is this project's own.
pub fn dec_of(bytes: &[u8], low: u64, high: u64) -> Option<u64>
    ensures value { result ≡ dec_in low high bytes.now }
    ensures within { IfSome result (λ n. (low ≤ n) × (n ≤ high)) }
    ensures exact { IfSome result (λ n. bytes.now ≡ decimal n) }
    ensures only { (n : ℕ) → bytes.now ≡ decimal n → low ≤ n → n ≤ high → result ≡ Some n }
{
    whole_dec(bytes, low, high)
}

/// What the reader of specs/ gives.
#[tactic(auto, unfolding(crate::specs::Dec::dec_in))]
fn whole_dec(bytes: &[u8], low: u64, high: u64) -> Option<u64>
    ensures value { result ≡ dec_in low high bytes.now }
    ensures within { IfSome result (λ n. (low ≤ n) × (n ≤ high)) }
{
    let (first, rest) = split_byte(bytes)?;
    let n = if first == b'0' {
        if !rest.is_empty() {
            return None;
        }
        0
    } else {
        number_from(bytes, high)?
    };
    (low <= n).then_some(n)
}

/// The number that these digits spell, up to `high`.
fn number_from(bytes: &[u8], high: u64) -> Option<u64>
    ensures value { result ≡ dec_from high 0 bytes.now }
    ensures within { IfSome result (λ n. n ≤ high) }
{
    let mut n: u64 = 0;
    let mut rest = bytes;
    while let [b, after @ ..] = rest {
        if *b < b'0' || *b > b'9' {
            return None;
        }
        let next = n.checked_mul(10)?.checked_add(u64::from(*b - b'0'))?;
        if next > high {
            return None;
        }
        n = next;
        rest = after;
    }
    Some(n)
}

/// The signed number that all the bytes spell: decimal digits, behind a `-` where it is below 0.
///
/// None where the bytes are no such spelling, as `-0`, `+1` and a zero in front of other digits,
/// and where the number does not fit 64 bits. The form is this project's own.
pub fn int_of(bytes: &[u8]) -> Option<i64>
    ensures value { result ≡ int_in bytes.now }
    ensures exact { IfSome result (λ z. bytes.now ≡ signed_decimal z) }
    ensures only { (z : ℤ) → bytes.now ≡ signed_decimal z → FitsSigned w64 z → result ≡ Some z }
{
    whole_int(bytes)
}

/// What the reader of specs/ gives.
#[tactic(auto, unfolding(crate::specs::Dec::int_in))]
fn whole_int(bytes: &[u8]) -> Option<i64>
    ensures { result ≡ int_in bytes.now }
{
    let (first, digits) = split_byte(bytes)?;
    if first == b'-' {
        let n = dec_of(digits, 1, 1 << 63)?;
        Some(below_zero(n))
    } else {
        let n = dec_of(bytes, 0, i64::MAX as u64)?;
        Some(n as i64)
    }
}

/// The number below zero of this size.
fn below_zero(n: u64) -> i64
    requires positive { 1 ≤ n }
    requires fits { n ≤ 2 ^ 63 }
    ensures { result ≡ minus n }
{
    -((n - 1) as i64) - 1
}

/// Adds the decimal digits of a number, with no zero in front.
///
/// There are at most 20. The form is this project's own. `AllocError` comes where memory ran out,
/// and a front of them may then have been added.
pub fn push_dec(out: &mut Text, n: u64) -> Result<(), AllocError>
    ensures ok { OnOk result (out.new ≡ out.old ++ decimal n) }
    ensures partly { OnErr result (AddedPartly out.old (decimal n) out.new) }
{
    let mut digits = Buffer::new();
    out.push_bytes(digits.format(n).as_bytes())
}

/// Adds the decimal digits of a signed number, behind a `-` where it is below 0.
///
/// There are at most 19. The form is this project's own. `AllocError` comes where memory ran out,
/// and a front of them may then have been added.
pub fn push_int(out: &mut Text, x: i64) -> Result<(), AllocError>
    ensures ok { OnOk result (out.new ≡ out.old ++ signed_decimal x) }
    ensures partly { OnErr result (AddedPartly out.old (signed_decimal x) out.new) }
{
    if x >= 0 {
        push_dec(out, x as u64)
    } else {
        out.push(b'-')?;
        push_dec(out, (-(x + 1)) as u64 + 1)
    }
}
