ghost use Rattle.std.specs.Prelude.{◌≡◌, ◌+◌, ◌<◌, ◌≤◌, ◌^◌, ◌++◌, [], ◌∷◌, length, ℕ, List, OnOk};
ghost use Rattle.std.specs.Prelude.{OnErr, IfErr, ◌≢◌};
ghost use Rattle.do_grammar.specs.declared.fault.ReadFault.TheVariants.{Memory};
ghost use Rattle.do_grammar.specs.Num.{span, least_of, digits, digits_at, num, num_at, size, Num};
ghost use Rattle.do_grammar.specs.{Reader.no_kind, RestAnswers.{Gives, TellsRest, FindsRest}};
ghost use Rattle.do_grammar.specs.{Grammar.Takes, PartlyAdded.AddedPartly};

use crate::byte::split_byte;
use crate::fault::ReadFault;
use do_base::Text;
use std::alloc::AllocError;

/// How many numbers k bytes have, where k is below 8.
fn step_of(k: u8) -> u64
    requires { k < 8 }
    ensures value { result ≡ span k }
    ensures small { result ≤ 2 ^ 56 }
    ensures positive { 0 < result }
{
    match k {
        0 => 1,
        1 => 0x100,
        2 => 0x1_0000,
        3 => 0x100_0000,
        4 => 0x1_0000_0000,
        5 => 0x100_0000_0000,
        6 => 0x1_0000_0000_0000,
        _ => 0x100_0000_0000_0000,
    }
}

/// How many numbers k bytes have.
pub(crate) fn span_of(k: u8) -> u128
    requires { k ≤ 8 }
    ensures value { result ≡ span k }
    ensures small { k < 8 → result ≤ 2 ^ 56 }
    ensures positive { 0 < result }
    ensures most { result ≤ 2 ^ 64 }
{
    if k < 8 {
        u128::from(step_of(k))
    } else {
        1 << 64
    }
}

/// The least number that needs n bytes.
pub(crate) fn least_number(n: u8) -> u64
    requires { n ≤ 8 }
    ensures value { result ≡ least_of n }
    ensures small { result ≤ 2 ^ 56 }
{
    if n == 0 { 0 } else { step_of(n - 1) }
}

/// The next k bytes of a number between two bounds, and the bytes behind them.
///
/// The bytes before them begin the numbers from `least` on, below 256^k more. There are at most 8.
/// The form is that of `num_of`, this project's own.
///
/// `Bad` is at the first byte with which no number between the bounds goes on, and `Short` where
/// the bytes end before such a number does. `Memory` never comes.
#[tactic(auto, using(crate::proofs::loops::DigitsLoop::digits_facts))]
pub fn digits_of(
    bytes: &[u8],
    low: u64,
    high: u64,
    least: u64,
    k: u8,
) -> Result<(u64, &[u8]), ReadFault>
    requires { k ≤ 8 }
    ensures gives { Gives (λ x. (x.0, x.1.now)) result
        (digits_at no_kind low high k least bytes.now) }
    ensures no_memory { IfErr result (λ fault. fault ≢ Memory) }
{
    let mut number = least;
    let mut rest = bytes;
    let mut left = k;
    while left > 0 {
        let Some((b, after)) = split_byte(rest) else {
            return Err(ReadFault::Short);
        };
        let step = step_of(left - 1);
        let Some(next) = number.checked_add(u64::from(b) * step) else {
            return Err(ReadFault::Bad(rest.len()));
        };
        if next > high {
            return Err(ReadFault::Bad(rest.len()));
        }
        if step <= low.saturating_sub(next) {
            return Err(ReadFault::Bad(rest.len()));
        }
        number = next;
        rest = after;
        left -= 1;
    }
    Ok((number, rest))
}

/// The number between two bounds that begins the bytes, and the bytes behind it.
///
/// A number is one byte n, at most 8, and the n bytes of the number, the highest first, of which
/// the first is not 0; zero is a single byte 0. The form is this project's own.
///
/// `Bad` is at the first byte with which no number between the bounds goes on, and `Short` where
/// the bytes end before such a number does. `Memory` never comes.
pub fn num_of(bytes: &[u8], low: u64, high: u64) -> Result<(u64, &[u8]), ReadFault>
    requires { low ≤ high }
    ensures gives { Gives (λ x. (x.0, x.1.now)) result (num_at no_kind low high bytes.now) }
    ensures exact { TellsRest (Num low high) (λ n. n) bytes.now result }
    ensures only { (n : ℕ) (rest : List ℕ) → Takes (Num low high) bytes.now n rest
        → FindsRest (λ n. n) n rest result }
    ensures no_memory { IfErr result (λ fault. fault ≢ Memory) }
{
    front_num(bytes, low, high)
}

/// What the reader of specs/ gives.
#[tactic(auto, unfolding(crate::specs::Num::num_at))]
fn front_num(bytes: &[u8], low: u64, high: u64) -> Result<(u64, &[u8]), ReadFault>
    ensures gives { Gives (λ x. (x.0, x.1.now)) result (num_at no_kind low high bytes.now) }
    ensures no_memory { IfErr result (λ fault. fault ≢ Memory) }
{
    let [n, rest @ ..] = bytes else {
        return Err(ReadFault::Short);
    };
    let n = *n;
    if n <= 8 && least_number(n) <= high && (n == 8 || low < step_of(n)) {
        digits_of(rest, low.max(least_number(n)), high, 0, n)
    } else {
        Err(ReadFault::Bad(bytes.len()))
    }
}

#[tactic(auto, unfolding(crate::specs::Num::size))]
fn bytes_needed(x: u64) -> u8
    ensures value { result ≡ size x }
    ensures most { result ≤ 8 }
{
    if x >= 0x100_0000_0000_0000 {
        8
    } else if x >= 0x1_0000_0000_0000 {
        7
    } else if x >= 0x100_0000_0000 {
        6
    } else if x >= 0x1_0000_0000 {
        5
    } else if x >= 0x100_0000 {
        4
    } else if x >= 0x1_0000 {
        3
    } else if x >= 0x100 {
        2
    } else if x >= 1 {
        1
    } else {
        0
    }
}

#[tactic(auto, using(crate::proofs::loops::DigitsLoop::push_facts))]
fn push_digits(out: &mut Text, k: u8, x: u64) -> Result<(), AllocError>
    requires few { k ≤ 8 }
    requires fits { x < span k }
    ensures ok { OnOk result (out.new ≡ out.old ++ digits k x) }
    ensures partly { OnErr result (AddedPartly out.old (digits k x) out.new) }
{
    if k == 0 {
        return Ok(());
    }
    let step = step_of(k - 1);
    out.push((x / step) as u8)?;
    push_digits(out, k - 1, x % step)
}

/// Adds a number: one byte that says how many follow, and those bytes, the highest first.
///
/// It has at most 9 bytes. The form is this project's own. `AllocError` comes where memory ran
/// out, and a front of the number's bytes may then have been added.
#[tactic(auto, unfolding(crate::specs::Num::num))]
pub fn push_num(out: &mut Text, x: u64) -> Result<(), AllocError>
    ensures ok { OnOk result (out.new ≡ out.old ++ num x) }
    ensures partly { OnErr result (AddedPartly out.old (num x) out.new) }
{
    let n = bytes_needed(x);
    out.push(n)?;
    push_digits(out, n, x)
}
