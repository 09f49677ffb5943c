//! Numbers beside some that are left out.
ghost use Rattle.std.specs.Prelude.{◌≡◌, ◌++◌, ◌≤◌, ◌<◌, ◌+◌, ◌^◌, ◌↔◌, ℕ, List, MatchOption, IfOk};
ghost use Rattle.std.specs.Prelude.{IfErr, ◌≢◌};
ghost use Rattle.do_grammar.specs.{declared.fault.ReadFault.TheVariants.Memory, Num.{span, num}};
ghost use Rattle.do_grammar.specs.{Grammar.Takes, OneSpelling.Spelled};
ghost use Rattle.do_grammar.specs.{RestAnswers.{Gives, TellsRest, FindsRest}, BesideHoles.is_hole};
ghost use Rattle.do_grammar.specs.BesideHoles.{next_beside, digits_beside, num_beside, IsBeside};

use crate::byte::split_byte;
use crate::fault::ReadFault;
use crate::number::{least_number, num_of, span_of};

/// Whether a number is left out.
fn has(holes: &[u64], n: u64) -> bool
    ensures { result ≡ is_hole holes.now n }
{
    match holes {
        [] => false,
        [first, rest @ ..] => *first == n || has(rest, n),
    }
}

/// The least number from one to another that is not left out; none where each of them is.
#[tactic(auto, using(crate::proofs::texts::NextBeside::holes_laws))]
fn next_free(holes: &[u64], from: u64, high: u64) -> Option<u64>
    ensures { MatchOption result (high < next_beside holes.now from)
        (λ n. (n ≡ next_beside holes.now from) × (n ≤ high)) }
{
    if from > high {
        return None;
    }
    if !has(holes, from) {
        return Some(from);
    }
    if from == high {
        return None;
    }
    next_free(holes, from + 1, high)
}

/// The next k bytes of such a number, of which the bytes before begin the numbers from least on.
#[tactic(auto, using(crate::proofs::loops::BesideLoop::steps))]
fn beside_digits_of<'a>(
    holes: &[u64],
    bytes: &'a [u8],
    low: u64,
    high: u64,
    least: u64,
    k: u8,
) -> Result<(u64, &'a [u8]), ReadFault>
    requires { k ≤ 8 }
    ensures gives { Gives (λ x. (x.0, x.1.now)) result
        (digits_beside holes.now low high k least bytes.now) }
    ensures no_memory { IfErr result (λ fault. fault ≢ Memory) }
{
    if k == 0 {
        return Ok((least, bytes));
    }
    let Some((b, after)) = split_byte(bytes) else {
        return Err(ReadFault::Short);
    };
    let step = span_of(k - 1);
    let next = u128::from(least) + u128::from(b) * step;
    if next > u128::from(high) {
        return Err(ReadFault::Bad(bytes.len()));
    }
    let next = next as u64;
    match next_free(holes, low.max(next), high) {
        Some(free) if u128::from(free) < u128::from(next) + step => {
            beside_digits_of(holes, after, low, high, next, k - 1)
        }
        _ => Err(ReadFault::Bad(bytes.len())),
    }
}

/// The number between two bounds, and none of `holes`, that begins the bytes, and what follows it.
///
/// Some such number exists. It is spelled as `num_of` says; the form is this project's own.
///
/// `Bad` is at the first byte with which no such number goes on, and `Short` where the bytes end
/// before one does. `Memory` never comes. A number is read as fast as by `num_of`; a fault takes
/// time by the square of the number of holes.
pub fn num_beside_of<'a>(
    bytes: &'a [u8],
    low: u64,
    high: u64,
    holes: &[u64],
) -> Result<(u64, &'a [u8]), ReadFault>
    requires { next_beside holes.now low ≤ high }
    ensures gives { Gives (λ x. (x.0, x.1.now)) result (num_beside holes.now low high bytes.now) }
    ensures exact { TellsRest (Spelled num (IsBeside holes.now low high))
        (λ n. n) bytes.now result }
    ensures only { (n : ℕ) (rest : List ℕ)
        → Takes (Spelled num (IsBeside holes.now low high)) bytes.now n rest
        → FindsRest (λ n. n) n rest result }
    ensures no_memory { IfErr result (λ fault. fault ≢ Memory) }
{
    front_num(bytes, low, high, holes)
}

/// What the reader of specs/ gives.
#[tactic(auto, using(crate::proofs::loops::BesideLoop::fast))]
fn front_num<'a>(
    bytes: &'a [u8],
    low: u64,
    high: u64,
    holes: &[u64],
) -> Result<(u64, &'a [u8]), ReadFault>
    requires { low ≤ high }
    ensures gives { Gives (λ x. (x.0, x.1.now)) result (num_beside holes.now low high bytes.now) }
    ensures no_memory { IfErr result (λ fault. fault ≢ Memory) }
{
    if let Ok((n, rest)) = num_of(bytes, low, high) {
        if !has(holes, n) {
            return Ok((n, rest));
        }
    }
    slow_num(bytes, low, high, holes)
}

/// The same byte by byte, for the place of a fault.
#[tactic(auto, using(crate::proofs::loops::BesideLoop::sizes))]
fn slow_num<'a>(
    bytes: &'a [u8],
    low: u64,
    high: u64,
    holes: &[u64],
) -> Result<(u64, &'a [u8]), ReadFault>
    ensures gives { Gives (λ x. (x.0, x.1.now)) result (num_beside holes.now low high bytes.now) }
    ensures no_memory { IfErr result (λ fault. fault ≢ Memory) }
{
    let Some((n, rest)) = split_byte(bytes) else {
        return Err(ReadFault::Short);
    };
    if n > 8 {
        return Err(ReadFault::Bad(bytes.len()));
    }
    let from = low.max(least_number(n));
    match next_free(holes, from, high) {
        Some(free) => {
            if u128::from(free) < span_of(n) {
                beside_digits_of(holes, rest, from, high, 0, n)
            } else {
                Err(ReadFault::Bad(bytes.len()))
            }
        }
        None => Err(ReadFault::Bad(bytes.len())),
    }
}
