//! A grammar of our own, from its definition to its reader, and its calls: two numbers from 1 to 9
//! in order.

ghost use Rattle.std.specs.Prelude.{◌≡◌, ℕ, List, ◌++◌, length};
ghost use Rattle.do_grammar.specs.{Reader.no_kind, RestAnswers.Gives, PlaceAnswers.{Tells, Finds}};
ghost use Rattle.text_calls.specs.Pair.{Pair, pair_at};

use call_rows::{Part, count_value, no_call, printed, text_at, triple_value};
use do_base::{Value, Values};
use do_grammar::{CodeFault, ReadFault, is_text, num_of};
use std::alloc::Global;
use std::test::Fail;

/// Two numbers that begin the bytes, the second not below the first, and the bytes behind them.
#[tactic(auto, unfolding(crate::specs::Pair::pair_at))]
fn pair_of(bytes: &[u8]) -> Result<((u64, u64), &[u8]), ReadFault>
    ensures { Gives (λ x. (x.0, x.1.now)) result (pair_at no_kind bytes.now) }
{
    let (first, rest) = num_of(bytes, 1, 9)?;
    let (second, rest) = num_of(rest, first, 9)?;
    Ok(((first, second), rest))
}

/// Reads the two numbers that begin the bytes, with the length of their spelling.
pub fn read_pair(bytes: &[u8]) -> Result<((u64, u64), usize), CodeFault>
    ensures exact { Tells Pair (λ x. x) bytes.now result }
    ensures only { (text rest : List ℕ) (v : ℕ × ℕ) → Pair text v → bytes.now ≡ text ++ rest
        → Finds (λ x. x) v (length text) result }
{
    match pair_of(bytes) {
        Ok((pair, rest)) => Ok((pair, bytes.len() - rest.len())),
        Err(ReadFault::Short) => Err(CodeFault::Short),
        Err(ReadFault::Bad(left)) => Err(CodeFault::Bad(bytes.len() - left)),
        Err(ReadFault::Memory) => Err(CodeFault::Memory),
    }
}

/// The reader of pairs.
#[derive(Drop)]
pub(crate) struct PairCalls {
    alloc: Global,
}

/// Two numbers and a length.
fn pair_found(alloc: Global, pair: (u64, u64), length: usize) -> Result<Value, Fail> {
    let first = Value::Num(i64::try_from(pair.0)?);
    let second = Value::Num(i64::try_from(pair.1)?);
    let length = count_value(length)?;
    triple_value(alloc, first, second, length)
}

impl PairCalls {
    /// Calls that take memory here.
    pub(crate) fn new(alloc: Global) -> PairCalls {
        PairCalls { alloc }
    }
}

impl Part for PairCalls {
    fn call(&mut self, word: &[u8], args: &Values) -> Result<Value, Fail> {
        if !is_text(word, b"pair") {
            return no_call();
        }
        match read_pair(text_at(args, 0)?.as_slice()) {
            Ok((pair, length)) => pair_found(self.alloc, pair, length),
            Err(fault) => printed(self.alloc, fault),
        }
    }
}
