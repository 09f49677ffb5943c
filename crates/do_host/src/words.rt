//! The words of the command line, as bytes.
ghost use Rattle.std.specs.{Prelude.{◌≤◌, length, IfOk}, List.All};

use do_base::{Text, Texts};
use std::alloc::{AllocError, Global};
use std::env::{Env, FillError};

// Linux gives a program words of up to 131,071 bytes.
const LONGEST: usize = 131_072;

/// The words after the program's name, each as its bytes, in order.
///
/// A word need not be UTF-8. Of a word over 131,072 bytes the first 131,072 are given; Linux gives
/// none that long. It follows the list of arguments of the C standard, with its limit on Linux.
///
/// No clause says which words these are, since no contract can see what the system gives.
pub fn read_words(alloc: Global, rt: &impl Env) -> Result<Texts, AllocError>
    ensures { IfOk result (λ words. All (λ word. length word ≤ 131072) words) }
{
    words_within(alloc, rt, LONGEST)
}

// The words after the program's name, of each no more than its first `longest` bytes.
#[tactic(auto, using(crate::proofs::KnownBytes::short_push))]
fn words_within(alloc: Global, rt: &impl Env, longest: usize) -> Result<Texts, AllocError>
    ensures { IfOk result (λ words. All (λ word. length word ≤ longest) words) }
{
    let mut words = Texts::new(alloc);
    let mut word = vec![in alloc; 0u8; longest]?;
    for i in 1..u64::MAX as usize {
        match rt.arg(i, word.as_mut_slice()) {
            Ok(count) => words.push(Text::from_slice(alloc, &word[..count])?)?,
            Err(FillError::NotPresent) => break,
            Err(FillError::TooLong) => words.push(Text::from_slice(alloc, word.as_slice())?)?,
        }
    }
    Ok(words)
}
