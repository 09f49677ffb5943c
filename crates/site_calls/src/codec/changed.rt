//! What is answered to bytes that are cut or changed at each place, summed up.

use crate::codec::reading::Reading;
use do_frames::{RawFrame, Reader, StreamFault};
use std::alloc::Global;
use std::test::Fail;

/// What a sum of answers begins with.
const NO_ANSWER: u64 = 14_695_981_039_346_656_037;

/// What answers to bytes.
pub(crate) trait Answers {
    /// The answers to bytes, behind a sum.
    fn added(&self, before: u64, bytes: &[u8]) -> Result<u64, Fail>;
}

/// Payloads of one kind, to which a reader answers.
#[derive(Clone, Copy)]
pub(crate) struct Payloads<'a> {
    pub(crate) reading: &'a Reading,
    pub(crate) kind: u8,
}

/// Streams, each with a reader of its own.
#[derive(Clone, Copy)]
pub(crate) struct Stream {
    pub(crate) alloc: Global,
}

/// A sum of answers that tells their order.
fn with_answer(sum: u64, answer: u64) -> u64 {
    (sum ^ answer).wrapping_mul(1_099_511_628_211)
}

impl<'a> Answers for Payloads<'a> {
    fn added(&self, before: u64, bytes: &[u8]) -> Result<u64, Fail> {
        Ok(with_answer(before, self.reading.answer(self.kind, bytes)?))
    }
}

/// An answer of a reader of streams as a number.
fn code_of(answer: Result<Option<RawFrame>, StreamFault>) -> u64 {
    match answer {
        Ok(None) => 0,
        Ok(Some(frame)) => 1_000u64
            .wrapping_mul(u64::from(frame.kind))
            .wrapping_add(frame.payload.as_slice().len() as u64),
        Err(StreamFault::BadKind(place)) => place.wrapping_add(100_000),
        Err(StreamFault::BadLength(place)) => place.wrapping_add(200_000),
        Err(StreamFault::BadVersion(version)) => version.wrapping_add(300_000),
        Err(StreamFault::Memory) => 400_000,
    }
}

impl Answers for Stream {
    fn added(&self, before: u64, bytes: &[u8]) -> Result<u64, Fail> {
        let mut reader = Reader::new(self.alloc);
        reader.feed(bytes)?;
        let mut sum = before;
        for _answer in 0..4u8 {
            sum = with_answer(sum, code_of(reader.next()));
        }
        Ok(sum)
    }
}

/// The answers to each front of bytes, behind a sum.
fn cut<A: Answers>(answers: &A, bytes: &[u8], before: u64) -> Result<u64, Fail> {
    let mut sum = before;
    for end in 0..=bytes.len() {
        sum = answers.added(sum, &bytes[..end])?;
    }
    Ok(sum)
}

/// The answers to bytes of which one is each byte in turn, behind a sum.
fn changed_at<A: Answers>(
    alloc: Global,
    answers: &A,
    bytes: &[u8],
    at: usize,
    before: u64,
) -> Result<u64, Fail> {
    let mut changed = Vec::from_slice(alloc, bytes)?;
    let mut sum = before;
    for value in 0..=255u8 {
        if let Some(place) = changed.get_mut(at) {
            *place = value;
        }
        sum = answers.added(sum, changed.as_slice())?;
    }
    Ok(sum)
}

/// The answers to bytes that are cut at each place, and changed to each byte there, as one number
/// that tells their order.
pub(crate) fn sum_of_changes<A: Answers>(
    alloc: Global,
    answers: &A,
    bytes: &[u8],
) -> Result<u64, Fail> {
    let mut sum = cut(answers, bytes, NO_ANSWER)?;
    for at in 0..bytes.len() {
        sum = changed_at(alloc, answers, bytes, at, sum)?;
    }
    Ok(sum)
}
