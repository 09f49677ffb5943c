//! The ways in which a line of words is run, and what is told of it.

use crate::narrow::Narrow;
use crate::outside::Outside;
use crate::told::told_with;
use call_rows::{count_value, text_at};
use do_base::{Text, Value, Values};
use do_native_acts::as_number;
use do_node::Status;
use std::alloc::AllocError;
use std::test::Fail;

/// A way in which a line of words is run.
#[derive(Clone, Copy)]
pub(crate) enum Way {
    Run,
    Narrow,
    Size,
    Begins,
    Again,
    Cut,
}

/// The words of the ways.
pub(crate) const WAYS: [(&[u8], Way); 6] = [
    (b"run", Way::Run),
    (b"narrow", Way::Narrow),
    (b"size", Way::Size),
    (b"begins", Way::Begins),
    (b"again", Way::Again),
    (b"cut", Way::Cut),
];

impl Outside {
    /// Runs a line of words over an output that takes so many bytes, one at a time.
    fn run_narrow(&mut self, line: &[u8], left: u64) -> Result<(), AllocError> {
        let mut out = Narrow::new(self.alloc, left);
        self.run_over(line, &mut out)?;
        self.keep(out.taken())
    }

    /// Runs a line of words over an output that fails behind these bytes, which must be written.
    fn run_cut(&mut self, line: &[u8], front: &[u8]) -> Result<(), Fail> {
        self.link_again()?;
        self.run_narrow(line, front.len() as u64)?;
        if !matches!(&self.status, Status::WriteFault) || !self.written.is(front) {
            return Err(Fail::from("no front"));
        }
        Ok(())
    }

    /// Runs a line of words over outputs that fail at each byte of a text in turn.
    fn run_each_cut(&mut self, line: &[u8], whole: &Text) -> Result<Value, Fail> {
        for at in 0..whole.len() {
            self.run_cut(line, &whole.as_slice()[..at])?;
        }
        count_value(whole.len())
    }

    /// Runs a line of words over outputs that fail at each byte in turn, and tells how many it
    /// writes in all.
    fn cut(&mut self, line: &[u8]) -> Result<Value, Fail> {
        self.run_narrow(line, u64::MAX)?;
        let whole = self.written.clone()?;
        self.run_each_cut(line, &whole)
    }

    /// What the last command came to, and what it wrote.
    fn told_whole(&self) -> Result<Value, Fail> {
        told_with(self.alloc, &self.status, Value::Text(self.written.clone()?))
    }

    /// What the last command came to, and a number.
    pub(crate) fn told_number(&self, number: Value) -> Result<Value, Fail> {
        told_with(self.alloc, &self.status, number)
    }

    /// Runs a line of words again, and tells whether the same is written as last time.
    fn is_again(&mut self, line: &[u8]) -> Result<Value, Fail> {
        let last = self.written.clone()?;
        self.run(line)?;
        Ok(as_number(self.written.is(last.as_slice())))
    }

    /// Runs a line of words, and tells what it wrote.
    fn run_whole(&mut self, line: &[u8]) -> Result<Value, Fail> {
        self.run(line)?;
        self.told_whole()
    }

    /// The same over an output that takes a byte at a time.
    fn run_bytes(&mut self, line: &[u8]) -> Result<Value, Fail> {
        self.run_narrow(line, u64::MAX)?;
        self.told_whole()
    }

    /// Runs a line of words, and tells how many bytes it wrote.
    fn size(&mut self, line: &[u8]) -> Result<Value, Fail> {
        self.run(line)?;
        self.told_number(count_value(self.written.len())?)
    }

    /// Whether a line of words writes a text that begins with the second.
    fn begins(&mut self, line: &[u8], args: &Values) -> Result<Value, Fail> {
        let front = text_at(args, 1)?;
        self.run(line)?;
        Ok(as_number(self.written.as_slice().starts_with(front.as_slice())))
    }

    /// Runs the line of words that a call has.
    pub(crate) fn run_by(&mut self, way: Way, args: &Values) -> Result<Value, Fail> {
        let line = text_at(args, 0)?.as_slice();
        match way {
            Way::Run => self.run_whole(line),
            Way::Narrow => self.run_bytes(line),
            Way::Size => self.size(line),
            Way::Begins => self.begins(line, args),
            Way::Again => self.is_again(line),
            Way::Cut => self.cut(line),
        }
    }
}
