//! Outputs.

use crate::faulty::Faulty;
use do_base::{PutFail, Sink, Text};
use do_host::StdSink;
use std::alloc::Global;
use std::fs;
use std::io::ErrorKind;
use std::test::Fail;

/// What a put of three bytes into a file comes to.
fn put_into(rt: &HostRuntime, name: &str) -> Result<Result<usize, PutFail>, Fail> {
    let mut sink = StdSink::new(fs::create(rt, name)?);
    Ok(sink.put(b"abc"))
}

/// Whether a file takes three bytes and has them, and a full one takes none.
pub(crate) fn puts_what_a_file_takes(rt: HostRuntime) -> Result<bool, Fail> {
    let taken = put_into(&rt, "written")? == Ok(3);
    let full = put_into(&rt, "/dev/full")? == Err(PutFail::Failed);
    let written = fs::read_to_string(&rt, "written")?;
    Ok(taken && full && written.as_str() == "abc")
}

/// Whether a put into an output that answers an error twice comes to this, and it has these bytes.
fn comes_to(output: &mut Faulty, taken: Result<usize, PutFail>, bytes: &[u8]) -> bool {
    let put = StdSink::new(&mut *output).put(b"abc");
    put == taken && output.bytes().is(bytes)
}

/// Whether a write is tried again after a signal, and fails at any other error.
pub(crate) fn puts_again_after_a_signal(alloc: Global) -> Result<bool, Fail> {
    let mut output = Faulty::new(ErrorKind::Interrupted, Text::new(alloc));
    let mut closed = Faulty::new(ErrorKind::BrokenPipe, Text::new(alloc));
    let again = comes_to(&mut output, Ok(3), b"abc");
    Ok(again && comes_to(&mut closed, Err(PutFail::Failed), b""))
}
