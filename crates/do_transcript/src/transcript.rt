//! The transcript of a schedule over a machine.
ghost use Rattle.std.specs.Prelude.{◌≡◌, ◌≤◌, OnOk, IsErrOf};
ghost use Rattle.do_base.specs.outside.{Bytes.{with_more, HasWritten}, Causes.Rose};
ghost use Rattle.do_transcript.specs.Transcript.{transcript_from};

use crate::blocks::push_block;
use do_base::{PutFail, Sink, Text};
use do_behave::Behaviour;
use do_local::Local;
use do_output::{flush, flush_if_long};
use do_sched::Lines;
use std::alloc::Global;

/// Does what the lines say, one after another, and writes the transcript.
///
/// If the sink fails or memory runs out, what was written is the beginning of the transcript.
pub fn write_transcript<B: Behaviour + Drop, K: Sink>(
    alloc: Global,
    local: &mut Local<B>,
    lines: Lines,
    out: &mut K,
) -> Result<(), PutFail>
    ensures ok { OnOk result (K.written out.new ≡ with_more (K.written out.old)
        (transcript_from local.old.table (B.act local.old.behaviour) local.old.state lines)) }
    ensures prefix { HasWritten (K.written out.old) (K.written out.new)
        (transcript_from local.old.table (B.act local.old.behaviour) local.old.state lines) }
    ensures later { K.faults out.old ≤ K.faults out.new }
    ensures failed { IsErrOf result PutFail.Failed → Rose (K.faults out.old) (K.faults out.new) }
{
    let mut waiting = Text::from_slice(alloc, b"transcript 1\n")?;
    for line in lines.into_vec() {
        push_block(alloc, local, line, &mut waiting)?;
        flush_if_long(&mut waiting, out)?;
    }
    waiting.push_bytes(b"> end\n")?;
    flush(&mut waiting, out)?;
    Ok(())
}
