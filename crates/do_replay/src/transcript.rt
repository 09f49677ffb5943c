//! The transcript of a schedule over a network.
ghost use Rattle.std.specs.Prelude.{◌≡◌, ◌≤◌, [], List, OnOk, IsErrOf};
ghost use Rattle.do_base.specs.outside.{Bytes.{with_more, HasWritten}, Causes.Rose};
ghost use Rattle.do_lines.specs.Transcript.{transcript};
ghost use Rattle.do_machine.specs.declared.state.{Seat.Seat, State.State};
ghost use Rattle.do_machine.specs.{World.{IsWorld, opening}, check.Blocks.blocks};
ghost use Rattle.do_net.specs.{Net.{Stands, network}, OneMachine.StandsFor};
ghost use Rattle.do_network.specs.Net.{net_opening};
ghost use Rattle.do_agreement.specs.HasWires.{HasWires};
ghost use Rattle.do_replay.specs.Replayed.{WritesWithWires, net_after, state_after, wired_from};

use crate::blocks::push_block;
use do_base::{PutFail, Sink, Text};
use do_class::ClassTable;
use do_net::{Hosted, Net};
use do_output::{flush, flush_if_long};
use do_sched::Lines;
use std::alloc::Global;

/// Does what the lines say, one after another, and writes the transcript, in which each line is
/// followed by what was sent in it.
///
/// The network stands, is of these classes, and has nothing sent that was not fetched. If the sink
/// fails or memory runs out, what was written is the beginning of the transcript. From the opening
/// of a world on, the transcript is that of one local machine with what was sent put in. The
/// network that was lent is afterwards the one to which the lines lead, with nothing that was not
/// fetched, and where it stood for a state of the one machine it stands for the state after them.
pub fn write_transcript<S: Hosted, K: Sink>(
    alloc: Global,
    table: &ClassTable,
    net: &mut Net<S>,
    lines: Lines,
    out: &mut K,
) -> Result<(), PutFail>
    requires stands { Stands S.seen (S.Acts.act net.old.acts) net.old }
    requires table { net.old.table ≡ table.now }
    requires sent { net.old.wires.items ≡ [] }
    ensures ok { OnOk result (K.written out.new ≡ with_more (K.written out.old)
        (wired_from table.now (S.Acts.act net.old.acts) (network S.seen net.old) lines)) }
    ensures prefix { HasWritten (K.written out.old) (K.written out.new)
        (wired_from table.now (S.Acts.act net.old.acts) (network S.seen net.old) lines) }
    ensures one_machine { (seats : List Seat) → IsWorld table.now seats
        → network S.seen net.old ≡ net_opening table.now seats
        → OnOk result (HasWires (transcript table.now (blocks table.now (S.Acts.act net.old.acts)
        (opening table.now seats) lines))
        (wired_from table.now (S.Acts.act net.old.acts) (network S.seen net.old) lines)) }
    ensures one_machine_first { (seats : List Seat) → IsWorld table.now seats
        → network S.seen net.old ≡ net_opening table.now seats
        → WritesWithWires (K.written out.old) (K.written out.new) (transcript table.now
        (blocks table.now (S.Acts.act net.old.acts) (opening table.now seats) lines)) }
    ensures network { OnOk result (network S.seen net.new
        ≡ net_after table.now (S.Acts.act net.old.acts) (network S.seen net.old) lines) }
    ensures agrees { (state : State)
        → StandsFor table.now (S.Acts.act net.old.acts) (network S.seen net.old) state
        → OnOk result (StandsFor table.now (S.Acts.act net.old.acts) (network S.seen net.new)
        (state_after table.now (S.Acts.act net.old.acts) state lines)) }
    ensures stands { OnOk result (Stands S.seen (S.Acts.act net.new.acts) net.new) }
    ensures same_table { OnOk result (net.new.table ≡ table.now) }
    ensures acts { OnOk result (net.new.acts ≡ net.old.acts) }
    ensures fetched { OnOk result (net.new.wires.items ≡ []) }
    ensures later { K.faults out.old ≤ K.faults out.new }
    ensures failed { IsErrOf result PutFail.Failed → Rose (K.faults out.old) (K.faults out.new) }
{
    let mut waiting = Text::from_slice(alloc, b"transcript 1\n")?;
    for line in lines.into_vec() {
        push_block(alloc, table, net, line, &mut waiting)?;
        flush_if_long(&mut waiting, out)?;
    }
    waiting.push_bytes(b"> end\n")?;
    flush(&mut waiting, out)?;
    Ok(())
}
