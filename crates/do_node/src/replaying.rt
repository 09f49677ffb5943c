//! A schedule replayed over a world.
ghost use Rattle.std.specs.Prelude.{◌≡◌, ◌≤◌, OnOk, IsErrOf};
ghost use Rattle.do_base.specs.outside.{Bytes.{with_more, HasWritten}, Causes.Rose};
ghost use Rattle.do_world.specs.Sound.{IsSound};
ghost use Rattle.do_agreement.specs.HasWires.{HasWires};
ghost use Rattle.do_replay.specs.Replayed.{WritesWithWires};
ghost use Rattle.do_node.specs.Replaying.{world_transcript, world_wired};

use crate::networks::net_of;
use do_base::{PutFail, Sink};
use do_given::parts_of;
use do_native::Native;
use do_net::Hosted;
use do_replay::write_transcript;
use do_sched::Lines;
use do_world::World;
use std::alloc::Global;

/// Replays the lines over the network of a world, and writes the transcript, in which each line is
/// followed by what was sent in it. It is the transcript of one local machine with lines `wire ..`
/// put between its lines.
pub fn replay<S: Hosted<Acts = Native>, K: Sink>(
    alloc: Global,
    world: World,
    lines: Lines,
    out: &mut K,
) -> Result<(), PutFail>
    requires { IsSound world }
    ensures ok { OnOk result
        (K.written out.new ≡ with_more (K.written out.old) (world_wired world lines)) }
    ensures prefix { HasWritten (K.written out.old) (K.written out.new)
        (world_wired world lines) }
    ensures one_machine { OnOk result
        (HasWires (world_transcript world lines) (world_wired world lines)) }
    ensures one_machine_first { WritesWithWires (K.written out.old) (K.written out.new)
        (world_transcript world lines) }
    ensures later { K.faults out.old ≤ K.faults out.new }
    ensures failed { IsErrOf result PutFail.Failed → Rose (K.faults out.old) (K.faults out.new) }
{
    let parts = parts_of(alloc, world)?;
    let table = parts.table.clone()?;
    let mut net = net_of::<S>(parts)?;
    write_transcript(alloc, table.get(), &mut net, lines, out)
}
