//! What nothing can reach after a schedule over a world.
ghost use Rattle.std.specs.Prelude.{◌≡◌, IfOk, OnOk};
ghost use Rattle.do_machine.specs.{declared.state.State.State, check.Blocks.line_step};
ghost use Rattle.do_net.specs.{Net.{Stands, network}, OneMachine.StandsFor};
ghost use Rattle.do_node.specs.Replaying.{world_lost};
ghost use Rattle.do_replay.specs.Replayed.{state_after};
ghost use Rattle.do_world.specs.Sound.{IsSound};

use crate::networks::world_net;
use do_base::Text;
use do_native::Native;
use do_net::{Hosted, Net};
use do_net_lost::lost_text;
use do_replay::step_line;
use do_sched::{Line, Lines};
use do_traced::Traced;
use do_world::World;
use std::alloc::{AllocError, Global};

/// Does what a line says, and lets go of what was sent in it. Where the network stands for a state
/// of the one machine, it then stands for the state that the line leads to.
fn pass_line<S: Hosted>(alloc: Global, net: &mut Net<S>, line: Line) -> Result<(), AllocError>
    requires { Stands S.seen (S.Acts.act net.old.acts) net.old }
    ensures stands { OnOk result (Stands S.seen (S.Acts.act net.new.acts) net.new) }
    ensures one_machine { (state : State) →
        StandsFor net.old.table (S.Acts.act net.old.acts) (network S.seen net.old) state →
        OnOk result (StandsFor net.old.table (S.Acts.act net.old.acts) (network S.seen net.new)
        (line_step net.old.table (S.Acts.act net.old.acts) state line).state) }
    ensures table { OnOk result (net.new.table ≡ net.old.table) }
    ensures acts { OnOk result (net.new.acts ≡ net.old.acts) }
{
    step_line(alloc, net, line)?;
    net.clear_wires();
    Ok(())
}

/// Does what the lines say, one after another, and writes nothing.
fn pass<S: Hosted>(alloc: Global, net: &mut Net<S>, lines: Lines) -> Result<(), AllocError>
    requires { Stands S.seen (S.Acts.act net.old.acts) net.old }
    ensures stands { OnOk result (Stands S.seen (S.Acts.act net.new.acts) net.new) }
    ensures one_machine { (state : State) →
        StandsFor net.old.table (S.Acts.act net.old.acts) (network S.seen net.old) state →
        OnOk result (StandsFor net.old.table (S.Acts.act net.old.acts) (network S.seen net.new)
        (state_after net.old.table (S.Acts.act net.old.acts) state lines)) }
    ensures table { OnOk result (net.new.table ≡ net.old.table) }
    ensures acts { OnOk result (net.new.acts ≡ net.old.acts) }
{
    for line in lines.into_vec() {
        pass_line(alloc, net, line)?;
    }
    Ok(())
}

/// Replays the lines over the network of a world, and gives what nothing can reach then, as a text:
/// that of the state of the one machine after the lines.
///
/// The one error is that memory ran out, or that a number would pass what a site can count.
pub(crate) fn world_lost<S: Traced + Hosted<Acts = Native>>(
    alloc: Global,
    world: World,
    lines: Lines,
) -> Result<Text, AllocError>
    requires { IsSound world }
    ensures { IfOk result (λ text. text ≡ world_lost world lines) }
{
    let mut net = world_net::<S>(alloc, world)?;
    pass(alloc, &mut net, lines)?;
    let listed = net.snapshot()?;
    lost_text(&net, &listed)
}
