//! The summary of a schedule over a world.
ghost use Rattle.std.specs.Prelude.{◌≡◌, IfOk, OnOk};
ghost use Rattle.do_world.specs.Sound.{IsSound};
ghost use Rattle.do_node.specs.{OneMachine.ComesAsOne, Replaying.world_summary};

use crate::networks::net_of;
use do_base::Text;
use do_given::parts_of;
use do_make::{push_summary, summary};
use do_native::Native;
use do_net::Hosted;
use do_sched::Lines;
use do_world::World;
use std::alloc::{AllocError, Global};

/// Replays the lines over the network of a world, and gives the summary, as a text. The lines come
/// to what they come to in one local machine.
///
/// The one error is that memory ran out, or that a number would pass what a site or the summary can
/// count.
pub fn summary_text<S: Hosted<Acts = Native>>(
    alloc: Global,
    world: World,
    lines: Lines,
) -> Result<Text, AllocError>
    requires { IsSound world }
    ensures text { IfOk result (λ text. text ≡ world_summary world lines) }
    ensures one_machine { OnOk result (ComesAsOne world lines) }
{
    let parts = parts_of(alloc, world)?;
    let mut net = net_of::<S>(parts)?;
    let sum = summary(alloc, &mut net, lines)?;
    let mut text = Text::new(alloc);
    push_summary(&mut text, &sum)?;
    Ok(text)
}
