//! The summary of a schedule over a network.
ghost use Rattle.std.specs.Prelude.{◌≡◌, [], List, OnOk, IfOk, map};
ghost use Rattle.do_agreement.specs.Along.{EventsSendSpelled};
ghost use Rattle.do_machine.specs.declared.state.{Seat.Seat, State.State};
ghost use Rattle.do_machine.specs.{World.{IsWorld, opening}, check.Blocks.{blocks, events_of}};
ghost use Rattle.do_make.specs.Summary.{summary_of, with_block};
ghost use Rattle.do_net.specs.{Net.{Stands, network}, OneMachine.StandsFor};
ghost use Rattle.do_network.specs.{Net.net_opening, Wired.{net_blocks, net_line_step, wired_block}};
ghost use Rattle.do_replay.specs.Replayed.{net_after, state_after};

use crate::adding::{add_listed, add_outcome, add_wires};
use crate::counts::Summary;
use do_net::{Hosted, Net};
use do_replay::{listed_at, step_line};
use do_sched::{Line, Lines};
use std::alloc::{AllocError, Global};

/// Does what a line says, and adds what it came to.
fn add_line<S: Hosted>(
    alloc: Global,
    net: &mut Net<S>,
    line: Line,
    sum: &mut Summary,
) -> Result<(), AllocError>
    requires stands { Stands S.seen (S.Acts.act net.old.acts) net.old }
    requires sent { net.old.wires.items ≡ [] }
    ensures sum { OnOk result (sum.new ≡ with_block sum.old (wired_block line
        (net_line_step net.old.table (S.Acts.act net.old.acts) (network S.seen net.old) line))) }
    ensures net { OnOk result (network S.seen net.new ≡ (net_line_step net.old.table
        (S.Acts.act net.old.acts) (network S.seen net.old) line).net) }
    ensures spelled { OnOk result (EventsSendSpelled net.old.table (S.Acts.act net.old.acts)
        (network S.seen net.old) (events_of line)) }
    ensures stands { OnOk result (Stands S.seen (S.Acts.act net.new.acts) net.new) }
    ensures table { OnOk result (net.new.table ≡ net.old.table) }
    ensures acts { OnOk result (net.new.acts ≡ net.old.acts) }
    ensures sent { OnOk result (net.new.wires.items ≡ []) }
{
    let listed = listed_at(net, &line)?;
    let outcome = step_line(alloc, net, line)?;
    add_outcome(sum, &outcome)?;
    add_listed(sum, &listed)?;
    add_wires(sum, net)
}

/// Does what the lines say, one after another, and counts what they come to.
///
/// The network stands, and has nothing sent that was not fetched. From the opening of a world on,
/// the lines come to what they come to in one local machine. The network that was lent is then the
/// one to which the lines lead, and where it stood for a state of the one machine it stands for the
/// state after them. The one error is that memory ran out, or that a number would pass 64 bits.
pub fn summary<S: Hosted>(
    alloc: Global,
    net: &mut Net<S>,
    lines: Lines,
) -> Result<Summary, AllocError>
    requires stands { Stands S.seen (S.Acts.act net.old.acts) net.old }
    requires sent { net.old.wires.items ≡ [] }
    ensures sum { IfOk result (λ sum. sum ≡ summary_of (net_blocks net.old.table
        (S.Acts.act net.old.acts) (network S.seen net.old) lines)) }
    ensures one_machine { (seats : List Seat) → IsWorld net.old.table seats
        → network S.seen net.old ≡ net_opening net.old.table seats
        → OnOk result (map (λ b. b.block) (net_blocks net.old.table (S.Acts.act net.old.acts)
        (network S.seen net.old) lines) ≡ blocks net.old.table (S.Acts.act net.old.acts)
        (opening net.old.table seats) lines) }
    ensures network { OnOk result (network S.seen net.new ≡ net_after net.old.table
        (S.Acts.act net.old.acts) (network S.seen net.old) lines) }
    ensures agrees { (state : State)
        → StandsFor net.old.table (S.Acts.act net.old.acts) (network S.seen net.old) state
        → OnOk result (StandsFor net.old.table (S.Acts.act net.old.acts) (network S.seen net.new)
        (state_after net.old.table (S.Acts.act net.old.acts) state lines)) }
    ensures stands { OnOk result (Stands S.seen (S.Acts.act net.new.acts) net.new) }
    ensures same_table { OnOk result (net.new.table ≡ net.old.table) }
    ensures acts { OnOk result (net.new.acts ≡ net.old.acts) }
    ensures fetched { OnOk result (net.new.wires.items ≡ []) }
{
    let mut sum = Summary::new();
    for line in lines.into_vec() {
        add_line(alloc, net, line, &mut sum)?;
    }
    Ok(sum)
}
