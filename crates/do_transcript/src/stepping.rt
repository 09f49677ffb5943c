//! What a line of a schedule does to a machine.
ghost use Rattle.std.specs.Prelude.{◌≡◌, ◌||◌, ◌++◌, OnOk, IfOk};
ghost use Rattle.do_sched.specs.declared.line.Line.TheVariants.{Run};
ghost use Rattle.do_machine.specs.check.Blocks.{line_step};

use do_base::{Event, Items, NodeId};
use do_behave::Behaviour;
use do_local::Local;
use do_sched::Line;
use do_trace::Outcome;
use std::alloc::{AllocError, Global};

/// Adds what a further step came to: enabled where either was, and what both showed.
fn join(all: &mut Outcome, outcome: Outcome) -> Result<(), AllocError>
    ensures { OnOk result (all.new
        ≡ record {
          enabled = all.old.enabled || outcome.enabled;
          shown = all.old.shown
              ++ outcome.shown;
        }) }
{
    let Outcome { enabled, shown } = outcome;
    all.shown.append(shown)?;
    if enabled {
        all.enabled = true;
    }
    Ok(())
}

/// `count` steps of a node's top invocation: what they showed, one after another, enabled
/// where one of them was.
fn run_steps<B: Behaviour + Drop>(
    alloc: Global,
    local: &mut Local<B>,
    node: NodeId,
    count: u64,
) -> Result<Outcome, AllocError>
    ensures outcome { IfOk result (λ outcome. outcome ≡ (line_step local.old.table
        (B.act local.old.behaviour) local.old.state (Run node count)).outcome) }
    ensures state { OnOk result (local.new ≡ record local.old {
      state = (line_step local.old.table
          (B.act local.old.behaviour) local.old.state (Run node count)).state;
    }) }
{
    let event = Event::Run { node };
    let mut all = Outcome {
        enabled: false,
        shown: Items::new(alloc),
    };
    for _step in 0..count {
        let outcome = local.step(&event)?;
        join(&mut all, outcome)?;
    }
    Ok(all)
}

/// What a line does: one event, or several single steps of a node.
pub fn step_line<B: Behaviour + Drop>(
    alloc: Global,
    local: &mut Local<B>,
    line: Line,
) -> Result<Outcome, AllocError>
    ensures outcome { IfOk result (λ outcome. outcome ≡ (line_step local.old.table
        (B.act local.old.behaviour) local.old.state line).outcome) }
    ensures state { OnOk result (local.new ≡ record local.old {
      state = (line_step local.old.table
          (B.act local.old.behaviour) local.old.state line).state;
    }) }
{
    match line {
        Line::Start {
            node,
            selector,
            values,
        } => local.step(&Event::Start {
            node,
            selector,
            values,
        }),
        Line::Run { node, count } => run_steps(alloc, local, node, count),
        Line::Take { node, from } => local.step(&Event::Take { node, from }),
        Line::Close { node, peer } => local.step(&Event::Close { node, peer }),
        Line::Lose { from, to, after } => local.step(&Event::Lose { from, to, after }),
        Line::Timeout { node } => local.step(&Event::Timeout { node }),
        Line::Check => local.step(&Event::Check),
    }
}
