//! A network whose nodes each count the acts that they are asked for.
ghost use Rattle.std.specs.Prelude.{◌≡◌, ◌<◌, IfOk, length};
ghost use Rattle.do_behave.specs.Script.{script};
ghost use Rattle.do_net.specs.Net.{AreAlike};
ghost use Rattle.whole_runs.specs.Counters.{AreOf};

use crate::counting::Counting;
use do_base::{CallList, MemSink};
use do_behave::Program;
use do_class::ClassTable;
use do_machine::{Seats, Shared};
use do_net::{Makers, Net};
use do_replay::write_transcript;
use do_sched::Lines;
use do_site::Site;
use std::alloc::{AllocError, Global};
use std::test::Fail;

/// A behaviour of its own for each node, all of one program.
#[tactic(auto, using(crate::proofs::Alike::counts_more))]
pub(crate) fn counters(
    program: &Shared<Program>,
    nodes: &Seats,
) -> Result<Makers<Counting>, AllocError>
    ensures each { IfOk result (λ makers. length makers ≡ length nodes.now) }
    ensures one { IfOk result (λ makers. AreOf program.now makers) }
{
    let alloc = nodes.allocator();
    let mut makers = Makers::new(alloc);
    for _node in nodes.as_slice() {
        let counting = Counting::new(program.clone()?);
        makers.push(Shared::new(alloc, counting)?)?;
    }
    Ok(makers)
}

/// Replays the lines over the network of these nodes, of which each has its own behaviour.
pub(crate) fn replay(
    table: &Shared<ClassTable>,
    nodes: &Seats,
    makers: &Makers<Counting>,
    lines: Lines,
) -> Result<(), Fail>
    requires some { 0 < length makers.now }
    requires each { length makers.now ≡ length nodes.now }
    requires alike { AreAlike (λ c. script c.program) makers.now }
{
    let alloc = nodes.allocator();
    let mut sink = MemSink::new(alloc, CallList::new(alloc))?;
    let mut net: Net<Site<Counting>> = Net::new(table.clone()?, nodes, makers)?;
    match write_transcript(alloc, table.get(), &mut net, lines, &mut sink) {
        Ok(()) => Ok(()),
        Err(_) => Err("not whole".into()),
    }
}
