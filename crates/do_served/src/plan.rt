//! Running the plan that a word gives.
ghost use Rattle.std.specs.Prelude.{◌≡◌, ◌≤◌};
ghost use Rattle.do_served.specs.Plans.{Ends, RunsGiven, status_of};

use do_base::{Shelf, Sink, Word};
use do_given::{Status, plan_given};
use do_lab::{LabEnd, Spawner, lab};
use do_plan::Plan;
use std::alloc::Global;

/// What is told of how a plan ended.
fn told_of(end: LabEnd) -> Status
    ensures { result ≡ status_of end }
{
    match end {
        LabEnd::Done => Status::Ok,
        LabEnd::ChildFailed { index, end } => Status::ChildFailed { index, end },
        LabEnd::WriteFault => Status::WriteFault,
        LabEnd::Memory => Status::Memory,
    }
}

/// Runs a plan that was given.
fn run_read<K: Sink, P: Spawner>(alloc: Global, plan: &Plan, out: &mut K, spawn: &mut P) -> Status
    ensures ended { Ends
        (record {
          told = P.told spawn.old;
          written = K.written out.old;
          spawner = P.faults spawn.old;
          output = K.faults out.old;
        })
        (record {
          told = P.told spawn.new;
          written = K.written out.new;
          spawner = P.faults spawn.new;
          output = K.faults out.new;
        }) plan.now result }
    ensures later { K.faults out.old ≤ K.faults out.new }
{
    let end = lab(alloc, plan, spawn, out);
    told_of(end)
}

/// Starts the nodes of the plan in the file of this name as children, waits for each, and writes
/// how each ended.
///
/// A file that cannot be read, that is longer than 1,048,576 bytes, or that is no plan is refused,
/// and no child is started then. `Ok` says that all children ended with 0, `ChildFailed` which was
/// the first that did not; both come with a line for each child. Where the sink fails or memory
/// runs out a prefix of the lines was written.
pub fn lab_given<H: Shelf, K: Sink, P: Spawner>(
    alloc: Global,
    plan: &Word,
    shelf: &mut H,
    out: &mut K,
    spawn: &mut P,
) -> Status
    ensures runs { RunsGiven (H.files shelf.old) (H.faults shelf.old) (H.faults shelf.new) plan.now
        (record {
          told = P.told spawn.old;
          written = K.written out.old;
          spawner = P.faults spawn.old;
          output = K.faults out.old;
        })
        (record {
          told = P.told spawn.new;
          written = K.written out.new;
          spawner = P.faults spawn.new;
          output = K.faults out.new;
        }) result }
    ensures same { H.files shelf.new ≡ H.files shelf.old }
    ensures shelf_faults { H.faults shelf.old ≤ H.faults shelf.new }
    ensures sink_faults { K.faults out.old ≤ K.faults out.new }
{
    match plan_given(alloc, plan, shelf) {
        Ok(plan) => run_read(alloc, &plan, out, spawn),
        Err(status) => status,
    }
}
