//! Starts and plans as the words of a command give them.
ghost use Rattle.do_given.specs.declared.status.Status as declared;
ghost use Rattle.std.specs.Prelude.{◌≡◌, ◌≤◌, ℕ, List, Ok, Err, IfOk, IfErr, Some};
ghost use Rattle.do_base.specs.declared.outside.shelf.NamedFile.{NamedFile};
ghost use Rattle.do_plan.specs.{Form.IsText, Plan.plan_form, Starts.starts_form};
ghost use Rattle.do_plan.specs.declared.{plan.PlanLine.PlanLine, starts.StartLine.StartLine};
ghost use Rattle.do_given.specs.{Files.IsUnread, Reading.{OrMemory, OrUnread, Stops}};
ghost use Rattle.do_given.specs.Serving.{IsNoText, SaysNoText, SaysPlan, SaysStarts};

use crate::fetching::fetch_within;
use crate::schedules::told_of;
use crate::status::Status;
use do_base::{Shelf, Word};
use do_plan::{Plan, Starts, read_plan, read_starts};
use std::alloc::Global;

/// The most bytes of a file of starts, and of a plan's.
const MOST_BYTES: u64 = 1_048_576;

/// The starts that these bytes are.
fn starts_of(alloc: Global, bytes: &[u8]) -> Result<Starts, Status>
    ensures says { IfOk result (IsText starts_form bytes.now) }
    ensures stopped { IfErr result (Stops ⊥ ⊥ (IsNoText starts_form bytes.now)) }
    ensures accepts { (lines : List StartLine) → IsText starts_form bytes.now lines
        → OrMemory (Ok lines) result }
    ensures refuses { (status : declared.Status) → IsNoText starts_form bytes.now status
        → OrMemory (Err status) result }
{
    match read_starts(alloc, bytes) {
        Ok(starts) => Ok(starts),
        Err(fault) => Err(told_of(fault)),
    }
}

/// The plan that these bytes are.
fn plan_of(alloc: Global, bytes: &[u8]) -> Result<Plan, Status>
    ensures says { IfOk result (IsText plan_form bytes.now) }
    ensures stopped { IfErr result (Stops ⊥ ⊥ (IsNoText plan_form bytes.now)) }
    ensures accepts { (lines : List PlanLine) → IsText plan_form bytes.now lines
        → OrMemory (Ok lines) result }
    ensures refuses { (status : declared.Status) → IsNoText plan_form bytes.now status
        → OrMemory (Err status) result }
{
    match read_plan(alloc, bytes) {
        Ok(plan) => Ok(plan),
        Err(fault) => Err(told_of(fault)),
    }
}

/// The starts that are in the file of this name.
pub(crate) fn starts_given<H: Shelf>(
    alloc: Global,
    name: &Word,
    shelf: &mut H,
) -> Result<Starts, Status>
    ensures says { IfOk result (SaysStarts (H.files shelf.old) name.now) }
    ensures stopped { IfErr result (Stops
        (IsUnread (H.files shelf.old) (H.faults shelf.old) (H.faults shelf.new) name.now) ⊥
        (SaysNoText starts_form (H.files shelf.old) name.now)) }
    ensures accepts { (files : List NamedFile) (lines : List StartLine)
        → H.files shelf.old ≡ Some files
        → SaysStarts (Some files) name.now lines → OrUnread (Ok lines) result }
    ensures refuses { (files : List NamedFile) (status : declared.Status)
        → H.files shelf.old ≡ Some files
        → SaysNoText starts_form (Some files) name.now status → OrUnread (Err status) result }
    ensures same { H.files shelf.new ≡ H.files shelf.old }
    ensures later { H.faults shelf.old ≤ H.faults shelf.new }
{
    let bytes = fetch_within(name, MOST_BYTES, shelf)?;
    starts_of(alloc, bytes.as_slice())
}

/// The plan that is in the file of this name.
pub fn plan_given<H: Shelf>(alloc: Global, name: &Word, shelf: &mut H) -> Result<Plan, Status>
    ensures says { IfOk result (SaysPlan (H.files shelf.old) name.now) }
    ensures stopped { IfErr result (Stops
        (IsUnread (H.files shelf.old) (H.faults shelf.old) (H.faults shelf.new) name.now) ⊥
        (SaysNoText plan_form (H.files shelf.old) name.now)) }
    ensures accepts { (files : List NamedFile) (lines : List PlanLine)
        → H.files shelf.old ≡ Some files
        → SaysPlan (Some files) name.now lines → OrUnread (Ok lines) result }
    ensures refuses { (files : List NamedFile) (status : declared.Status)
        → H.files shelf.old ≡ Some files
        → SaysNoText plan_form (Some files) name.now status → OrUnread (Err status) result }
    ensures same { H.files shelf.new ≡ H.files shelf.old }
    ensures later { H.faults shelf.old ≤ H.faults shelf.new }
{
    let bytes = fetch_within(name, MOST_BYTES, shelf)?;
    plan_of(alloc, bytes.as_slice())
}
