ghost use Rattle.do_given.specs.declared.status.Status as declared;
ghost use Rattle.std.specs.Prelude.{◌≡◌, ◌≤◌, ℕ, List, Ok, Err, IfOk, IfErr, Some};
ghost use Rattle.do_base.specs.declared.outside.shelf.NamedFile.{NamedFile};
ghost use Rattle.do_sched.specs.{Schedule.IsSchedule, declared.line.Line.Line};
ghost use Rattle.do_sched.specs.declared.version.Version.TheVariants.{First, Second};
ghost use Rattle.do_given.specs.Files.{IsUnread};
ghost use Rattle.do_given.specs.Reading.{IsNoSchedule, IsUpgrade, IsUpgraded, OrMemory, OrUnread};
ghost use Rattle.do_given.specs.Reading.{SaysLines, SaysNoLines, Stops, told_of};

use crate::fetching::fetch_within;
use crate::status::Status;
use do_base::{Shelf, Text, Word};
use do_sched::{Lines, SchedFault, read_schedule, upgrade};
use std::alloc::Global;

/// The most bytes of a schedule's file.
const MOST_BYTES: u64 = 67_108_864;

/// What is told of a fault of a schedule, or of starts or a plan.
pub(crate) fn told_of(fault: SchedFault) -> Status
    ensures { result ≡ told_of fault }
{
    match fault {
        SchedFault::BadLine(line) => Status::BadSchedule(line),
        SchedFault::TooMany(line) => Status::BadSchedule(line),
        SchedFault::NoEnd(line) => Status::BadSchedule(line),
        SchedFault::Memory => Status::Memory,
    }
}

/// The lines of the schedule that these bytes are.
fn lines_of(alloc: Global, bytes: &[u8]) -> Result<Lines, Status>
    ensures says { IfOk result (IsSchedule bytes.now) }
    ensures stopped { IfErr result (Stops ⊥ ⊥ (IsNoSchedule Second bytes.now)) }
    ensures accepts { (lines : List Line) → IsSchedule bytes.now lines
        → OrMemory (Ok lines) result }
    ensures refuses { (status : declared.Status) → IsNoSchedule Second bytes.now status
        → OrMemory (Err status) result }
{
    match read_schedule(alloc, bytes) {
        Ok(lines) => Ok(lines),
        Err(fault) => Err(told_of(fault)),
    }
}

/// The schedule of the first version that these bytes are, written anew in the second.
fn upgraded(alloc: Global, bytes: &[u8]) -> Result<Text, Status>
    ensures says { IfOk result (IsUpgraded bytes.now) }
    ensures stopped { IfErr result (Stops ⊥ ⊥ (IsNoSchedule First bytes.now)) }
    ensures accepts { (text : List ℕ) → IsUpgraded bytes.now text → OrMemory (Ok text) result }
    ensures refuses { (status : declared.Status) → IsNoSchedule First bytes.now status
        → OrMemory (Err status) result }
{
    match upgrade(alloc, bytes) {
        Ok(text) => Ok(text),
        Err(fault) => Err(told_of(fault)),
    }
}

/// The lines of the schedule that is in the file of this name.
pub(crate) fn lines_given<H: Shelf>(
    alloc: Global,
    name: &Word,
    shelf: &mut H,
) -> Result<Lines, Status>
    ensures says { IfOk result (SaysLines Second (H.files shelf.old) name.now) }
    ensures stopped { IfErr result (Stops
        (IsUnread (H.files shelf.old) (H.faults shelf.old) (H.faults shelf.new) name.now) ⊥
        (SaysNoLines Second (H.files shelf.old) name.now)) }
    ensures accepts { (files : List NamedFile) (lines : List Line)
        → H.files shelf.old ≡ Some files
        → SaysLines Second (Some files) name.now lines → OrUnread (Ok lines) result }
    ensures refuses { (files : List NamedFile) (status : declared.Status)
        → H.files shelf.old ≡ Some files
        → SaysNoLines Second (Some files) name.now status → OrUnread (Err status) result }
    ensures same { H.files shelf.new ≡ H.files shelf.old }
    ensures later { H.faults shelf.old ≤ H.faults shelf.new }
{
    let bytes = fetch_within(name, MOST_BYTES, shelf)?;
    lines_of(alloc, bytes.as_slice())
}

/// The schedule of the first version that is in the file of this name, written anew in the second.
pub fn upgrade_given<H: Shelf>(alloc: Global, name: &Word, shelf: &mut H) -> Result<Text, Status>
    ensures says { IfOk result (IsUpgrade (H.files shelf.old) name.now) }
    ensures stopped { IfErr result (Stops
        (IsUnread (H.files shelf.old) (H.faults shelf.old) (H.faults shelf.new) name.now) ⊥
        (SaysNoLines First (H.files shelf.old) name.now)) }
    ensures accepts { (files : List NamedFile) (text : List ℕ)
        → H.files shelf.old ≡ Some files
        → IsUpgrade (Some files) name.now text → OrUnread (Ok text) result }
    ensures refuses { (files : List NamedFile) (status : declared.Status)
        → H.files shelf.old ≡ Some files
        → SaysNoLines First (Some files) name.now status → OrUnread (Err status) result }
    ensures same { H.files shelf.new ≡ H.files shelf.old }
    ensures later { H.faults shelf.old ≤ H.faults shelf.new }
{
    let bytes = fetch_within(name, MOST_BYTES, shelf)?;
    upgraded(alloc, bytes.as_slice())
}
