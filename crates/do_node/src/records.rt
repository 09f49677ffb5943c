ghost use Rattle.do_record.specs.declared.parts.Record as parts;
ghost use Rattle.do_given.specs.declared.status.Status as declared;
ghost use Rattle.std.specs.Prelude.{◌≡◌, ◌+◌, ◌≤◌, List, Ok, Err, IfOk, IfErr, Some, length};
ghost use Rattle.do_base.specs.declared.outside.shelf.NamedFile.{NamedFile};
ghost use Rattle.do_sched.specs.Schedule.{most_steps};
ghost use Rattle.do_woven.specs.Steps.{record_steps, steps_in};
ghost use Rattle.do_given.specs.{Files.IsUnread, Reading.{OrMemory, OrUnread, Stops}};
ghost use Rattle.do_node.specs.Records.{AnyUnread, IsNoRecord, IsRecord, SayNoRecords, SayRecords};
ghost use Rattle.do_node.specs.Records.{SaysNoRecord, SaysRecord, told_of_record};

use do_base::{Shelf, Word};
use do_given::{Status, fetch_within};
use do_machine::Seats;
use do_record::{Record, Records};
use do_sched::SchedFault;
use do_woven::record_behind;
use std::alloc::Global;

/// The most bytes of a record's file.
const MOST_BYTES: u64 = 16_777_216;

/// What is told of a fault of a record, which is counted from 1.
fn told_of_record(index: u64, fault: SchedFault) -> Status
    ensures { result ≡ told_of_record index fault }
{
    match fault {
        SchedFault::BadLine(line) => Status::BadRecord { index, line },
        SchedFault::TooMany(line) => Status::BadRecord { index, line },
        SchedFault::NoEnd(line) => Status::BadRecord { index, line },
        SchedFault::Memory => Status::Memory,
    }
}

/// The record that these bytes are, behind earlier ones of a world's nodes.
fn record_in(
    alloc: Global,
    seats: &Seats,
    earlier: &Records,
    bytes: &[u8],
) -> Result<Record, Status>
    requires steps { steps_in earlier.now ≤ most_steps }
    requires count { length earlier.now ≤ 65535 }
    ensures says { IfOk result (IsRecord seats.now earlier.now bytes.now) }
    ensures stopped { IfErr result (Stops ⊥ ⊥ (IsNoRecord seats.now earlier.now bytes.now)) }
    ensures accepts { (r : parts.Record) → IsRecord seats.now earlier.now bytes.now r
        → OrMemory (Ok r) result }
    ensures refuses { (status : declared.Status)
        → IsNoRecord seats.now earlier.now bytes.now status → OrMemory (Err status) result }
    ensures few { IfOk result (λ r. steps_in earlier.now + record_steps r ≤ most_steps) }
{
    match record_behind(alloc, seats, earlier, bytes) {
        Ok(record) => Ok(record),
        Err(fault) => Err(told_of_record(earlier.len() as u64 + 1, fault)),
    }
}

/// The record that is in the file of this name, behind earlier ones of a world's nodes.
fn record_given<H: Shelf>(
    alloc: Global,
    seats: &Seats,
    earlier: &Records,
    name: &Word,
    shelf: &mut H,
) -> Result<Record, Status>
    requires steps { steps_in earlier.now ≤ most_steps }
    requires count { length earlier.now ≤ 65535 }
    ensures says { IfOk result
        (SaysRecord (H.files shelf.old) seats.now earlier.now name.now) }
    ensures stopped { IfErr result (Stops
        (IsUnread (H.files shelf.old) (H.faults shelf.old) (H.faults shelf.new) name.now) ⊥
        (SaysNoRecord (H.files shelf.old) seats.now earlier.now name.now)) }
    ensures accepts { (files : List NamedFile) (r : parts.Record) → H.files shelf.old ≡ Some files
        → SaysRecord (Some files) seats.now earlier.now name.now r → OrUnread (Ok r) result }
    ensures refuses { (files : List NamedFile) (status : declared.Status)
        → H.files shelf.old ≡ Some files
        → SaysNoRecord (Some files) seats.now earlier.now name.now status
        → OrUnread (Err status) result }
    ensures few { IfOk result (λ r. steps_in earlier.now + record_steps r ≤ most_steps) }
    ensures same { H.files shelf.new ≡ H.files shelf.old }
    ensures later { H.faults shelf.old ≤ H.faults shelf.new }
{
    let bytes = fetch_within(name, MOST_BYTES, shelf)?;
    record_in(alloc, seats, earlier, bytes.as_slice())
}

/// The records that are in the files of these names, one behind another, and behind earlier ones
/// of a world's nodes; all of them in one list.
pub(crate) fn records_given<H: Shelf>(
    alloc: Global,
    seats: &Seats,
    earlier: Records,
    names: &[Word],
    shelf: &mut H,
) -> Result<Records, Status>
    requires steps { steps_in earlier ≤ most_steps }
    requires count { length earlier + length names.now ≤ 65535 }
    ensures says { IfOk result
        (SayRecords (H.files shelf.old) seats.now earlier names.now) }
    ensures stopped { IfErr result (Stops
        (AnyUnread (H.files shelf.old) (H.faults shelf.old) (H.faults shelf.new) names.now) ⊥
        (SayNoRecords (H.files shelf.old) seats.now earlier names.now)) }
    ensures accepts { (files : List NamedFile) (records : List parts.Record)
        → H.files shelf.old ≡ Some files
        → SayRecords (Some files) seats.now earlier names.now records
        → OrUnread (Ok records) result }
    ensures refuses { (files : List NamedFile) (status : declared.Status)
        → H.files shelf.old ≡ Some files
        → SayNoRecords (Some files) seats.now earlier names.now status
        → OrUnread (Err status) result }
    ensures few { IfOk result (λ records. steps_in records ≤ most_steps) }
    ensures count { IfOk result (λ records.
        length records ≡ length earlier + length names.now) }
    ensures same { H.files shelf.new ≡ H.files shelf.old }
    ensures later { H.faults shelf.old ≤ H.faults shelf.new }
{
    let [name, names @ ..] = names else {
        return Ok(earlier);
    };
    let record = match record_given(alloc, seats, &earlier, name, shelf) {
        Ok(record) => record,
        Err(status) => return Err(status),
    };
    let mut records = earlier;
    records.push(record)?;
    records_given(alloc, seats, records, names, shelf)
}
