ghost use Rattle.do_sched.specs.declared.line.Line as line;
ghost use Rattle.do_sched.specs.declared.fault.SchedFault as fault;
ghost use Rattle.std.specs.Prelude.{◌≡◌, ◌≤◌, List, Ok, Err, OnOk, IfOk, length, drop, ◌++◌};
ghost use Rattle.do_sched.specs.declared.version.Version.TheVariants.{First, Second};
ghost use Rattle.do_sched.specs.{Version.header, Spelling.spelling, Schedule.IsScheduleOf};
ghost use Rattle.do_sched.specs.{Schedule.IsFaultOf, Answers.{TellsUpgraded, AnswersWith}};

use crate::fault::SchedFault;
use crate::reading::lines_of;
use crate::version::Version;
use do_base::Text;
use std::alloc::{AllocError, Global};

/// A schedule of the first version, written as the one of the second version that has the same
/// lines.
///
/// `read_schedule` reads the text as these lines, none of which is a time-out. Bytes that are no
/// schedule of the first version are refused as `read_schedule` refuses those of the second, by the
/// first line at fault: a line may be no time-out, and a text has at most 65,535 bytes. The form is
/// this project's own.
pub fn upgrade(alloc: Global, bytes: &[u8]) -> Result<Text, SchedFault>
    ensures exact { TellsUpgraded bytes.now result }
    ensures accepts { (lines : List line.Line) → IsScheduleOf First bytes.now lines
        → AnswersWith (Ok (spelling Second lines)) result }
    ensures refuses { (fault : fault.SchedFault) → IsFaultOf First bytes.now fault
        → AnswersWith (Err fault) result }
{
    // The lines are read for their faults alone: what stands behind the first line stays as it is.
    match lines_of(alloc, bytes, Version::First) {
        Err(fault) => Err(fault),
        Ok(_lines) => {
            let text = with_second_header(alloc, bytes)?;
            Ok(text)
        }
    }
}

/// The bytes with the first line of the second version in place of their own.
fn with_second_header(alloc: Global, bytes: &[u8]) -> Result<Text, AllocError>
    requires { 10 ≤ length bytes.now }
    ensures { IfOk result (λ text. text ≡ header Second ++ drop 10 bytes.now) }
{
    let mut text = Text::from_slice(alloc, Version::Second.header())?;
    text.push_bytes(&bytes[Version::First.header().len()..])?;
    Ok(text)
}
