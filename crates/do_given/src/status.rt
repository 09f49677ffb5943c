//! What a run of the program came to.
ghost use Rattle.std.specs.Prelude.{◌≡◌};
ghost use Rattle.do_given.specs.Status.{exit_number};

use do_base::PutFail;
use do_lab::ChildEnd;
use do_world::WorldFault;
use std::alloc::AllocError;
use std::fmt;

/// What a run of the program came to.
#[derive(Debug, Drop)]
pub enum Status {
    /// The whole output was written.
    Ok,
    /// No form goes on at this word, counted from 1.
    Usage(usize),
    /// A file could not be read.
    ReadFault,
    /// A file is longer than its limit. `read` bytes were read, one more than the limit.
    TooLong { read: u64, limit: u64 },
    /// The world's file says no world, and this is the first fault of it.
    BadWorld(WorldFault),
    /// The schedule, starts or plan is faulty at this line, counted from 1.
    BadSchedule(u64),
    /// The output could not be written.
    WriteFault,
    /// All turns of a node were taken, so many, and none used the line `end` of its starts.
    TurnsSpent(u64),
    /// This child of a plan, counted from 1, is the first that did not end with status 0.
    ChildFailed { index: u64, end: ChildEnd },
    /// Memory ran out.
    Memory,
    /// The link did not listen.
    LinkFault,
    /// This record, counted from 1, is no record of a node of the world that has no earlier one, or
    /// has too many steps, and this line of it, counted from 1, is the first at fault.
    BadRecord { index: u64, line: u64 },
    /// The block that begins at this line of this record, both counted from 1, is none that the
    /// world's machine does, or never comes.
    Contradiction { index: u64, line: u64 },
}

impl Status {
    /// The number that the program ends with.
    pub fn number(&self) -> u8
        ensures { result ≡ exit_number self.now }
    {
        match self {
            Status::Ok => 0,
            Status::Usage(_) => 2,
            Status::ReadFault => 3,
            Status::TooLong { .. } => 4,
            Status::BadWorld(_) => 5,
            Status::BadSchedule(_) => 6,
            Status::WriteFault => 7,
            Status::TurnsSpent(_) => 8,
            Status::ChildFailed { .. } => 9,
            Status::Memory => 10,
            Status::LinkFault => 11,
            Status::BadRecord { .. } => 13,
            Status::Contradiction { .. } => 14,
        }
    }
}

impl fmt::Display for Status {
    ghost use Rattle.std.specs.Prelude.{Some};
    ghost use Rattle.do_given.specs.Status.{status_text};

    ghost output = { λ s. Some (status_text s) };

    fn fmt<W: fmt::Write>(&self, f: &mut fmt::Formatter<W>) -> fmt::Result {
        match self {
            Status::Ok => write!(f, "ok"),
            Status::Usage(word) => write!(f, "usage: word {word}"),
            Status::ReadFault => write!(f, "read fault"),
            Status::TooLong { limit, .. } => write!(f, "file longer than {limit} bytes"),
            Status::BadWorld(_) => write!(f, "bad world"),
            Status::BadSchedule(line) => write!(f, "bad line {line}"),
            Status::WriteFault => write!(f, "write fault"),
            Status::TurnsSpent(turns) => write!(f, "{turns} turns spent"),
            Status::ChildFailed { index, .. } => write!(f, "child {index} failed"),
            Status::Memory => write!(f, "out of memory"),
            Status::LinkFault => write!(f, "link fault"),
            Status::BadRecord { index, line } => write!(f, "bad record {index} line {line}"),
            Status::Contradiction { index, line } => {
                write!(f, "record {index} line {line}")?;
                write!(f, " contradicts")
            }
        }
    }
}

impl From<AllocError> for Status {
    ghost use Rattle.do_given.specs.declared.status.Status.TheVariants.{Memory};

    ghost from_gives = { λ _ e. e ≡ Memory };

    fn from(_e: AllocError) -> Status {
        Status::Memory
    }
}

impl From<PutFail> for Status {
    ghost use Rattle.do_given.specs.Status.{status_of};

    ghost from_gives = { λ fail status. status ≡ status_of fail };

    fn from(e: PutFail) -> Status {
        match e {
            PutFail::Failed => Status::WriteFault,
            PutFail::Memory => Status::Memory,
        }
    }
}
