//! How the children of a plan end.
use do_base::Items;

/// How a child ended.
#[derive(Clone, Copy, Debug, PartialEq, Eq)]
pub enum ChildEnd {
    /// It ended with this status.
    Status(i32),
    /// It could not be started.
    NotStarted,
    /// It could not be waited for.
    NotWaited,
}

/// How children ended, in the order of the plan.
pub(crate) type ChildEnds = Items<ChildEnd>;

/// How a plan ended.
#[derive(Clone, Copy, Debug, PartialEq, Eq)]
pub enum LabEnd {
    /// Each child ended with status 0, and every line was written.
    Done,
    /// This child, counted from 1, is the first that did not, and every line was written.
    ChildFailed {
        /// The place of its line in the plan, from 1.
        index: u64,
        /// How it ended.
        end: ChildEnd,
    },
    /// The lines could not be written.
    WriteFault,
    /// Memory ran out.
    Memory,
}
