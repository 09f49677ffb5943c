//! What a run does to its node.
pub(crate) mod acts;
pub(crate) mod answers;
pub(crate) mod arguments;
pub(crate) mod asking;
pub(crate) mod changes;
pub(crate) mod delivery;
pub(crate) mod ending;
pub(crate) mod fresh;
pub(crate) mod next;
pub(crate) mod send;
pub(crate) mod slots;
pub(crate) mod verdicts;
