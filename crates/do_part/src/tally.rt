//! Which way names are counted.
//!
//! One number bounds every count. A part counts how many names it ever counted, at most 2^62.
//! It never falls, so no count can run over as long as it stays below. No call has a premise on
//! a single count: room for a name is room in this number too. At a thousand million names a
//! second it lasts 146 years. Each name that is sent, received, lent or asked for takes one of
//! that room, also where a count is only raised.

/// Whether names are counted besides, or taken off.
#[derive(Clone, Copy, PartialEq, Eq, Debug)]
pub(crate) enum Tally {
    /// The names come to stand somewhere.
    More,
    /// The names stand there no more.
    Less,
}
