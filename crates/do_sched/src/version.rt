ghost use Rattle.std.specs.Prelude.{◌≡◌};
ghost use Rattle.do_sched.specs.Version.{header, longest, has_timeouts};

use do_base::LONGEST_TEXT;

/// The version of a schedule, which its first line tells.
///
/// The second has longer texts than the first, and time-outs. The forms are this project's own.
#[derive(Clone, Copy, Debug, PartialEq, Eq)]
pub enum Version {
    /// Version 1: shorter texts, and no time-outs.
    First,
    /// Version 2: longer texts, and time-outs.
    Second,
}

impl Version {
    /// The first line of a schedule of this version.
    pub fn header(self) -> &'static [u8]
        ensures { result.now ≡ header self }
    {
        match self {
            Version::First => b"schedule 1",
            Version::Second => b"schedule 2",
        }
    }

    /// The most bytes of a text that is a value.
    pub fn longest(self) -> usize
        ensures { result ≡ longest self }
    {
        match self {
            Version::First => 65_535,
            Version::Second => LONGEST_TEXT,
        }
    }

    /// Whether a line may be a time-out.
    pub(crate) fn has_timeouts(self) -> bool
        ensures { result ≡ has_timeouts self }
    {
        match self {
            Version::First => false,
            Version::Second => true,
        }
    }
}
