//! What is counted of a replay.
ghost use Rattle.std.specs.Prelude.{◌≡◌};
ghost use Rattle.do_make.specs.Summary.{nothing};

/// What a schedule came to, in numbers.
#[derive(Clone, Copy, Debug, PartialEq, Eq)]
pub struct Summary {
    /// How many lines were done.
    pub lines: u64,
    /// How many of these were not enabled.
    pub skips: u64,
    /// How many values were said.
    pub says: u64,
    /// How many objects were freed.
    pub frees: u64,
    /// How many objects the last check lists.
    pub objects: u64,
    /// How many entries the last check lists.
    pub entries: u64,
    /// How many frames were sent, greetings among them.
    pub frames: u64,
    /// How many bytes these have.
    pub bytes: u64,
}

impl Summary {
    /// That of no lines.
    pub fn new() -> Summary
        ensures { result ≡ nothing }
    {
        Summary {
            lines: 0,
            skips: 0,
            says: 0,
            frees: 0,
            objects: 0,
            entries: 0,
            frames: 0,
            bytes: 0,
        }
    }
}
