use do_base::{NodeId, Texts, Word};

/// Words of a command line, in order.
pub type Words = Texts;

/// What the words of the command line ask for.
#[derive(Debug, Drop)]
pub enum Command {
    /// Replays the schedule in a file over a world, and writes its transcript.
    ///
    /// A world that begins with a colon is built in, any other is the name of a file.
    Replay {
        world: Word,
        schedule: Word,
    },
    /// Replays the schedule in a file over a world, and writes which stored objects nothing can
    /// reach then.
    Leaks {
        world: Word,
        schedule: Word,
    },
    /// Weaves the records of separate nodes of a world, 1 to 64 files, and writes one schedule.
    Weave {
        world: Word,
        files: Words,
    },
    /// Writes the schedule in a file, which is of version 1, anew in version 2.
    Upgrade {
        schedule: Word,
    },
    /// Replays the schedule that a number generates over the built-in world `:mesh`, and writes its
    /// summary. The schedule has `count` lines, 1 to 100,000, and a check behind them.
    Make {
        number: u64,
        count: u64,
    },
    /// Serves the node of a port of a world over a link, with the starts in a file, for at most
    /// `turns` turns, 1 to 2^40, and writes its record.
    Node {
        port: NodeId,
        world: Word,
        starts: Word,
        turns: u64,
    },
    /// Starts the nodes of the plan in a file as processes, waits for each, and writes how each
    /// ended.
    Lab {
        plan: Word,
    },
    /// Writes what the forms of the words are.
    Help,
    /// Writes the program's name and version.
    Version,
}
