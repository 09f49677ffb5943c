//! The forms: a later one joins as a variant, with an arm in each table.
ghost use Rattle.std.specs.Prelude.{◌≡◌};
ghost use Rattle.do_cli.specs.Forms.{deed_of, is_of, kinds_of, name_of, more_of, names_file};
ghost use Rattle.do_cli.specs.{Forms.{number_in, placeholder}, declared.form.Kind.TheVariants.Port};

use do_base::{NodeId, Text};
use do_grammar::dec_of;

/// The most bytes of a file's name.
const MAX_NAME: usize = 4096;

/// The most lines that are generated.
const MAX_COUNT: u64 = 100_000;

/// The most turns of a node.
const MAX_TURNS: u64 = 1_099_511_627_776;

/// What a word behind the name of a form is.
#[derive(Clone, Copy, Debug)]
pub(crate) enum Kind {
    /// A built-in world, or the name of a file.
    World,
    /// The name of a file with a schedule.
    Schedule,
    /// The name of a file with a record.
    Record,
    /// A number of 64 bits.
    Number,
    /// How many lines are generated, 1 to 100,000.
    Count,
    /// The port of a node, 1 to 65,535.
    Port,
    /// The name of a file with starts.
    Starts,
    /// How many turns a node takes at most, 1 to 2^40.
    Turns,
    /// The name of a file with a plan.
    Plan,
}

/// A form of words, by the command that it asks for.
#[derive(Clone, Copy, Debug)]
pub(crate) enum Form {
    Replay,
    Leaks,
    Weave,
    Upgrade,
    Make,
    Node,
    Lab,
    Help,
    Version,
}

/// The forms, in the order in which the help shows them.
pub(crate) const FORMS: [Form; 9] = [
    Form::Replay,
    Form::Leaks,
    Form::Weave,
    Form::Upgrade,
    Form::Make,
    Form::Node,
    Form::Lab,
    Form::Help,
    Form::Version,
];

/// The words of `replay` behind its name.
const REPLAY: [Kind; 2] = [Kind::World, Kind::Schedule];

/// The words of `leaks` behind its name.
const LEAKS: [Kind; 2] = [Kind::World, Kind::Schedule];

/// The words of `weave` behind its name that must be there.
const WEAVE: [Kind; 2] = [Kind::World, Kind::Record];

/// The words of `weave` that may stand behind those.
const MORE_RECORDS: [Kind; 63] = [Kind::Record; 63];

/// The words of `upgrade` behind its name.
const UPGRADE: [Kind; 1] = [Kind::Schedule];

/// The words of `make` behind its name.
const MAKE: [Kind; 2] = [Kind::Number, Kind::Count];

/// The words of `node` behind its name.
const NODE: [Kind; 4] = [Kind::Port, Kind::World, Kind::Starts, Kind::Turns];

/// The words of `lab` behind its name.
const LAB: [Kind; 1] = [Kind::Plan];

impl Form {
    /// The first word.
    pub(crate) fn name(self) -> &'static [u8]
        ensures { result.now ≡ name_of self }
    {
        match self {
            Form::Replay => b"replay",
            Form::Leaks => b"leaks",
            Form::Weave => b"weave",
            Form::Upgrade => b"upgrade",
            Form::Make => b"make",
            Form::Node => b"node",
            Form::Lab => b"lab",
            Form::Help => b"--help",
            Form::Version => b"--version",
        }
    }

    /// What each of the words behind the first is that must be there.
    pub(crate) fn kinds(self) -> &'static [Kind]
        ensures { result.now ≡ kinds_of self }
    {
        match self {
            Form::Replay => &REPLAY,
            Form::Leaks => &LEAKS,
            Form::Weave => &WEAVE,
            Form::Upgrade => &UPGRADE,
            Form::Make => &MAKE,
            Form::Node => &NODE,
            Form::Lab => &LAB,
            Form::Help => &[],
            Form::Version => &[],
        }
    }

    /// What each of the words is that may stand behind those.
    pub(crate) fn more(self) -> &'static [Kind]
        ensures { result.now ≡ more_of self }
    {
        match self {
            Form::Weave => &MORE_RECORDS,
            _ => &[],
        }
    }

    /// What the command does, as the help tells it.
    pub(crate) fn deed(self) -> &'static [u8]
        ensures { result.now ≡ deed_of self }
    {
        match self {
            Form::Replay => b"replays a schedule over a world, and writes its transcript",
            Form::Leaks => b"replays a schedule, and writes what nothing can reach then",
            Form::Weave => b"writes one schedule that gives these records of nodes again",
            Form::Upgrade => b"writes a schedule of version 1 anew in version 2",
            Form::Make => b"replays a schedule that a number generates, and writes a summary",
            Form::Node => b"serves one node of a world over TCP, and writes its record",
            Form::Lab => b"starts the nodes of a plan as processes, and writes how each ended",
            Form::Help => b"writes this text",
            Form::Version => b"writes the program's name and version",
        }
    }
}

/// Whether a word names a file.
fn is_file_name(word: &Text) -> bool
    ensures { result ≡ names_file word.now }
{
    match word.as_slice() {
        [] => false,
        [first, ..] => word.len() <= MAX_NAME && *first != b'-' && *first != b':',
    }
}

impl Kind {
    /// Whether a word is of this kind.
    pub(crate) fn fits(self, word: &Text) -> bool
        ensures { result ≡ is_of self word.now }
    {
        match self {
            Kind::World => word.is(b":counter") || word.is(b":mesh") || is_file_name(word),
            Kind::Schedule | Kind::Record | Kind::Starts | Kind::Plan => is_file_name(word),
            Kind::Number | Kind::Count | Kind::Port | Kind::Turns => self.number(word).is_some(),
        }
    }

    /// The number that a word of this kind is, in decimal digits. None exactly where it is no
    /// number of this kind.
    pub(crate) fn number(self, word: &Text) -> Option<u64>
        ensures { result ≡ number_in self word.now }
    {
        match self {
            Kind::Number => dec_of(word.as_slice(), 0, u64::MAX),
            Kind::Count => dec_of(word.as_slice(), 1, MAX_COUNT),
            Kind::Port => dec_of(word.as_slice(), 1, 65535),
            Kind::Turns => dec_of(word.as_slice(), 1, MAX_TURNS),
            _ => None,
        }
    }

    /// How the help writes a word of this kind.
    pub(crate) fn placeholder(self) -> &'static [u8]
        ensures { result.now ≡ placeholder self }
    {
        match self {
            Kind::World => b"WORLD",
            Kind::Schedule => b"SCHEDULE",
            Kind::Record => b"RECORD",
            Kind::Number => b"NUMBER",
            Kind::Count => b"COUNT",
            Kind::Port => b"PORT",
            Kind::Starts => b"STARTS",
            Kind::Turns => b"TURNS",
            Kind::Plan => b"PLAN",
        }
    }
}

/// The node of the port that a word is. None exactly where it is no port.
pub(crate) fn node_of(word: &Text) -> Option<NodeId>
    ensures { result ≡ number_in Port word.now }
{
    NodeId::new(dec_of(word.as_slice(), 1, 65535)? as u16)
}
