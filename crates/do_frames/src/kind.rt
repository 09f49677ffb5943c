//! The kinds of frames, and the number that stands in front of each.
ghost use Rattle.std.specs.Prelude.{◌≡◌, IfSome};
ghost use Rattle.do_frames.specs.Kinds.{kind_number, kind_at};

/// The kind of a frame.
#[derive(Clone, Copy, Debug)]
pub enum Kind {
    Call,
    Oneway,
    Reply,
    Raised,
    RootAsk,
    RootAnswer,
    Retain,
    Granted,
    Gone,
    Release,
    Settle,
    Shutdown,
}

/// The number of a kind.
pub fn number_of(kind: Kind) -> u8
    ensures { result ≡ kind_number kind }
{
    match kind {
        Kind::Call => 1,
        Kind::Oneway => 2,
        Kind::Reply => 3,
        Kind::Raised => 4,
        Kind::RootAsk => 5,
        Kind::RootAnswer => 6,
        Kind::Retain => 7,
        Kind::Granted => 8,
        Kind::Gone => 9,
        Kind::Release => 10,
        Kind::Settle => 11,
        Kind::Shutdown => 12,
    }
}

/// The kind of a number; none outside 1 to 12.
pub fn kind_of(number: u8) -> Option<Kind>
    ensures kind { result ≡ kind_at number }
    ensures number { IfSome result (λ k. kind_number k ≡ number) }
{
    match number {
        1 => Some(Kind::Call),
        2 => Some(Kind::Oneway),
        3 => Some(Kind::Reply),
        4 => Some(Kind::Raised),
        5 => Some(Kind::RootAsk),
        6 => Some(Kind::RootAnswer),
        7 => Some(Kind::Retain),
        8 => Some(Kind::Granted),
        9 => Some(Kind::Gone),
        10 => Some(Kind::Release),
        11 => Some(Kind::Settle),
        12 => Some(Kind::Shutdown),
        _ => None,
    }
}
