ghost use Rattle.do_sig.specs.Letters as letters;
ghost use Rattle.do_sig.specs.Marks as marks;
ghost use Rattle.std.specs.Prelude.{◌≡◌, ◌==◌, ◌&&◌, ◌||◌, true, false};
ghost use Rattle.do_sig.specs.{Bare.bare, reading.{Gives.{Gives, IsEarly}, Outermost.marks_at}};

use crate::fault::{Kind, Stop};
use crate::letters::is_qualifier;
use crate::outermost::place::{Place, may_return};
use crate::qualifiers::{Direction, Passing, Qualifiers};
use do_grammar::split_byte;

/// The qualifiers with a direction more, if there is none yet.
fn with_direction(q: &Qualifiers, direction: Direction) -> Option<Qualifiers>
    ensures { result ≡ marks.free_way q.now.direction (record q.now { direction = direction }) }
{
    match q.direction {
        Direction::Unmarked => Some(Qualifiers { direction, ..*q }),
        _ => None,
    }
}

/// The qualifiers with a way of passing more, if there is none yet.
fn with_passing(q: &Qualifiers, passing: Passing) -> Option<Qualifiers>
    ensures { result ≡ marks.free_passing q.now.passing (record q.now { passing = passing }) }
{
    match q.passing {
        Passing::Unmarked => Some(Qualifiers { passing, ..*q }),
        _ => None,
    }
}

/// The qualifiers with one letter more, if it may stand there.
fn with_letter(q: &Qualifiers, b: u8, place: Place) -> Option<Qualifiers>
    ensures { result ≡ marks.marked place q.now b }
{
    match b {
        b'V' if may_return(place) && !q.oneway => Some(Qualifiers { oneway: true, ..*q }),
        b'V' => None,
        b'r' if q.constant => None,
        b'r' => Some(Qualifiers {
            constant: true,
            ..*q
        }),
        b'n' => with_direction(q, Direction::In),
        b'N' => with_direction(q, Direction::InOut),
        b'o' => with_direction(q, Direction::Out),
        b'O' => with_passing(q, Passing::ByCopy),
        _ => with_passing(q, Passing::ByRef),
    }
}

/// The qualifiers that begin the bytes, and what comes behind them.
#[tactic(auto, using(crate::proofs::MarkSteps::qualifying))]
pub(crate) fn qualifiers_of(bytes: &[u8], place: Place) -> Result<(Qualifiers, &[u8]), Stop>
    ensures gives { Gives (λ x. (x.0, x.1.now)) result (marks_at place bytes.now) }
    ensures early { IsEarly result }
{
    let mut qualifiers = Qualifiers::none();
    let mut rest = bytes;
    loop {
        let Some((b, after)) = split_byte(rest) else {
            return Err(Stop::Short);
        };
        if !is_qualifier(b) {
            return Ok((qualifiers, rest));
        }
        let Some(more) = with_letter(&qualifiers, b, place) else {
            return Err(Stop::Bad(Kind::BadChar, rest.len()));
        };
        qualifiers = more;
        rest = after;
    }
}
