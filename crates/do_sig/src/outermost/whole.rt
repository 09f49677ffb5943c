ghost use Rattle.std.specs.Prelude.{◌≡◌, true, false};
ghost use Rattle.do_sig.specs.reading.{Gives.{Gives, IsEarly}, Outermost.outermost_at};

use crate::fault::{Kind, Stop};
use crate::outermost::place::{Place, may_point, may_return};
use crate::types::nested::{type_fault, type_of};
use crate::value_type::OutermostType;
use do_grammar::split_byte;
use std::alloc::Global;

/// The type `v` behind the qualifier `V`.
#[tactic(auto, using(crate::proofs::OuterSteps::outer))]
fn void_of(bytes: &[u8], place: Place) -> Result<(OutermostType, &[u8]), Stop>
    ensures gives { Gives (λ x. (x.0, x.1.now)) result (outermost_at place true bytes.now) }
    ensures early { IsEarly result }
{
    let Some((b, rest)) = split_byte(bytes) else {
        return Err(Stop::Short);
    };
    if b == b'v' {
        Ok((OutermostType::Void, rest))
    } else {
        Err(Stop::Bad(type_fault(b, 8), bytes.len()))
    }
}

/// The outermost type that begins the bytes, where no `V` stands before it.
#[tactic(auto, using(crate::proofs::OuterSteps::outer))]
fn outermost_of(alloc: Global, bytes: &[u8], place: Place) -> Result<(OutermostType, &[u8]), Stop>
    ensures gives { Gives (λ x. (x.0, x.1.now)) result (outermost_at place false bytes.now) }
    ensures early { IsEarly result }
{
    let Some((b, rest)) = split_byte(bytes) else {
        return Err(Stop::Short);
    };
    if b == b'v' {
        if may_return(place) {
            return Ok((OutermostType::Void, rest));
        }
        return Err(Stop::Bad(Kind::Unsupported, bytes.len()));
    }
    if b == b'^' {
        if may_point(place) {
            let (target, rest) = type_of(alloc, rest, 7)?;
            return Ok((OutermostType::Pointer(target), rest));
        }
        return Err(Stop::Bad(Kind::Unsupported, bytes.len()));
    }
    let (plain, rest) = type_of(alloc, bytes, 8)?;
    Ok((OutermostType::Plain(plain), rest))
}

/// The outermost type that begins the bytes behind these qualifiers.
pub(crate) fn qualified_of(
    alloc: Global,
    bytes: &[u8],
    place: Place,
    oneway: bool,
) -> Result<(OutermostType, &[u8]), Stop>
    ensures gives { Gives (λ x. (x.0, x.1.now)) result (outermost_at place oneway bytes.now) }
    ensures early { IsEarly result }
{
    if oneway {
        void_of(bytes, place)
    } else {
        outermost_of(alloc, bytes, place)
    }
}
