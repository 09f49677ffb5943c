ghost use Rattle.std.specs.Prelude.{◌≡◌, List, []};
ghost use Rattle.do_grammar.specs.Reader.{until};
ghost use Rattle.do_sig.specs.{Blame.why_no_type, reading.Gives.{Gives, IsEarly, IsEarlyKind}};
ghost use Rattle.do_sig.specs.reading.Types.{type_at, counted_at, named_at, exactly};

use crate::fault::{Kind, Stop};
use crate::letters::{is_unsupported, scalar_of};
use crate::types::count::count_of;
use crate::types::name::name_of;
use crate::value_type::ValueType;
use do_base::Items;
use do_grammar::split_byte;
use sqlite_items::Boxed;
use std::alloc::Global;

/// The fault of a byte that begins no type, where `depth` more may be open.
pub(crate) fn type_fault(b: u8, depth: u8) -> Kind
    ensures kind { result ≡ why_no_type depth b }
    ensures early { IsEarlyKind result }
{
    match b {
        b'[' | b'{' if depth == 0 => Kind::Deep,
        _ if is_unsupported(b) => Kind::Unsupported,
        _ => Kind::BadChar,
    }
}

/// What comes behind a byte.
fn expect(bytes: &[u8], wanted: u8) -> Result<&[u8], Stop>
    ensures gives { Gives (λ x. (wanted, x.now)) result (exactly wanted bytes.now) }
    ensures early { IsEarly result }
{
    let Some((b, rest)) = split_byte(bytes) else {
        return Err(Stop::Short);
    };
    if b == wanted {
        Ok(rest)
    } else {
        Err(Stop::Bad(Kind::BadChar, bytes.len()))
    }
}

/// The type that begins the bytes, where `depth` more may be open.
#[cycle(types)]
#[tactic(auto, using(crate::proofs::TypeSteps::typing))]
pub(crate) fn type_of(alloc: Global, bytes: &[u8], depth: u8) -> Result<(ValueType, &[u8]), Stop>
    ensures gives { Gives (λ x. (x.0, x.1.now)) result (type_at depth bytes.now) }
    ensures early { IsEarly result }
{
    let Some((b, rest)) = split_byte(bytes) else {
        return Err(Stop::Short);
    };
    if let Some(scalar) = scalar_of(b) {
        return Ok((ValueType::Simple(scalar), rest));
    }
    match b {
        b'[' if depth > 0 => array_of(alloc, rest, depth - 1),
        b'{' if depth > 0 => structure_of(alloc, rest, depth - 1),
        _ => Err(Stop::Bad(type_fault(b, depth), bytes.len())),
    }
}

/// The array that goes on with these bytes.
#[cycle(types)]
fn array_of(alloc: Global, bytes: &[u8], depth: u8) -> Result<(ValueType, &[u8]), Stop>
    ensures gives { Gives (λ x. (x.0, x.1.now)) result (counted_at (type_at depth) bytes.now) }
    ensures early { IsEarly result }
{
    let (count, rest) = count_of(bytes)?;
    let (item, rest) = type_of(alloc, rest, depth)?;
    let rest = expect(rest, b']')?;
    Ok((ValueType::Array(count, Boxed::new(alloc, item)?), rest))
}

/// The structure that goes on with these bytes.
#[cycle(types)]
fn structure_of(alloc: Global, bytes: &[u8], depth: u8) -> Result<(ValueType, &[u8]), Stop>
    ensures gives { Gives (λ x. (x.0, x.1.now)) result (named_at (type_at depth) bytes.now) }
    ensures early { IsEarly result }
{
    let (name, rest) = name_of(alloc, bytes)?;
    let rest = expect(rest, b'=')?;
    let (members, rest) = members_of(alloc, rest, depth)?;
    Ok((ValueType::Structure(name, members), rest))
}

/// The types up to the brace that ends a structure.
#[cycle(types)]
fn members_of(alloc: Global, bytes: &[u8], depth: u8) -> Result<(Items<ValueType>, &[u8]), Stop>
    ensures gives { Gives (λ x. (x.0, x.1.now)) result (until 125 (type_at depth) bytes.now) }
    ensures early { IsEarly result }
{
    let mut members = Items::new(alloc);
    let mut rest = bytes;
    'members: loop {
        let Some((b, after)) = split_byte(rest) else {
            return Err(Stop::Short);
        };
        if b == b'}' {
            return Ok((members, after));
        }
        let (member, after) = type_of(alloc, rest, depth)?;
        members.push(member)?;
        rest = after;
    }
}
