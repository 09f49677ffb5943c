//! Reading the names of packets.
ghost use Rattle.std.specs.Prelude.{◌≡◌, ◌≤◌, ◌<◌, ◌-◌, ◌++◌, ◌∷◌, [], length, map, not, List};
ghost use Rattle.std.specs.{Prelude.{None, IfOk, OnOk, OnErr}, List.{filter, fold}};
ghost use Rattle.do_grammar.specs.RestAnswers.{Gives};
ghost use Rattle.do_coder.specs.Recent.{place_in, after_name};
ghost use Rattle.do_grammar.specs.OneSpelling.{times_by};
ghost use Rattle.do_coder.specs.{declared.recent.pair.Pair.Pair, Names.{taken_with, taken_whole}};
ghost use Rattle.do_coder.specs.Names.{new_at, mine_of, lent_at, mine_at, name_at, names_at};
ghost use Rattle.do_grammar.specs.{Reader.{no_kind, mapped}, Num.num_at};

use crate::read::sides::Sides;
use crate::read::taken::{taken_of, whole_of};
use crate::recent::name_log::NameLog;
use crate::recent::pair::Pair;
use crate::tags::{KNOWN, LENT, NEW, YOURS};
use do_base::{Items, NodeId, Oid};
use do_class::{ClassId, Name, NameList};
use do_grammar::{ReadFault, num_beside_of, num_of, split_byte};
use std::alloc::Global;

/// The greatest serial.
const TOP: u64 = 9_223_372_036_854_775_807;

/// A name of the sender that doesn't stand in the table, and the bytes behind it.
#[tactic(auto, using(crate::proofs::names::NewName::fast_new))]
fn new_of<'a>(
    alloc: Global,
    bytes: &'a [u8],
    classes: u32,
    recent: &NameLog,
) -> Result<(Pair, &'a [u8]), ReadFault>
    requires { 0 < classes }
    ensures gives { Gives (λ x. (mine_of x.0, x.1.now)) result
        (new_at classes recent.now.now bytes.now) }
    ensures new { IfOk result (λ x. place_in x.0 recent.now.now ≡ None) }
{
    if let Ok((serial, rest)) = num_of(bytes, 1, TOP) {
        if let Ok((class, rest)) = num_of(rest, 0, u64::from(classes - 1)) {
            let pair = Pair {
                serial,
                class: ClassId(class as u32),
            };
            if recent.place(&pair).is_none() {
                return Ok((pair, rest));
            }
        }
    }
    slow_new(alloc, bytes, classes, recent)
}

/// The same byte by byte, for the place of a fault.
#[tactic(auto, unfolding(crate::specs::Names::new_at))]
fn slow_new<'a>(
    alloc: Global,
    bytes: &'a [u8],
    classes: u32,
    recent: &NameLog,
) -> Result<(Pair, &'a [u8]), ReadFault>
    requires { 0 < classes }
    ensures gives { Gives (λ x. (mine_of x.0, x.1.now)) result
        (new_at classes recent.now.now bytes.now) }
    ensures new { IfOk result (λ x. place_in x.0 recent.now.now ≡ None) }
{
    let _few = recent.len();
    let whole = whole_of(alloc, recent, classes)?;
    let (serial, rest) = num_beside_of(bytes, 1, TOP, whole.as_slice())?;
    let taken = taken_of(alloc, recent.pairs(), serial)?;
    let (class, rest) = num_beside_of(rest, 0, u64::from(classes - 1), taken.as_slice())?;
    let pair = Pair {
        serial,
        class: ClassId(class as u32),
    };
    Ok((pair, rest))
}

/// A name that the sender lends, and the bytes behind it.
#[tactic(auto, unfolding(crate::specs::Names::lent_at))]
fn lent_of<'a>(bytes: &'a [u8], sides: &Sides) -> Result<(Name, &'a [u8]), ReadFault>
    requires { 0 < sides.now.classes }
    ensures gives { Gives (λ x. (x.0, x.1.now)) result (lent_at sides.now bytes.now) }
    ensures stays { IfOk result (λ x. (table : List Pair) → after_name table x.0 ≡ table) }
{
    let holes = [u64::from(sides.from), u64::from(sides.to)];
    let (port, rest) = num_beside_of(bytes, 1, 65_535, &holes)?;
    let (serial, rest) = num_of(rest, 1, TOP)?;
    let (class, rest) = num_of(rest, 0, u64::from(sides.classes - 1))?;
    let (token, rest) = num_of(rest, 1, TOP)?;
    match NodeId::new(port as u16) {
        Some(node) => Ok((
            Name::Lent {
                oid: Oid { node, serial },
                class: ClassId(class as u32),
                token,
            },
            rest,
        )),
        None => Err(ReadFault::Short),
    }
}

/// A name by the table of recent names, and the bytes behind it. The table is then the one after
/// the name.
#[tactic(auto, unfolding(crate::specs::Names::name_at))]
fn name_of<'a>(
    alloc: Global,
    bytes: &'a [u8],
    sides: &Sides,
    recent: &mut NameLog,
) -> Result<(Name, &'a [u8]), ReadFault>
    ensures gives { Gives (λ x. (x.0, x.1.now)) result
        (name_at sides.now recent.old.now bytes.now) }
    ensures after { IfOk result (λ x. recent.new
        ≡ record { now = after_name recent.old.now x.0; kept = recent.old.kept }) }
    ensures err { OnErr result (recent.new.kept ≡ recent.old.kept) }
{
    let Some((tag, rest)) = split_byte(bytes) else {
        return Err(ReadFault::Short);
    };
    match tag {
        NEW if sides.classes > 0 => {
            let (pair, rest) = new_of(alloc, rest, sides.classes, recent)?;
            recent.add(pair)?;
            Ok((
                Name::Mine {
                    serial: pair.serial,
                    class: pair.class,
                },
                rest,
            ))
        }
        YOURS => {
            let (serial, rest) = num_of(rest, 1, TOP)?;
            Ok((Name::Yours { serial }, rest))
        }
        LENT if sides.classes > 0 => lent_of(rest, sides),
        KNOWN if recent.len() > 0 => known_of(rest, recent),
        _ => Err(ReadFault::Bad(bytes.len())),
    }
}

/// A name that stands in the table, by its place, and the bytes behind it.
fn known_of<'a>(bytes: &'a [u8], recent: &NameLog) -> Result<(Name, &'a [u8]), ReadFault>
    requires { 0 < length recent.now.now }
    ensures gives { Gives (λ x. (x.0, x.1.now)) result
        (mapped (mine_at recent.now.now) (num_at no_kind 0 (length recent.now.now - 1)) bytes.now) }
    ensures stays { IfOk result (λ x. after_name recent.now.now x.0 ≡ recent.now.now) }
{
    let (k, rest) = num_of(bytes, 0, recent.len() as u64 - 1)?;
    let pair = recent.at(k as usize);
    Ok((
        Name::Mine {
            serial: pair.serial,
            class: pair.class,
        },
        rest,
    ))
}

/// So many names, each by the table that those before it leave, and the bytes behind them.
fn many_names<'a>(
    alloc: Global,
    bytes: &'a [u8],
    count: u64,
    sides: &Sides,
    recent: &mut NameLog,
) -> Result<(NameList, &'a [u8]), ReadFault>
    ensures gives { Gives (λ x. (x.0, x.1.now)) result
        (times_by (name_at sides.now) after_name count recent.old.now bytes.now) }
    ensures after { IfOk result (λ x. recent.new
        ≡ record { now = fold after_name recent.old.now x.0; kept = recent.old.kept }) }
    ensures err { OnErr result (recent.new.kept ≡ recent.old.kept) }
{
    let mut names = Items::new(alloc);
    let mut rest = bytes;
    for _ in 0..count {
        match name_of(alloc, rest, sides, recent) {
            Ok((name, after)) => {
                names.push(name)?;
                rest = after;
            }
            Err(e) => return Err(e),
        }
    }
    Ok((names, rest))
}

/// The names of a packet, and the bytes behind them. The table is then the one after the names.
#[tactic(auto, unfolding(crate::specs::Names::names_at))]
pub fn names_of<'a>(
    alloc: Global,
    bytes: &'a [u8],
    sides: &Sides,
    recent: &mut NameLog,
) -> Result<(NameList, &'a [u8]), ReadFault>
    ensures gives { Gives (λ x. (x.0, x.1.now)) result
        (names_at sides.now recent.old.now bytes.now) }
    ensures after { IfOk result (λ x. recent.new
        ≡ record { now = fold after_name recent.old.now x.0; kept = recent.old.kept }) }
    ensures err { OnErr result (recent.new.kept ≡ recent.old.kept) }
{
    let (count, rest) = num_of(bytes, 0, 65_536)?;
    many_names(alloc, rest, count, sides, recent)
}
