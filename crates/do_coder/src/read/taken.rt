//! The classes and the serials that a new name can no longer have, since their pairs are in the
//! table.
ghost use Rattle.std.specs.{Prelude.{◌≡◌, ◌<◌, ◌-◌, ◌++◌, map, not, IfOk, OnOk}, List.filter};
ghost use Rattle.do_grammar.specs.BesideHoles.{some_beside};
ghost use Rattle.do_coder.specs.Names.{taken_with, taken_whole};

use crate::recent::name_log::NameLog;
use crate::recent::pair::Pair;
use do_base::Items;
use do_class::ClassId;
use std::alloc::{AllocError, Global};

fn push_taken(out: &mut Items<u64>, pairs: &[Pair], serial: u64) -> Result<(), AllocError>
    ensures { OnOk result (out.new ≡ out.old ++ taken_with serial pairs.now) }
{
    match pairs {
        [] => Ok(()),
        [first, rest @ ..] => {
            if first.serial == serial {
                out.push(u64::from(first.class.0))?;
            }
            push_taken(out, rest, serial)
        }
    }
}

/// The classes that are in the table with a serial.
pub(crate) fn taken_of(alloc: Global, pairs: &[Pair], serial: u64) -> Result<Items<u64>, AllocError>
    ensures { IfOk result (λ holes. holes ≡ taken_with serial pairs.now) }
{
    let mut out = Items::new(alloc);
    push_taken(&mut out, pairs, serial)?;
    Ok(out)
}

/// Whether some class from one on is not in the table with a serial.
#[tactic(auto, using(crate::proofs::tables::FreeClass::free_class))]
fn some_free(recent: &NameLog, serial: u64, from: u32, classes: u32) -> bool
    requires { 0 < classes }
    ensures { result ≡ some_beside (taken_with serial recent.now.now) from (classes - 1) }
{
    if from >= classes {
        return false;
    }
    let pair = Pair {
        serial,
        class: ClassId(from),
    };
    match recent.place(&pair) {
        None => true,
        Some(_) => some_free(recent, serial, from + 1, classes),
    }
}

fn push_whole(
    out: &mut Items<u64>,
    pairs: &[Pair],
    recent: &NameLog,
    classes: u32,
) -> Result<(), AllocError>
    requires { 0 < classes }
    ensures { OnOk result (out.new ≡ out.old
        ++ filter (λ n. not (some_beside (taken_with n recent.now.now) 0 (classes - 1)))
        (map (λ p. p.serial) pairs.now)) }
{
    match pairs {
        [] => Ok(()),
        [first, rest @ ..] => {
            if !some_free(recent, first.serial, 0, classes) {
                out.push(first.serial)?;
            }
            push_whole(out, rest, recent, classes)
        }
    }
}

/// The serials that are in the table with every class.
pub fn whole_of(alloc: Global, recent: &NameLog, classes: u32) -> Result<Items<u64>, AllocError>
    requires { 0 < classes }
    ensures { IfOk result (λ holes. holes ≡ taken_whole classes recent.now.now) }
{
    let mut out = Items::new(alloc);
    push_whole(&mut out, recent.pairs(), recent, classes)?;
    Ok(out)
}
