//! Values for locals.
ghost use Rattle.std.specs.Prelude.{◌≡◌, ◌∷◌, [], IfOk};
ghost use Rattle.do_native_acts.specs.Steps.{caught_to, set};

use do_base::Value;
use do_behave::{Handler, LocalSet, LocalSets};
use std::alloc::{AllocError, Global};

/// The local of what a method answers.
pub(crate) const ANSWER: u8 = 14;

/// The local of what went wrong.
const CAUGHT: u8 = 15;

/// An exception goes to local 15, and the method goes on at this place.
pub(crate) fn caught_to(pc: u32) -> Option<Handler>
    ensures { result ≡ caught_to pc }
{
    Some(Handler { into: CAUGHT, pc })
}

/// A value for one local.
pub(crate) fn one_set(alloc: Global, local: u8, value: Value) -> Result<LocalSets, AllocError>
    ensures { IfOk result (λ sets. sets ≡ set local value ∷ []) }
{
    let mut sets = LocalSets::with_capacity(alloc, 1)?;
    sets.push(LocalSet { local, value })?;
    Ok(sets)
}

/// Values for two locals.
pub(crate) fn two_sets(
    alloc: Global,
    local: u8,
    value: Value,
    other: u8,
    second: Value,
) -> Result<LocalSets, AllocError>
    ensures { IfOk result (λ sets. sets ≡ set local value ∷ set other second ∷ []) }
{
    let mut sets = LocalSets::with_capacity(alloc, 3)?;
    sets.push(LocalSet { local, value })?;
    sets.push(LocalSet {
        local: other,
        value: second,
    })?;
    Ok(sets)
}
