//! Values to send.
ghost use Rattle.std.specs.Prelude.{◌≡◌, ◌≤◌, ◌<◌, ◌^◌, ◌*◌, IfOk, length, sum_by};
ghost use Rattle.do_base.specs.values.Values.{weight_of};

use do_base::{Flags, Items, NodeId, Oid, Oids, Value, Values};
use std::alloc::{AllocError, Global};

/// Objects as values, at most 50,000.
pub(crate) fn objects(alloc: Global, oids: &[Oid]) -> Result<Values, AllocError>
    requires { length oids.now ≤ 50000 }
    ensures count { IfOk result (λ vs. length vs ≡ length oids.now) }
    ensures weight { IfOk result (λ vs. sum_by weight_of vs ≡ 48 * length oids.now) }
    ensures light { IfOk result (λ vs. sum_by weight_of vs < 2 ^ 32) }
{
    let mut values = Items::new(alloc);
    for oid in oids {
        values.push(Value::Obj(*oid))?;
    }
    Ok(values)
}

/// Objects of a node, with the serials from 0 on.
pub(crate) fn objects_of(alloc: Global, node: NodeId, count: usize) -> Result<Oids, AllocError>
    ensures { IfOk result (λ oids. length oids ≡ count) }
{
    let mut oids = Oids::new(alloc);
    for serial in 0..count {
        oids.push(Oid {
            node,
            serial: serial as u64,
        })?;
    }
    Ok(oids)
}

/// `count` bycopy places.
pub(crate) fn flags(alloc: Global, count: usize) -> Result<Flags, AllocError>
    ensures { IfOk result (λ fs. length fs ≡ count) }
{
    let mut flags = Flags::new(alloc);
    for k in 0..count {
        flags.push(k < count)?;
    }
    Ok(flags)
}
