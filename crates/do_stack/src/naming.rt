//! The objects that a value names, each once: a use for each is counted where the value comes to
//! stand, and taken off where it is taken out.
ghost use Rattle.std.specs.{Prelude.{◌≡◌, [], OnOk, IfOk}, List.flat_map};
ghost use Rattle.do_base.specs.values.Values.{objects_of};
ghost use Rattle.do_packet.specs.Met.{has_object, met, met_one};
ghost use Rattle.do_stack.specs.Uses.{named_once};

use do_base::{Items, Oid, Oids, Value, Values};
use std::alloc::{AllocError, Global};

/// Whether an object is among others.
fn is_among(oids: &Oids, oid: Oid) -> bool
    ensures { result ≡ has_object oids.now oid }
{
    oids.as_slice().iter().any(|other| oid == *other)
}

/// Appends an object, unless it is there.
fn meet_one(oids: &mut Oids, oid: Oid) -> Result<(), AllocError>
    ensures { OnOk result (oids.new ≡ met_one oids.old oid) }
{
    if is_among(oids, oid) {
        return Ok(());
    }
    oids.push(oid)
}

/// Appends the objects of a value that are not there.
#[cycle(meet)]
#[tactic(auto, using(crate::proofs::ObjectsOnce::naming_steps))]
fn meet_value(oids: &mut Oids, value: &Value) -> Result<(), AllocError>
    ensures { OnOk result (oids.new ≡ met oids.old (objects_of value.now)) }
{
    match value {
        Value::Obj(oid) => meet_one(oids, *oid),
        Value::List(values) => meet_values(oids, values),
        _ => Ok(()),
    }
}

/// Appends the objects of values that are not there.
#[cycle(meet)]
#[tactic(auto, using(crate::proofs::ObjectsOnce::naming_steps))]
fn meet_values(oids: &mut Oids, values: &Values) -> Result<(), AllocError>
    ensures { OnOk result (oids.new ≡ met oids.old (flat_map objects_of values.now)) }
{
    for value in values.as_slice() {
        meet_value(oids, value)?;
    }
    Ok(())
}

/// The objects that a value names, each once, where it is named first.
pub fn objects_named(alloc: Global, value: &Value) -> Result<Oids, AllocError>
    ensures { IfOk result (λ oids. oids ≡ named_once value.now) }
{
    let mut oids = Items::new(alloc);
    meet_value(&mut oids, value)?;
    Ok(oids)
}
