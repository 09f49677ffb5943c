ghost use Rattle.std.specs.{Prelude.{◌≡◌, [], IfOk, map}, List.flat_map};
ghost use Rattle.do_base.specs.declared.values.value.Value.TheVariants.{Obj};
ghost use Rattle.do_packet.specs.{Met.{copied_in, named_in}, Parts.part_of, walk.Walking.Walked};

use super::met_objects::MetObjects;
use crate::role::{Role, role_at};
use crate::view::View;
use do_base::{Items, NodeId, Oid, Value, Values};
use do_class::{Part, Parts};
use std::alloc::{AllocError, Global};

/// The objects that a message copies and those that it names, as far as they were met.
#[derive(Drop)]
pub(crate) struct Walk {
    pub(crate) copies: MetObjects,
    pub(crate) names: MetObjects,
}

impl Walk {
    /// No object was met.
    pub(crate) fn new(alloc: Global) -> Walk
        ensures { result ≡ record { copies = []; names = [] } }
    {
        Walk {
            copies: MetObjects::new(alloc),
            names: MetObjects::new(alloc),
        }
    }

    /// Meets an object, and gives the part that stands for it.
    fn object<V: View>(
        &mut self,
        view: &V,
        from: NodeId,
        copy: bool,
        oid: Oid,
    ) -> Result<Part, AllocError>
        ensures { IfOk result (λ part. Walked
            (copied_in (V.sees view.now) from copy (Obj oid))
            (named_in (V.sees view.now) from copy (Obj oid))
            (λ copies names. part_of (V.sees view.now) from copy copies names (Obj oid))
            self.old self.new part) }
    {
        match role_at(view, from, copy, oid) {
            Role::Copied => Ok(Part::Copy(self.copies.meet(oid)? as u64)),
            Role::Named => Ok(Part::Named(self.names.meet(oid)? as u64)),
            Role::Absent => Ok(Part::Nil),
        }
    }

    /// Meets the objects of a value, and gives the part that stands for it. The calls go as deep
    /// as its lists nest.
    #[cycle(part)]
    pub(crate) fn part<V: View>(
        &mut self,
        view: &V,
        from: NodeId,
        copy: bool,
        value: &Value,
    ) -> Result<Part, AllocError>
        ensures { IfOk result (λ part. Walked
            (copied_in (V.sees view.now) from copy value.now)
            (named_in (V.sees view.now) from copy value.now)
            (λ copies names. part_of (V.sees view.now) from copy copies names value.now)
            self.old self.new part) }
    {
        match value {
            Value::Nil => Ok(Part::Nil),
            Value::Num(n) => Ok(Part::Num(*n)),
            Value::Text(text) => Ok(Part::Text(text.clone()?)),
            Value::Obj(oid) => self.object(view, from, copy, *oid),
            Value::List(values) => Ok(Part::List(self.parts(view, from, copy, values)?)),
        }
    }

    /// Meets the objects of values in turn, and gives their parts.
    #[cycle(part)]
    fn parts<V: View>(
        &mut self,
        view: &V,
        from: NodeId,
        copy: bool,
        values: &Values,
    ) -> Result<Parts, AllocError>
        ensures { IfOk result (λ parts. Walked
            (flat_map (copied_in (V.sees view.now) from copy) values.now)
            (flat_map (named_in (V.sees view.now) from copy) values.now)
            (λ copies names. map (part_of (V.sees view.now) from copy copies names) values.now)
            self.old self.new parts) }
    {
        let mut parts = Items::new(values.allocator());
        for value in values.as_slice() {
            parts.push(self.part(view, from, copy, value)?)?;
        }
        Ok(parts)
    }
}
