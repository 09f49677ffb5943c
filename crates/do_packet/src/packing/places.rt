ghost use Rattle.std.specs.{Prelude.{◌≡◌, [], length, IfOk, map}, Option.IsSome};
ghost use Rattle.std.specs.List.{flat_map, zip};
ghost use Rattle.do_packet.specs.Copies.{copied_at, named_at, slots_at};
ghost use Rattle.do_packet.specs.{Packing.{copied_of, part_at}, Seen.sender, walk.Walking.Walked};

use super::walk::Walk;
use crate::view::View;
use do_base::{Flags, Items, NodeId, Oid, Values};
use do_class::{ClassId, ClassTable, Copied, Parts, Slots};
use std::alloc::{AllocError, Global};

/// A copy of an object of a class, without slots.
fn bare(alloc: Global, class: ClassId) -> Copied
    ensures { result ≡ record { class = class; slots = [] } }
{
    Copied {
        class,
        slots: Items::new(alloc),
    }
}

impl Walk {
    /// Meets the objects of the values sent, each in a place that is bycopy or not.
    pub(crate) fn values<V: View>(
        &mut self,
        table: &ClassTable,
        view: &V,
        from: NodeId,
        copy: &Flags,
        values: &Values,
    ) -> Result<Parts, AllocError>
        requires { length copy.now ≡ length values.now }
        ensures { IfOk result (λ parts. Walked
            (flat_map (copied_at (sender table.now from (V.sees view.now)))
            (zip copy.now values.now))
            (flat_map (named_at (sender table.now from (V.sees view.now)))
            (zip copy.now values.now))
            (λ copies names. map
            (part_at (sender table.now from (V.sees view.now)) copies names)
            (zip copy.now values.now))
            self.old self.new parts) }
    {
        let marks = copy.as_slice();
        let items = values.as_slice();
        let mut parts = Items::new(values.allocator());
        for i in 0..items.len() {
            let mark = &marks[i];
            parts.push(self.part(view, from, *mark, &items[i])?)?;
        }
        Ok(parts)
    }

    /// Meets the objects in the slots of an object.
    fn slots<V: View>(
        &mut self,
        table: &ClassTable,
        view: &V,
        from: NodeId,
        slots: &Slots,
        values: &Values,
    ) -> Result<Parts, AllocError>
        ensures { IfOk result (λ parts. Walked
            (flat_map (copied_at (sender table.now from (V.sees view.now)))
            (zip (map (λ slot. slot.copy) slots.now) values.now))
            (flat_map (named_at (sender table.now from (V.sees view.now)))
            (zip (map (λ slot. slot.copy) slots.now) values.now))
            (λ copies names. map
            (part_at (sender table.now from (V.sees view.now)) copies names)
            (zip (map (λ slot. slot.copy) slots.now) values.now))
            self.old self.new parts) }
    {
        let marks = slots.as_slice();
        let items = values.as_slice();
        let count = marks.len().min(items.len());
        let mut parts = Items::new(values.allocator());
        for i in 0..count {
            let slot = &marks[i];
            parts.push(self.part(view, from, slot.copy, &items[i])?)?;
        }
        Ok(parts)
    }

    /// Meets the objects in the slots of a copy, and gives the copy.
    pub(crate) fn copied<V: View>(
        &mut self,
        alloc: Global,
        table: &ClassTable,
        view: &V,
        from: NodeId,
        oid: Oid,
    ) -> Result<Copied, AllocError>
        requires classed { IsSome ((V.sees view.now).class_of oid) }
        ensures { IfOk result (λ copied. Walked
            (flat_map (copied_at (sender table.now from (V.sees view.now)))
            (slots_at (sender table.now from (V.sees view.now)) oid))
            (flat_map (named_at (sender table.now from (V.sees view.now)))
            (slots_at (sender table.now from (V.sees view.now)) oid))
            (λ copies names.
            copied_of (sender table.now from (V.sees view.now)) copies names oid)
            self.old self.new copied) }
    {
        let Some(class) = view.class_of(oid) else {
            unreachable!()
        };
        if class.0 >= table.count() {
            return Ok(bare(alloc, class));
        }
        let Some(values) = view.slots(oid) else {
            return Ok(bare(alloc, class));
        };
        let slots = self.slots(table, view, from, table.slots(class), values)?;
        Ok(Copied { class, slots })
    }
}
