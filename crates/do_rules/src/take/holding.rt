//! The objects that a node holds.
ghost use Rattle.std.specs.Prelude.{◌≡◌, OnOk, fold};
ghost use Rattle.do_machine.specs.{Objects.joined, take.Take.holding};
ghost use Rattle.do_rules.specs.Exporting.{exports_of};

use crate::effect::Done;
use crate::lists::{Ordered, insert};
use crate::node::has_object;
use crate::node::naming::push_exports;
use do_base::{NodeId, Oid, Oids};
use do_machine::{Item, Node};

impl Ordered for Oid {
    ghost use Rattle.do_machine.specs.Objects.{object_lt};

    ghost before = { object_lt };

    fn is_before(&self, other: &Oid) -> bool {
        let (first, second) = (self.node.port(), other.node.port());
        if first == second {
            self.serial < other.serial
        } else {
            first < second
        }
    }
}

/// An object joins others, once and in order.
fn join(held: &mut Oids, object: Oid) -> Done
    ensures { OnOk result (held.new ≡ joined held.old object) }
{
    if has_object(held, &object) {
        return Ok(());
    }
    insert(held, object)
}

/// Objects join others, one after another.
fn join_all(held: &mut Oids, objects: &[Oid]) -> Done
    ensures { OnOk result (held.new ≡ fold joined held.old objects.now) }
{
    let [first, rest @ ..] = objects else {
        return Ok(());
    };
    join(held, *first)?;
    join_all(held, rest)
}

/// The node holds what an item exports to it.
pub(crate) fn hold(node: &mut Node, from: NodeId, item: &Item) -> Done
    ensures { OnOk result (node.new ≡ holding (exports_of from item.now) node.old) }
{
    let mut objects = Oids::new(node.held.allocator());
    push_exports(&mut objects, from, item)?;
    join_all(&mut node.held, objects.as_slice())
}
