//! What the top invocation does within its node.
ghost use Rattle.std.specs.Prelude.{◌≡◌, ◌<◌, ◌∷◌, [], length, false};
ghost use Rattle.do_base.specs.declared.values.value.Value.TheVariants.{Obj};
ghost use Rattle.do_behave.specs.declared.invocation.InvState.TheVariants.{Below};
ghost use Rattle.do_machine.specs.{State.own, run.Changes.{goes_on, goes_to, stands, uses}};
ghost use Rattle.do_machine.specs.{run.Fresh.{pushed, with_objects}, take.Take.is_waiting};
ghost use Rattle.do_part.specs.{Names.{AreStored, sizes_of, values_of}, Rooting.root_of};
ghost use Rattle.do_stack.specs.Uses.{invocation_values};
ghost use Rattle.do_effects.specs.Plans.{IsRunning, plan_needs, to_keep, top_changed, top_popped};
ghost use Rattle.do_effects.specs.{Outs.{out_at, uses_outs}, Room.{PartHasRoom, PartKeepsRoom}};
ghost use Rattle.do_effects.specs.declared.plan.Plan.TheVariants.{Begins, Makes};

use do_base::{Locals, Value, Values};
use do_behave::Invocation;
use do_class::ClassId;
use do_part::Part;

/// The top invocation, which runs, goes on with a value in a local.
pub fn goes(part: &mut Part, into: u8, value: Value, pc: u32)
    requires runs { IsRunning part.old.own.node.stack }
    requires stored { AreStored part.old.own.node (values_of (value ∷ [])) }
    requires room { PartHasRoom (to_keep (sizes_of (value ∷ []))) part.old.room }
    ensures own { part.new.own ≡ record part.old.own {
      node = top_changed (goes_on into value pc) part.old.own.node;
    } }
    ensures within { PartKeepsRoom (to_keep (sizes_of (value ∷ []))) part.old.room
        part.new.room }
{
    part.set_local(into, value, pc);
}

/// The top invocation, which runs, goes on.
pub fn goes_to(part: &mut Part, pc: u32)
    requires runs { IsRunning part.old.own.node.stack }
    ensures own { part.new.own ≡ record part.old.own {
      node = top_changed (goes_to pc) part.old.own.node;
    } }
    ensures within { PartKeepsRoom (to_keep 0) part.old.room part.new.room }
{
    part.go_to(pc);
}

/// The local of the top invocation to which an out value goes, and the place where that goes on.
/// None exactly where it has no such out value.
fn out_local(part: &Part, at: usize) -> Option<(u8, u32)>
    ensures { result ≡ out_at at part.now.own.node.stack }
{
    let top = part.top()?;
    let into = top.outs.get(at)?;
    Some((*into, top.pc))
}

/// The out values of an answer go to the locals of the top invocation, in their order.
fn use_outs(part: &mut Part, mut outs: Values)
    requires runs { IsRunning part.old.own.node.stack }
    requires stored { AreStored part.old.own.node (values_of outs) }
    requires room { PartHasRoom (to_keep (sizes_of outs)) part.old.room }
    ensures { part.new.own ≡ record part.old.own {
      node = top_changed (uses_outs 0 outs) part.old.own.node;
    } }
{
    for at in 0..outs.len() {
        let Some((into, pc)) = out_local(part, at) else {
            return;
        };
        let value = outs.remove(0);
        goes(part, into, value, pc);
    }
}

/// The top invocation goes on with an answer: the result first, and then each out value, so that a
/// later one wins.
pub fn uses(part: &mut Part, value: Value, outs: Values)
    requires runs { IsRunning part.old.own.node.stack }
    requires stored { AreStored part.old.own.node (values_of (value ∷ outs)) }
    requires room { PartHasRoom (to_keep (sizes_of (value ∷ outs))) part.old.room }
    ensures { part.new.own ≡ record part.old.own {
      node = top_changed (uses value outs) part.old.own.node;
    } }
{
    let Some(top) = part.top() else {
        return;
    };
    let (into, pc) = (top.into, top.pc);
    goes(part, into, value, pc);
    use_outs(part, outs);
}

/// An object is made, with slots that were built before, and its name goes to a local of the top
/// invocation, which runs.
pub fn makes(part: &mut Part, class: ClassId, slots: Values, into: u8, pc: u32)
    requires runs { IsRunning part.old.own.node.stack }
    requires stored { AreStored part.old.own.node (values_of slots) }
    requires room { PartHasRoom (plan_needs (Makes class slots into pc)) part.old.room }
    ensures { part.new.own ≡ record part.old.own {
      node = with_objects (record { class = class; slots = slots } ∷ [])
          (top_changed (goes_on into
          (Obj (own part.old.own.node part.old.own.node.next_serial)) pc) part.old.own.node);
    } }
{
    let made = part.create(class, slots);
    goes(part, into, Value::Obj(made), pc);
}

/// An own object or none becomes the root, and the top invocation, which runs, goes on.
pub fn vends(part: &mut Part, root: Option<u64>, pc: u32)
    requires runs { IsRunning part.old.own.node.stack }
    requires stored { AreStored part.old.own.node (root_of part.old.own.node.port root) }
    requires room { PartHasRoom (to_keep 1) part.old.room }
    ensures { part.new.own ≡ record part.old.own {
      node = record (top_changed (goes_to pc) part.old.own.node) { root = root };
    } }
{
    goes_to(part, pc);
    part.set_root(root);
}

/// The top invocation is taken off.
pub fn ends(part: &mut Part)
    ensures own { part.new.own
        ≡ record part.old.own { node = top_popped part.old.own.node } }
    ensures within { PartKeepsRoom (to_keep 0) part.old.room part.new.room }
{
    let _top = part.pop();
}

/// The top invocation waits for one of an own object, which begins.
pub fn begins(part: &mut Part, invocation: Invocation, into: u8, outs: Locals, pc: u32)
    requires runs { IsRunning part.old.own.node.stack }
    requires depth { length part.old.own.node.stack < 256 }
    requires begins { is_waiting invocation.state ≡ false }
    requires stored { AreStored part.old.own.node (values_of (invocation_values invocation)) }
    requires room { PartHasRoom (plan_needs (Begins invocation into outs pc)) part.old.room }
    ensures { part.new.own ≡ record part.old.own {
      node = pushed invocation (top_changed (stands pc into outs Below) part.old.own.node);
    } }
{
    part.stand(pc, into, outs);
    part.push(invocation);
}
