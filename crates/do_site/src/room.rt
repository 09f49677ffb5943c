//! Room that is made before a step changes anything.
ghost use Rattle.std.specs.Prelude.{◌≡◌, ◌≤◌, ◌+◌, IfSome, OnOk, length, vec_capacity};
ghost use Rattle.do_site.specs.{Room.{HasPlace, HasPlaces}, Steps.IsSame};

use crate::needs::Needs;
use crate::told::Told;
use do_base::Token;
use do_effects::Core;
use do_part::Part;
use std::alloc::AllocError;

/// Makes room for the ends of all that the node asked for, and asks for once so many more objects
/// are received. What the list had is dropped, and it has no less room than before.
fn reserve_settled(part: &Part, received: u64, settled: &mut Vec<Token>) -> Result<(), AllocError>
    ensures ok { OnOk result
        (length part.now.own.node.asked + received ≤ vec_capacity settled.new) }
    ensures kept { vec_capacity settled.old ≤ vec_capacity settled.new }
{
    settled.clear();
    let Some(asked) = part.asks().checked_add(received) else {
        return Err(AllocError);
    };
    settled.reserve(asked as usize)
}

/// How many frames and lines a step may add, with those that tell what is then freed, left and
/// settled, one for each of 64 ends that may close, and two lines.
fn waiting_with(told: &Told, needs: &Needs) -> Option<usize>
    ensures { IfSome result (λ n. n ≡ vec_capacity told.now.freed + vec_capacity told.now.left
        + vec_capacity told.now.settled + 66 + needs.now.waiting) }
{
    let told = told
        .freed
        .capacity()
        .checked_add(told.left.capacity())?
        .checked_add(told.settled.capacity())?;
    told.checked_add(66)?.checked_add(needs.waiting as usize)
}

/// Makes room for a step, and for what is then freed, left and settled.
///
/// An error means that memory ran out, or that the numbers are too great; nothing but room changed
/// then. Room that was there stays, and so a close can still be done.
pub fn make_room(core: &mut Core, told: &mut Told, needs: &Needs) -> Result<(), AllocError>
    ensures same { IsSame core.old core.new }
    ensures classes { core.new.streams.classes ≡ core.old.streams.classes }
    ensures places { HasPlaces core.old told.old → HasPlaces core.new told.new }
    ensures room { OnOk result (HasPlace needs.now core.new told.new) }
{
    core.part.reserve(needs.objects, needs.invocations, needs.names, needs.entries)?;
    core.part.make_room_to_leave(
        needs.objects,
        needs.entries,
        &mut told.freed,
        &mut told.left,
    )?;
    reserve_settled(&core.part, needs.entries, &mut told.settled)?;
    let Some(waiting) = waiting_with(told, needs) else {
        return Err(AllocError);
    };
    core.streams.reserve(waiting)
}
