//! A world, and the lines of a schedule over it, as the words of a command give them.
ghost use Rattle.do_given.specs.declared.scheduled.Scheduled as declared;
ghost use Rattle.do_given.specs.declared.status.Status as statuses;
ghost use Rattle.std.specs.Prelude.{◌≡◌, ◌≤◌, List, Ok, Err, IfOk, IfErr, Some};
ghost use Rattle.do_base.specs.declared.outside.shelf.NamedFile.{NamedFile};
ghost use Rattle.do_world.specs.Sound.{IsSound};
ghost use Rattle.do_given.specs.Reading.{GivesScheduled, HasUnreadScheduled, OrUnread};
ghost use Rattle.do_given.specs.Reading.{RefusesScheduled, Stops};

use crate::schedules::lines_given;
use crate::status::Status;
use crate::worlds::world_given;
use do_base::{Shelf, Word};
use do_sched::Lines;
use do_world::World;
use std::alloc::Global;

/// A world, with the lines of a schedule over it.
#[derive(Drop)]
pub struct Scheduled {
    /// The world.
    pub world: World,
    /// The lines, in order.
    pub lines: Lines,
}

/// The world that the first word gives, with the lines of the schedule that the second names.
pub fn scheduled_given<H: Shelf>(
    alloc: Global,
    world: &Word,
    schedule: &Word,
    shelf: &mut H,
) -> Result<Scheduled, Status>
    ensures gives { IfOk result (GivesScheduled (H.files shelf.old) world.now schedule.now) }
    ensures sound { IfOk result (λ given. IsSound given.world) }
    ensures stopped { IfErr result (Stops
        (HasUnreadScheduled (H.files shelf.old) (H.faults shelf.old) (H.faults shelf.new)
        world.now schedule.now) ⊥
        (RefusesScheduled (H.files shelf.old) world.now schedule.now)) }
    ensures accepts { (files : List NamedFile) (given : declared.Scheduled)
        → H.files shelf.old ≡ Some files
        → GivesScheduled (Some files) world.now schedule.now given → OrUnread (Ok given) result }
    ensures refuses { (files : List NamedFile) (status : statuses.Status)
        → H.files shelf.old ≡ Some files
        → RefusesScheduled (Some files) world.now schedule.now status
        → OrUnread (Err status) result }
    ensures same { H.files shelf.new ≡ H.files shelf.old }
    ensures later { H.faults shelf.old ≤ H.faults shelf.new }
{
    let world = match world_given(alloc, world, shelf) {
        Ok(world) => world,
        Err(status) => return Err(status),
    };
    match lines_given(alloc, schedule, shelf) {
        Ok(lines) => Ok(Scheduled { world, lines }),
        Err(status) => Err(status),
    }
}
