//! A node of a world, and its starts, as the words of a command give them.
ghost use Rattle.do_given.specs.declared.served.Served as declared;
ghost use Rattle.do_given.specs.declared.status.Status as statuses;
ghost use Rattle.std.specs.Prelude.{◌≡◌, ◌≤◌, List, Ok, Err, IfOk, IfErr, Some};
ghost use Rattle.do_base.specs.declared.outside.shelf.NamedFile.{NamedFile};
ghost use Rattle.do_given.specs.Reading.{HasUnreadScheduled, OrUnread, Stops};
ghost use Rattle.do_given.specs.Serving.{GivesServed, RefusesServed};

use crate::forms::starts_given;
use crate::seated::{Seated, seated_given};
use crate::status::Status;
use do_base::{NodeId, Shelf, Word};
use do_plan::Starts;
use std::alloc::Global;

/// A node of a world, with its starts.
#[derive(Drop)]
pub struct Served {
    /// The node and its world.
    pub place: Seated,
    /// The lines of its starts, in order.
    pub starts: Starts,
}

/// The node of a port in the world that the first word gives, with the starts that the second
/// names.
pub fn served_given<H: Shelf>(
    alloc: Global,
    port: NodeId,
    world: &Word,
    starts: &Word,
    shelf: &mut H,
) -> Result<Served, Status>
    ensures gives { IfOk result (GivesServed (H.files shelf.old) port world.now starts.now) }
    ensures stopped { IfErr result (Stops
        (HasUnreadScheduled (H.files shelf.old) (H.faults shelf.old) (H.faults shelf.new)
        world.now starts.now) ⊥
        (RefusesServed (H.files shelf.old) port world.now starts.now)) }
    ensures accepts { (files : List NamedFile) (given : declared.Served)
        → H.files shelf.old ≡ Some files
        → GivesServed (Some files) port world.now starts.now given → OrUnread (Ok given) result }
    ensures refuses { (files : List NamedFile) (status : statuses.Status)
        → H.files shelf.old ≡ Some files
        → RefusesServed (Some files) port world.now starts.now status
        → OrUnread (Err status) result }
    ensures same { H.files shelf.new ≡ H.files shelf.old }
    ensures later { H.faults shelf.old ≤ H.faults shelf.new }
{
    let place = match seated_given(alloc, port, world, shelf) {
        Ok(place) => place,
        Err(status) => return Err(status),
    };
    match starts_given(alloc, starts, shelf) {
        Ok(starts) => Ok(Served { place, starts }),
        Err(status) => Err(status),
    }
}
