//! A node of a world, as the words of a command give it.
ghost use Rattle.do_given.specs.declared.seated.Seated as declared;
ghost use Rattle.do_given.specs.declared.status.Status as statuses;
ghost use Rattle.std.specs.Prelude.{◌≡◌, ◌≤◌, ◌==◌, ◌⊎◌, List, None, Ok, Err, IfOk, IfErr, Some};
ghost use Rattle.std.specs.{Prelude.{codes, find}, Option.option_copied};
ghost use Rattle.do_base.specs.declared.outside.shelf.NamedFile.{NamedFile};
ghost use Rattle.do_world.specs.Builtin.{builtin_world};
ghost use Rattle.do_document.specs.declared.fault.WorldFault.TheVariants.{Wrong};
ghost use Rattle.do_given.specs.declared.status.Status.TheVariants.{BadWorld, Memory};
ghost use Rattle.do_given.specs.{Files.IsUnread, Reading.{OrUnread, Stops}};
ghost use Rattle.do_given.specs.Serving.{GivesSeat, RefusesSeat};

use crate::status::Status;
use crate::worlds::world_given;
use do_base::{NodeId, Shelf, Text, Word};
use do_machine::{Seat, Seats};
use do_world::{World, WorldFault};
use std::alloc::Global;

/// A world, and one of its nodes.
#[derive(Drop)]
pub struct Seated {
    /// The world.
    pub world: World,
    /// The node.
    pub seat: Seat,
}

/// The node of a port among others.
fn seat_in(seats: &Seats, port: NodeId) -> Option<&Seat>
    ensures { option_copied result ≡ find (λ s. port == s.node) seats.now }
{
    seats.as_slice().iter().find(|seat| port == seat.node)
}

/// What is told of a world that lacks the node.
fn lacking(alloc: Global) -> Status
    ensures { (result ≡ BadWorld (Wrong (codes "node"))) ⊎ (result ≡ Memory) }
{
    match Text::from_slice(alloc, b"node") {
        Ok(path) => Status::BadWorld(WorldFault::Wrong(path)),
        Err(_) => Status::Memory,
    }
}

/// The world that a word gives, and its node of a port.
///
/// A world without one is refused as wrong at `node`.
pub(crate) fn seated_given<H: Shelf>(
    alloc: Global,
    port: NodeId,
    word: &Word,
    shelf: &mut H,
) -> Result<Seated, Status>
    ensures gives { IfOk result (GivesSeat (H.files shelf.old) port word.now) }
    ensures stopped { IfErr result (Stops ((builtin_world word.now ≡ None)
        × IsUnread (H.files shelf.old) (H.faults shelf.old) (H.faults shelf.new) word.now) ⊥
        (RefusesSeat (H.files shelf.old) port word.now)) }
    ensures accepts { (files : List NamedFile) (given : declared.Seated)
        → H.files shelf.old ≡ Some files
        → GivesSeat (Some files) port word.now given → OrUnread (Ok given) result }
    ensures refuses { (files : List NamedFile) (status : statuses.Status)
        → H.files shelf.old ≡ Some files
        → RefusesSeat (Some files) port word.now status → OrUnread (Err status) result }
    ensures same { H.files shelf.new ≡ H.files shelf.old }
    ensures later { H.faults shelf.old ≤ H.faults shelf.new }
{
    let world = match world_given(alloc, word, shelf) {
        Ok(world) => world,
        Err(status) => return Err(status),
    };
    let Some(seat) = seat_in(&world.nodes, port) else {
        return Err(lacking(alloc));
    };
    let seat = *seat;
    Ok(Seated { world, seat })
}
