ghost use Rattle.do_world.specs.declared.world.World as world;
ghost use Rattle.do_given.specs.declared.status.Status as declared;
ghost use Rattle.std.specs.Prelude.{◌≡◌, ◌≤◌, List, Ok, Err, IfOk, IfErr, None, Some};
ghost use Rattle.do_base.specs.declared.outside.shelf.NamedFile.{NamedFile};
ghost use Rattle.do_world.specs.{Builtin.builtin_world, Reading.IsWorldText, Sound.IsSound};
ghost use Rattle.do_given.specs.{Files.IsUnread, Reading.{GivesWorld, IsNoWorld, SaysNoWorld}};
ghost use Rattle.do_given.specs.Reading.{OrMemory, OrUnread, RefusesWorld, SaysWorld, Stops};

use crate::fetching::fetch_within;
use crate::status::Status;
use do_base::{Shelf, Word};
use do_world::{World, WorldFault, builtin, read_world};
use std::alloc::Global;

/// The most bytes of a world's file.
const MOST_BYTES: u64 = 4_194_304;

/// The world that the bytes of a file say.
fn world_said(alloc: Global, bytes: &[u8]) -> Result<World, Status>
    ensures says { IfOk result (IsWorldText bytes.now) }
    ensures sound { IfOk result IsSound }
    ensures stopped { IfErr result (Stops ⊥ ⊥ (IsNoWorld bytes.now)) }
    ensures accepts { (said : world.World) → IsWorldText bytes.now said
        → OrMemory (Ok said) result }
    ensures refuses { (status : declared.Status) → IsNoWorld bytes.now status
        → OrMemory (Err status) result }
{
    match read_world(alloc, bytes) {
        Ok(world) => Ok(world),
        Err(WorldFault::Memory) => Err(Status::Memory),
        Err(fault) => Err(Status::BadWorld(fault)),
    }
}

/// The world that the file of this name says.
fn world_in_file<H: Shelf>(alloc: Global, name: &Word, shelf: &mut H) -> Result<World, Status>
    ensures says { IfOk result (SaysWorld (H.files shelf.old) name.now) }
    ensures sound { IfOk result IsSound }
    ensures stopped { IfErr result (Stops
        (IsUnread (H.files shelf.old) (H.faults shelf.old) (H.faults shelf.new) name.now) ⊥
        (SaysNoWorld (H.files shelf.old) name.now)) }
    ensures accepts { (files : List NamedFile) (said : world.World)
        → H.files shelf.old ≡ Some files
        → SaysWorld (Some files) name.now said → OrUnread (Ok said) result }
    ensures refuses { (files : List NamedFile) (status : declared.Status)
        → H.files shelf.old ≡ Some files
        → SaysNoWorld (Some files) name.now status → OrUnread (Err status) result }
    ensures same { H.files shelf.new ≡ H.files shelf.old }
    ensures later { H.faults shelf.old ≤ H.faults shelf.new }
{
    let bytes = fetch_within(name, MOST_BYTES, shelf)?;
    world_said(alloc, bytes.as_slice())
}

/// The world that a word gives: the built-in one of this name, or else the one that the file of
/// this name says.
pub fn world_given<H: Shelf>(alloc: Global, word: &Word, shelf: &mut H) -> Result<World, Status>
    ensures gives { IfOk result (GivesWorld (H.files shelf.old) word.now) }
    ensures sound { IfOk result IsSound }
    ensures stopped { IfErr result (Stops ((builtin_world word.now ≡ None)
        × IsUnread (H.files shelf.old) (H.faults shelf.old) (H.faults shelf.new) word.now) ⊥
        (RefusesWorld (H.files shelf.old) word.now)) }
    ensures accepts { (files : List NamedFile) (given : world.World)
        → H.files shelf.old ≡ Some files
        → GivesWorld (Some files) word.now given → OrUnread (Ok given) result }
    ensures refuses { (files : List NamedFile) (status : declared.Status)
        → H.files shelf.old ≡ Some files
        → RefusesWorld (Some files) word.now status → OrUnread (Err status) result }
    ensures same { H.files shelf.new ≡ H.files shelf.old }
    ensures later { H.faults shelf.old ≤ H.faults shelf.new }
{
    match builtin(alloc, word)? {
        Some(world) => Ok(world),
        None => world_in_file(alloc, word, shelf),
    }
}
