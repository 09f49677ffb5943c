//! The worlds that are built in, by their names.
ghost use Rattle.std.specs.Prelude.{◌≡◌, IfOk, IfSome};
ghost use Rattle.do_world.specs.{Builtin.builtin_world, Mesh.{mesh_text, mesh_world}};
ghost use Rattle.do_world.specs.{Reading.IsWorldText, Sound.IsSound};

use crate::counter_world::counter;
use crate::reader::read_world;
use crate::world::World;
use do_base::Text;
use do_document::WorldFault;
use do_grammar::is_text;
use std::alloc::{AllocError, Global};

/// The text of the world `:mesh`, which has no fault.
#[tactic(auto, unfolding(crate::specs::Mesh::mesh_text))]
fn mesh_text() -> &'static [u8]
    ensures value { result.now ≡ mesh_text }
    ensures says { IsWorldText result.now mesh_world }
{
    b"version = 1

[[class]]
name = 'Item'
slots = ['link copy']

[[class]]
name = 'Peer'
slots = ['a', 'b']

[[class.method]]
selector = 'go:'
types = 'v@:S'
code = '''
root l1 l0
new l2 Item
set a l2
send l3 l1 hold: l2
get l4 b
send l3 l1 pass: l4
send l3 l1 copy: l2
'''

[[class.method]]
selector = 'hold:'
types = 'v@:@'
code = 'set b l0'

[[class.method]]
selector = 'pass:'
types = 'v@:@'
code = 'set a l0'

[[class.method]]
selector = 'copy:'
types = 'v@:O@'

[[node]]
port = 7001
root = 'Peer'

[[node]]
port = 7002
root = 'Peer'

[[node]]
port = 7003
root = 'Peer'

[[node]]
port = 7004
root = 'Peer'
"
}

/// The world `:mesh`: nodes 7001 to 7004 have a peer each as their root.
///
/// A peer's `go:` takes a port, makes an item, and sends it to that node's peer by its name and as
/// a copy. A machine can open with it. Fails where memory ran out.
pub fn mesh(alloc: Global) -> Result<World, AllocError>
    ensures value { IfOk result (λ world. world ≡ mesh_world) }
    ensures sound { IfOk result IsSound }
{
    match read_world(alloc, mesh_text()) {
        Ok(world) => Ok(world),
        Err(WorldFault::Memory) => Err(AllocError),
        Err(_) => unreachable!(),
    }
}

/// The built-in world of a name, and None exactly for another name than `:counter` and `:mesh`.
///
/// A machine can open with either. Fails where memory ran out.
#[tactic(auto, unfolding(crate::specs::Builtin::builtin_world))]
pub fn builtin(alloc: Global, name: &Text) -> Result<Option<World>, AllocError>
    ensures value { IfOk result (λ world. world ≡ builtin_world name.now) }
    ensures sound { IfOk result (λ world. IfSome world IsSound) }
{
    if is_text(name.as_slice(), b":counter") {
        let world = counter(alloc)?;
        return Ok(Some(world));
    }
    if is_text(name.as_slice(), b":mesh") {
        let world = mesh(alloc)?;
        return Ok(Some(world));
    }
    Ok(None)
}
