//! What a world's nodes share.
ghost use Rattle.std.specs.Prelude.{◌≡◌, IfOk};
ghost use Rattle.do_given.specs.Parts.{behaviour_of};

use do_class::ClassTable;
use do_machine::{Seats, Shared};
use do_native::Native;
use do_world::World;
use std::alloc::{AllocError, Global};

/// The classes of a world and what decides their acts, which its nodes share, and the nodes.
#[derive(Drop)]
pub struct Parts {
    /// The classes.
    pub table: Shared<ClassTable>,
    /// What decides the acts of their objects.
    pub acts: Shared<Native>,
    /// The nodes, in any order.
    pub nodes: Seats,
}

/// The parts of a world.
///
/// The one error is that memory ran out.
pub fn parts_of(alloc: Global, world: World) -> Result<Parts, AllocError>
    ensures table { IfOk result (λ parts. parts.table ≡ world.table) }
    ensures acts { IfOk result (λ parts. parts.acts ≡ behaviour_of world) }
    ensures nodes { IfOk result (λ parts. parts.nodes ≡ world.nodes) }
{
    let World {
        table,
        kinds,
        rules,
        program,
        nodes,
    } = world;
    let acts = Shared::new(alloc, Native::new(kinds, program, rules))?;
    let table = Shared::new(alloc, table)?;
    Ok(Parts { table, acts, nodes })
}
