//! The site of the first node of a world.

use crate::player::Player;
use crate::playing::play;
use do_base::{NodeId, Peers, Shown, Text};
use do_behave::Program;
use do_class::ClassTable;
use do_lines::push_check;
use do_machine::{NodeLines, Seat, Seats, Shared, Snapshot};
use do_network::{Done, Input};
use do_site::Site;
use do_world::{World, read_world};
use std::alloc::AllocError;
use std::fs;
use std::test::Fail;

/// What a site is opened with.
#[derive(Drop)]
pub(crate) struct Opening {
    table: Shared<ClassTable>,
    acts: Shared<Program>,
    seat: Seat,
    ports: Peers,
}

/// A site, and its classes.
#[derive(Drop)]
struct Opened {
    table: Shared<ClassTable>,
    site: Site<Program>,
}

/// The ports of nodes.
fn ports_of(nodes: &Seats) -> Result<Peers, AllocError> {
    let mut ports = Peers::new(nodes.allocator());
    for seat in nodes.as_slice() {
        ports.push(seat.node)?;
    }
    Ok(ports)
}

/// What the site of a seat is opened with.
fn opening_at(
    table: ClassTable,
    program: Program,
    seat: Seat,
    ports: Peers,
) -> Result<Opening, AllocError> {
    let alloc = ports.allocator();
    let table = Shared::new(alloc, table)?;
    let acts = Shared::new(alloc, program)?;
    Ok(Opening {
        table,
        acts,
        seat,
        ports,
    })
}

/// What the site of the first node of a world is opened with, all of whose classes are scripts.
fn opening_of(world: World) -> Result<Opening, Fail> {
    let ports = ports_of(&world.nodes)?;
    let World {
        table,
        program,
        nodes,
        ..
    } = world;
    match nodes.first() {
        Some(seat) => Ok(opening_at(table, program, *seat, ports)?),
        None => Err(Fail::from("no node")),
    }
}

/// What the site of the first node of the world in a file is opened with.
pub(crate) fn opening_in(rt: &HostRuntime, name: &str) -> Result<Opening, Fail> {
    opening_of(read_world(rt.alloc(), fs::read(rt, name)?.as_slice())?)
}

/// The site, before its first input.
fn site_at(opening: &Opening) -> Result<Opened, AllocError> {
    let Seat { node, root } = opening.seat;
    let shown = opening.table.clone()?;
    let table = opening.table.clone()?;
    let acts = opening.acts.clone()?;
    match Site::new(node, root, &opening.ports, table, acts) {
        Ok(site) => Ok(Opened { table: shown, site }),
        Err(AllocError) => Err(AllocError),
    }
}

/// Plays the lines of a run at a new site, or tries one of them.
pub(crate) fn play_new(
    opening: &Opening,
    run: &[u8],
    tried: Option<&[u8]>,
    last: &mut Text,
    out: &mut Text,
) -> Result<(), Fail> {
    let mut player = site_at(opening)?;
    play(&mut player, run, tried, last, out)
}

/// Adds what is listed of a site to what is listed of nodes, and this to a text.
fn push_site(
    site: &Site<Program>,
    table: &ClassTable,
    listed: &mut Snapshot,
    out: &mut Text,
) -> Result<(), AllocError> {
    listed.nodes.push(site.snapshot()?)?;
    push_check(out, table, listed)
}

impl Player for Opened {
    fn hand(&mut self, input: &Input) -> Result<Done, AllocError> {
        self.site.handle(input)
    }

    fn next_frame(&mut self, bytes: &mut Text) -> Result<Option<NodeId>, AllocError> {
        self.site.next_frame(bytes)
    }

    fn next_shown(&mut self) -> Option<Shown> {
        self.site.next_shown()
    }

    fn push_listed(&self, out: &mut Text) -> Result<(), AllocError> {
        let nodes = NodeLines::new(out.allocator());
        push_site(&self.site, self.table.get(), &mut Snapshot { nodes }, out)
    }
}
