//! How many acts the nodes of a network are asked for.

use crate::counting::Counting;
use crate::opening::{counters, replay};
use crate::transcripts::schedule_of;
use call_rows::pair_value;
use do_base::{Text, Value, Values};
use do_behave::Program;
use do_class::ClassTable;
use do_machine::{Seats, Shared};
use do_net::Makers;
use do_sched::read_schedule;
use do_world::{World, read_world};
use std::test::Fail;

/// Adds a port, and how many acts its node was asked for.
fn push_count(values: &mut Values, port: u16, asked: u64) -> Result<(), Fail> {
    let port = Value::Num(i64::from(port));
    let asked = Value::Num(i64::try_from(asked)?);
    let count = pair_value(values.allocator(), port, asked)?;
    Ok(values.push(count)?)
}

/// Adds how many acts each node was asked for, by its port.
fn push_counts(values: &mut Values, nodes: &Seats, makers: &Makers<Counting>) -> Result<(), Fail> {
    for (node, counting) in nodes.as_slice().iter().zip(makers.as_slice()) {
        push_count(values, node.node.port(), counting.get().asked())?;
    }
    Ok(())
}

/// How many acts each node was asked for, by its port.
fn counts(nodes: &Seats, makers: &Makers<Counting>) -> Result<Value, Fail> {
    let mut values = Values::new(nodes.allocator());
    push_counts(&mut values, nodes, makers)?;
    Ok(Value::List(values))
}

/// Replays a schedule over the network of nodes, and tells how many acts each was asked for.
fn count(
    table: &Shared<ClassTable>,
    program: &Shared<Program>,
    nodes: &Seats,
    schedule: &[u8],
) -> Result<Value, Fail> {
    let lines = read_schedule(nodes.allocator(), schedule)?;
    let makers = counters(program, nodes)?;
    if makers.is_empty() {
        return Err("no node".into());
    }
    replay(table, nodes, &makers, lines)?;
    counts(nodes, &makers)
}

/// Replays a schedule over the network of a world, and tells how many acts each node was asked for.
fn count_in(world: World, schedule: &Text) -> Result<Value, Fail> {
    let World {
        table,
        program,
        nodes,
        ..
    } = world;
    let alloc = nodes.allocator();
    let table = Shared::new(alloc, table)?;
    let program = Shared::new(alloc, program)?;
    count(&table, &program, &nodes, schedule.as_slice())
}

/// How many acts each node of a world is asked for over the schedule of a transcript.
pub(crate) fn counts_of(world: &Text, transcript: &Text) -> Result<Value, Fail> {
    let schedule = schedule_of(transcript)?;
    count_in(read_world(world.allocator(), world.as_slice())?, &schedule)
}
