//! Serving the node that words give.
ghost use Rattle.std.specs.Prelude.{◌≡◌, ◌≤◌, []};
ghost use Rattle.do_served.specs.Nodes.{EndsOrStops, HasEnded, ServesGiven, report_of, status_of};

use crate::opening::{Opened, open_node};
use do_base::{NodeId, Shelf, Sink, Word};
use do_given::{Served, Status, served_given};
use do_link::Link;
use do_native::Native;
use do_net::{Hosted, Runnable};
use do_plan::Starts;
use do_serve::{ServeEnd, serve};
use std::alloc::Global;

/// What is told of how serving ended.
fn told_of(end: ServeEnd) -> Status
    ensures { result ≡ status_of end }
{
    match end {
        ServeEnd::Done => Status::Ok,
        ServeEnd::TurnsSpent(turns) => Status::TurnsSpent(turns),
        ServeEnd::LinkFault => Status::LinkFault,
        ServeEnd::WriteFault => Status::WriteFault,
        ServeEnd::Memory => Status::Memory,
    }
}

/// Serves a node that was opened.
fn serve_opened<S: Runnable + Hosted<Acts = Native>, K: Sink, L: Link>(
    alloc: Global,
    opened: Opened<S>,
    starts: Starts,
    turns: u64,
    out: &mut K,
    link: &mut L,
) -> Status
    requires { (S.seen opened.site).shown ≡ [] }
    ensures ended { HasEnded opened.node opened.peers turns
        (report_of (S.seen opened.site) opened.node opened.peers turns starts)
        (record {
          told = L.told link.old;
          written = K.written out.old;
          link = L.faults link.old;
          output = K.faults out.old;
        })
        (record {
          told = L.told link.new;
          written = K.written out.new;
          link = L.faults link.new;
          output = K.faults out.new;
        }) result }
    ensures later { K.faults out.old ≤ K.faults out.new }
{
    let Opened { node, site, peers } = opened;
    let mut site = site;
    let end = serve(alloc, &mut site, node, &peers, link, &starts, turns, out);
    told_of(end)
}

/// Serves a node that was given.
fn serve_read<S: Runnable + Hosted<Acts = Native>, K: Sink, L: Link>(
    alloc: Global,
    served: Served,
    turns: u64,
    out: &mut K,
    link: &mut L,
) -> Status
    ensures ended { EndsOrStops turns
        (record {
          told = L.told link.old;
          written = K.written out.old;
          link = L.faults link.old;
          output = K.faults out.old;
        })
        (record {
          told = L.told link.new;
          written = K.written out.new;
          link = L.faults link.new;
          output = K.faults out.new;
        }) served result }
    ensures later { K.faults out.old ≤ K.faults out.new }
{
    let Served { place, starts } = served;
    match open_node::<S>(alloc, place) {
        Ok(opened) => serve_opened(alloc, opened, starts, turns, out, link),
        Err(_) => Status::Memory,
    }
}

/// Serves the node of a port in the world that the first word gives, with the starts that the
/// second names, over a link, for at most so many turns, and writes its record.
///
/// A file that cannot be read, that is longer than 4,194,304 bytes for a world and 1,048,576 for
/// starts, or that says none is refused, the world first, and a world without the node as wrong at
/// `node`; nothing is done then. `Ok` says that the line `end` of the starts was used, `TurnsSpent`
/// that all turns were taken and none used it; both come with the whole record. `LinkFault` says
/// that the link did not listen, and nothing is written then. Where the sink fails or memory runs
/// out a prefix of the record was written.
pub fn serve_given<S: Runnable + Hosted<Acts = Native>, H: Shelf, K: Sink, L: Link>(
    alloc: Global,
    port: NodeId,
    world: &Word,
    starts: &Word,
    turns: u64,
    shelf: &mut H,
    out: &mut K,
    link: &mut L,
) -> Status
    ensures serves { ServesGiven (H.files shelf.old) (H.faults shelf.old) (H.faults shelf.new) port
        world.now starts.now turns
        (record {
          told = L.told link.old;
          written = K.written out.old;
          link = L.faults link.old;
          output = K.faults out.old;
        })
        (record {
          told = L.told link.new;
          written = K.written out.new;
          link = L.faults link.new;
          output = K.faults out.new;
        }) result }
    ensures same { H.files shelf.new ≡ H.files shelf.old }
    ensures shelf_faults { H.faults shelf.old ≤ H.faults shelf.new }
    ensures sink_faults { K.faults out.old ≤ K.faults out.new }
{
    match served_given(alloc, port, world, starts, shelf) {
        Ok(served) => serve_read::<S, K, L>(alloc, served, turns, out, link),
        Err(status) => status,
    }
}
