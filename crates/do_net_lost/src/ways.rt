//! The objects that items on their way between the nodes of a network name.
ghost use Rattle.std.specs.Prelude.{◌≡◌, ◌++◌, ◌∷◌, ℕ, IfOk, List, OnOk, false, length};
ghost use Rattle.std.specs.List.{flat_map};
ghost use Rattle.do_machine.specs.{World.others, run.Run.Acting};
ghost use Rattle.do_net.specs.{Lanes.carried_of, Net.{Stands, network}};
ghost use Rattle.do_net_lost.specs.Read.{left_names};
ghost use Rattle.do_net_named.specs.Waiting.{lane_names, names_by, way_names};
ghost use Rattle.do_network.specs.Net.{Carried};
ghost use Rattle.do_streams.specs.Reading.{AreKnown};

use crate::frames::{push_frame, read};
use do_base::{NodeId, Oids, Peers};
use do_class::ClassTable;
use do_coder::Recent;
use do_lost::Way;
use do_net::{Kept, Lane, Net, others};
use do_traced::Traced;
use std::alloc::AllocError;

/// Appends the objects that a frame in a lane names, read by the names that its reader read last.
///
/// The mark of a loss names nothing. False exactly where the frame cannot be read.
#[tactic(auto, using(crate::proofs::LaneTurn::lane_turns))]
fn push_kept(
    objects: &mut Oids,
    table: &ClassTable,
    way: &Way,
    names: &mut Recent,
    kept: &Kept,
) -> Result<bool, AllocError>
    requires { AreKnown (length table.now) names.old }
    ensures added { IfOk result (λ goes_on. (behind : List Carried) → objects.old
        ++ lane_names table.now way.now.from way.now.to names.old (carried_of kept.now ∷ behind)
        ≡ objects.new
        ++ left_names table.now way.now.from way.now.to names.new behind goes_on) }
    ensures known { AreKnown (length table.now) names.new }
{
    let Kept::Frame(bytes) = kept else {
        return Ok(true);
    };
    match read(table, way, names, bytes)? {
        Some(frame) => {
            push_frame(objects, way, &frame)?;
            Ok(true)
        }
        None => Ok(false),
    }
}

/// Appends the objects that the frames in a lane name, up to the first frame that cannot be read.
///
/// They are read by the names that the lane's reader read last.
fn push_lane(
    objects: &mut Oids,
    table: &ClassTable,
    way: &Way,
    names: &mut Recent,
    lane: &Lane,
) -> Result<(), AllocError>
    requires { AreKnown (length table.now) names.old }
    ensures { OnOk result (objects.new ≡ objects.old
        ++ lane_names table.now way.now.from way.now.to names.old lane.now.waiting) }
{
    for place in 0..lane.len() {
        let Some(kept) = lane.at(place) else {
            return Ok(());
        };
        if !push_kept(objects, table, way, names, kept)? {
            return Ok(());
        }
    }
    Ok(())
}

/// The names that a node read last from another; none where there is no such node.
fn names_by<S: Traced>(net: &Net<S>, port: NodeId, from: NodeId) -> Result<Recent, AllocError>
    ensures names { IfOk result (λ names.
        names ≡ names_by (network S.seen net.now) port from) }
    ensures known { (act : Acting) → Stands S.seen act net.now → net.now.spent ≡ false →
        IfOk result (λ names. AreKnown (length net.now.table) names) }
{
    match net.site(port) {
        Some(site) => site.names_read(from),
        None => Ok(Recent::new(net.allocator())),
    }
}

/// Appends the objects that the frames on their way from one node to another name.
fn push_way<S: Traced>(
    objects: &mut Oids,
    net: &Net<S>,
    from: NodeId,
    to: NodeId,
) -> Result<(), AllocError>
    requires stands { Stands S.seen (S.Acts.act net.now.acts) net.now }
    requires whole { net.now.spent ≡ false }
    ensures { OnOk result (objects.new ≡ objects.old
        ++ way_names net.now.table (network S.seen net.now) from to) }
{
    let Some(lane) = net.lane(from, to) else {
        return Ok(());
    };
    let mut names = names_by(net, to, from)?;
    push_lane(
        objects,
        net.classes(),
        &Way {
            from,
            to,
            serving: false,
        },
        &mut names,
        lane,
    )
}

/// Appends the objects that the frames on their way from one node to these peers name.
fn push_ways_to<S: Traced>(
    objects: &mut Oids,
    net: &Net<S>,
    from: NodeId,
    peers: &Peers,
) -> Result<(), AllocError>
    requires stands { Stands S.seen (S.Acts.act net.now.acts) net.now }
    requires whole { net.now.spent ≡ false }
    ensures { OnOk result (objects.new ≡ objects.old
        ++ flat_map (way_names net.now.table (network S.seen net.now) from) peers.now) }
{
    for peer in peers.as_slice() {
        push_way(objects, net, from, *peer)?;
    }
    Ok(())
}

/// Appends the objects that the frames on their way between the nodes of these ports name.
pub(crate) fn push_ways<S: Traced>(
    objects: &mut Oids,
    net: &Net<S>,
    ports: &Peers,
) -> Result<(), AllocError>
    requires stands { Stands S.seen (S.Acts.act net.now.acts) net.now }
    requires whole { net.now.spent ≡ false }
    ensures { OnOk result (objects.new ≡ objects.old ++ flat_map (λ from.
        flat_map (way_names net.now.table (network S.seen net.now) from) (others ports.now from))
        ports.now) }
{
    for from in ports.as_slice() {
        push_ways_to(objects, net, *from, &others(ports, *from)?)?;
    }
    Ok(())
}
