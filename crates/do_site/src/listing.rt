//! What a check lists of a site.
ghost use Rattle.std.specs.Prelude.{◌≡◌, ◌++◌, IfOk, OnOk, filter, map, not, option_map};
ghost use Rattle.std.specs.List.{filter_map, flat_map};
ghost use Rattle.do_machine.specs.{State.{is_open, own}, check.Snapshot.object_line};
ghost use Rattle.do_network.specs.Snapshot.{entries_counted, part_line};
ghost use Rattle.do_site.specs.{Listed.{entries_among, line_at, names_stored}, Steps.part_of};

use do_base::{NodeId, Oid, Oids, Peers};
use do_effects::Core;
use do_machine::{Entry, EntryList, NodeLine, ObjLine, ObjLines};
use do_part::Part;
use std::alloc::AllocError;

/// The peers towards which the end is closed, of these.
fn closed_of(part: &Part, peers: &Peers) -> Result<Peers, AllocError>
    ensures { IfOk result (λ closed.
        closed ≡ filter (λ peer. not (is_open part.now.own.node peer)) peers.now) }
{
    let mut closed = Peers::new(peers.allocator());
    for peer in peers.as_slice() {
        if !part.is_open(*peer) {
            closed.push(*peer)?;
        }
    }
    Ok(closed)
}

/// The object of a name. None exactly where it is not stored.
fn line_at(part: &Part, oid: Oid) -> Result<Option<ObjLine>, AllocError>
    ensures { IfOk result (λ line. line ≡ line_at part.now.own.node oid) }
{
    let Some((class, slots)) = part.object(oid.serial) else {
        return Ok(None);
    };
    let slots = slots.clone()?;
    Ok(Some(ObjLine { oid, class, slots }))
}

/// The objects of these names that are stored.
fn lines_at(part: &Part, oids: &Oids) -> Result<ObjLines, AllocError>
    ensures { IfOk result (λ lines. lines ≡ filter_map (line_at part.now.own.node) oids.now) }
{
    let mut lines = ObjLines::new(oids.allocator());
    for oid in oids.as_slice() {
        if let Some(line) = line_at(part, *oid)? {
            lines.push(line)?;
        }
    }
    Ok(lines)
}

/// The stored objects, of which these are the names.
fn objects(part: &Part, stored: &Oids) -> Result<ObjLines, AllocError>
    requires { stored.now ≡ names_stored part.now.own.node }
    ensures { IfOk result (λ lines.
        lines ≡ map (object_line part.now.own.node) part.now.own.node.heap) }
{
    part.serials_are_apart();
    lines_at(part, stored)
}

/// Appends the entries that a peer has among objects of these names.
fn push_entries(
    entries: &mut EntryList,
    part: &Part,
    peer: NodeId,
    oids: &Oids,
) -> Result<(), AllocError>
    ensures { OnOk result
        (entries.new ≡ entries.old ++ entries_among part.now.own peer oids.now) }
{
    let open = part.is_open(peer);
    for oid in oids.as_slice() {
        if open && part.count(peer, oid.serial) > 0 {
            entries.push(Entry { peer, object: *oid })?;
        }
    }
    Ok(())
}

/// The entries of all peers among objects of these names.
fn entries_among(part: &Part, oids: &Oids) -> Result<EntryList, AllocError>
    ensures { IfOk result (λ entries. entries ≡ flat_map
        (λ peer. entries_among part.now.own peer oids.now) part.now.own.node.open_to) }
{
    let mut entries = EntryList::new(oids.allocator());
    for peer in part.ends().as_slice() {
        push_entries(&mut entries, part, *peer, oids)?;
    }
    Ok(entries)
}

/// The entries of all peers, where these are the names of the stored objects.
fn entries(part: &Part, stored: &Oids) -> Result<EntryList, AllocError>
    requires { stored.now ≡ names_stored part.now.own.node }
    ensures { IfOk result (λ entries.
        entries ≡ flat_map (entries_counted part.now.own) part.now.own.node.open_to) }
{
    entries_among(part, stored)
}

/// The root's name.
fn root(part: &Part) -> Option<Oid>
    ensures { result ≡ option_map (own part.now.own.node) part.now.own.node.root }
{
    let node = part.port();
    let serial = part.root()?;
    Some(Oid { node, serial })
}

/// A site, as a check lists it.
pub fn line(core: &Core) -> Result<NodeLine, AllocError>
    ensures { IfOk result (λ line. line ≡ part_line (part_of core.now)) }
{
    let part = &core.part;
    let stored = part.stored()?;
    let peers = core.streams.peers()?;
    Ok(NodeLine {
        node: part.port(),
        root: root(part),
        closed: closed_of(part, &peers)?,
        objects: objects(part, &stored)?,
        entries: entries(part, &stored)?,
    })
}
