//! What ends that closed tell of: their bytes name nothing, but a node counts what it sent there.
ghost use Rattle.std.specs.{Prelude.{◌≡◌, ◌++◌, OnOk}, List.flat_map};
ghost use Rattle.do_net.specs.Net.{network};
ghost use Rattle.do_net_named.specs.Named.{told_in};

use do_base::Oids;
use do_machine::{NodeLine, Snapshot};
use do_net::{Hosted, Net};
use std::alloc::AllocError;

/// Appends the objects of a node that are in use at peers whose ends towards it are closed.
fn push_told_in<S: Hosted>(
    objects: &mut Oids,
    net: &Net<S>,
    line: &NodeLine,
) -> Result<(), AllocError>
    ensures { OnOk result
        (objects.new ≡ objects.old ++ told_in (network S.seen net.now) line.now) }
{
    for entry in line.entries.as_slice() {
        if !net.is_open(entry.peer, line.node) {
            objects.push(entry.object)?;
        }
    }
    Ok(())
}

/// Appends the objects of all nodes that are in use at peers whose ends towards them are closed.
pub(crate) fn push_told<S: Hosted>(
    objects: &mut Oids,
    net: &Net<S>,
    listed: &Snapshot,
) -> Result<(), AllocError>
    ensures { OnOk result (objects.new ≡ objects.old
        ++ flat_map (told_in (network S.seen net.now)) listed.now.nodes) }
{
    for line in listed.nodes.as_slice() {
        push_told_in(objects, net, line)?;
    }
    Ok(())
}
