//! The nodes of a world.
ghost use Rattle.std.specs.Prelude.{◌≡◌, ◌++◌, OnOk};
ghost use Rattle.do_advice.specs.Advice.{nodes_text, ports_text};

use do_base::{NodeId, Text};
use do_grammar::push_dec;
use std::alloc::AllocError;

/// What stands before the port that has no node.
const LACKING: &[u8] = b"the world has no node of port ";

/// What stands between that port and those that have one.
const OTHERS: &[u8] = b"; its nodes are of";

/// Adds ports, a space in front of each.
fn push_ports(out: &mut Text, ports: &[NodeId]) -> Result<(), AllocError>
    ensures { OnOk result (out.new ≡ out.old ++ ports_text ports.now) }
{
    for port in ports {
        out.push(b' ')?;
        push_dec(out, u64::from(port.port()))?;
    }
    Ok(())
}

/// Adds the line that tells which port has no node in a world, and which ports have one, in order.
///
/// If memory runs out, a part of it may have been added.
pub fn push_nodes(out: &mut Text, lacking: NodeId, ports: &[NodeId]) -> Result<(), AllocError>
    ensures { OnOk result (out.new ≡ out.old ++ nodes_text lacking ports.now) }
{
    out.push_bytes(LACKING)?;
    push_dec(out, u64::from(lacking.port()))?;
    out.push_bytes(OTHERS)?;
    push_ports(out, ports)?;
    out.push(b'\n')
}
