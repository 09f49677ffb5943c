//! Ports that nobody could listen at.
ghost use Rattle.std.specs.Prelude.{◌≡◌, ◌++◌, OnOk};
ghost use Rattle.do_advice.specs.Advice.{cause_text, unheard_text};

use do_base::{NodeId, Text};
use do_grammar::push_dec;
use std::alloc::AllocError;

/// What stands before the port.
const PORT: &[u8] = b"port ";

/// What stands behind a port at which a program listens.
const TAKEN: &[u8] = b" is taken: another program of this machine listens at it\n";

/// What stands behind any other.
const UNHEARD: &[u8] = b" could not be listened at\n";

/// Why a port could not be listened at.
fn cause(is_taken: bool) -> &'static [u8]
    ensures { result.now ≡ cause_text is_taken }
{
    if is_taken { TAKEN } else { UNHEARD }
}

/// Adds the line that tells at which port a node could not listen, and whether another program does.
///
/// If memory runs out, a part of it may have been added.
pub fn push_unheard(out: &mut Text, port: NodeId, is_taken: bool) -> Result<(), AllocError>
    ensures { OnOk result (out.new ≡ out.old ++ unheard_text port is_taken) }
{
    out.push_bytes(PORT)?;
    push_dec(out, u64::from(port.port()))?;
    out.push_bytes(cause(is_taken))
}
