//! What was spelled is fetched, where it has a spelling that its peer can read.
//!
//! A frame is spelled when it is fetched, and not when it is sent: so sending takes no memory.
//! A frame that has no spelling which its peer can read is not fetched. That, as a payload over
//! the limit of a frame, shows as if memory ran out, and what waits stays as it was. The test
//! is made on what was spelled, each time that it is fetched, so no promise has to hold from
//! one call to the next. Meanwhile it stays spelled where there was no memory for its bytes.
ghost use Rattle.std.specs.Prelude.{◌≡◌, ◌↔◌, ◌++◌, IfOk, IsTrue, OnErr, OnOk};
ghost use Rattle.do_network.specs.{Links.piece_bytes, Spelled.IsSpelledSending};
ghost use Rattle.do_streams.specs.Streamed.{sending_of};

use crate::spelled::Spelled;
use do_base::{NodeId, Text};
use do_class::ClassTable;
use do_spelled::has_spelling;
use std::alloc::AllocError;

/// Whether what a port sends has a spelling that its peer can read, as the greeting always has.
fn is_readable(next: &Spelled, table: &ClassTable, me: NodeId) -> bool
    ensures { IsTrue result ↔ IsSpelledSending table.now me (sending_of next.now) }
{
    match &next.frame {
        Some(frame) => has_spelling(frame, table, me, next.to),
        None => true,
    }
}

/// Appends bytes. An empty text shares them.
fn append(bytes: &mut Text, more: &Text) -> Result<(), AllocError>
    ensures ok { OnOk result (bytes.new ≡ bytes.old ++ more.now) }
    ensures err { OnErr result (bytes.new ≡ bytes.old) }
{
    if bytes.is_empty() {
        *bytes = more.clone()?;
        return Ok(());
    }
    bytes.push_bytes(more.as_slice())
}

/// Appends the bytes of what a port sends, and tells the peer that it goes to.
///
/// An error means that memory ran out, or that what is sent has no spelling that its peer can read;
/// the bytes are then unchanged. It is a call of its own, since most steps send nothing.
#[inline(never)]
pub fn fetch(
    next: &Spelled,
    table: &ClassTable,
    me: NodeId,
    bytes: &mut Text,
) -> Result<NodeId, AllocError>
    ensures to { IfOk result (λ to. to ≡ (sending_of next.now).to) }
    ensures bytes { OnOk result
        (bytes.new ≡ bytes.old ++ piece_bytes (sending_of next.now).piece) }
    ensures spelled { OnOk result (IsSpelledSending table.now me (sending_of next.now)) }
    ensures err { OnErr result (bytes.new ≡ bytes.old) }
{
    if !is_readable(next, table, me) {
        return Err(AllocError);
    }
    append(bytes, &next.bytes)?;
    Ok(next.to)
}
