//! A frame of a peer that is read.
ghost use Rattle.std.specs.Prelude.{◌≡◌, ◌≢◌, IfErr, IfOk, IfSome, List, None, false, length, true};
ghost use Rattle.do_coder.specs.declared.recent.pair.Pair.{Pair};
ghost use Rattle.do_grammar.specs.Grammar.{IsBytes};
ghost use Rattle.do_frames.specs.Frames.{after_frame, kind_of};
ghost use Rattle.do_frames.specs.declared.fault.RawFault.TheVariants.{Memory};
ghost use Rattle.do_frames.specs.Kinds.{kind_number, numbers_alone};
ghost use Rattle.do_network.specs.Frames.{read_frame};
ghost use Rattle.do_streams.specs.{Reading.{AreKnown, IsRead, IsReading}, Plain.names_objects};

use do_base::NodeId;
use do_class::ClassTable;
use do_coder::Recent;
use do_frames::{Frame, RawFault, RawFrame, read_raw};
use std::alloc::Global;

/// A frame that was read, and the names that the peer's frames then named lately.
#[derive(Drop)]
pub struct Reading {
    /// The frame.
    pub frame: Frame,
    /// The names, where the frame may have named any; else they stay as they were.
    pub names: Option<Recent>,
}

/// A law alone: what a slice of bytes holds are bytes.
fn are_bytes(bytes: &[u8])
    ensures { IsBytes bytes.now }
{
    let _few = bytes.len();
}

/// Whether frames of a kind carry a packet, which names objects.
pub(crate) fn names_objects(kind: u8) -> bool
    ensures { result ≡ names_objects kind }
{
    matches!(kind, 1 | 2 | 3 | 6)
}

/// The frame that a raw frame spells, by the names that were named lately. Behind a frame that was
/// read they are those behind it.
///
/// `BadFrame` comes exactly where the payload spells no frame of its kind, and has the first byte
/// with which none goes on. `Memory` comes where memory runs out.
pub fn read_by(
    alloc: Global,
    table: &ClassTable,
    from: NodeId,
    to: NodeId,
    names: &mut Recent,
    raw: &RawFrame,
) -> Result<Frame, RawFault>
    requires known { AreKnown (length table.now) names.old }
    ensures read { IsRead (read_frame table.now from to names.old raw.now) result }
    ensures after { IfOk result (λ f. names.new ≡ after_frame names.old f) }
    ensures kind { IfOk result (λ f. kind_number (kind_of f) ≡ raw.now.kind) }
    ensures known { AreKnown (length table.now) names.new }
    ensures no_memory { numbers_alone raw.now.kind ≡ true → IfErr result (λ fault. fault ≢ Memory) }
{
    let _classes = table.count();
    let _few = names.len();
    are_bytes(raw.payload.as_slice());
    read_raw(alloc, table, from, to, names, raw)
}

/// The frame that a raw frame spells whose kind carries a packet, by the table of the names that
/// were named lately, which is given back with the names of the frame.
pub(crate) fn read_with_names(
    alloc: Global,
    table: &ClassTable,
    from: NodeId,
    to: NodeId,
    mut names: Recent,
    raw: &RawFrame,
) -> Result<Reading, RawFault>
    requires known { AreKnown (length table.now) names }
    ensures read { IsReading names (read_frame table.now from to names raw.now) result }
    ensures known { IfOk result (λ r. IfSome r.names (λ later.
        AreKnown (length table.now) later)) }
{
    let frame = read_by(alloc, table, from, to, &mut names, raw)?;
    Ok(Reading {
        frame,
        names: Some(names),
    })
}

/// The frame that a raw frame spells whose kind carries no packet: whatever names were named
/// lately, and they stay.
pub(crate) fn read_plain(
    alloc: Global,
    table: &ClassTable,
    from: NodeId,
    to: NodeId,
    raw: &RawFrame,
) -> Result<Reading, RawFault>
    requires plain { names_objects raw.now.kind ≡ false }
    ensures read { (names : List Pair)
        → IsReading names (read_frame table.now from to names raw.now) result }
    ensures known { IfOk result (λ r. r.names ≡ None) }
    ensures no_memory { numbers_alone raw.now.kind ≡ true → IfErr result (λ fault. fault ≢ Memory) }
{
    let mut none = Recent::new(alloc);
    match read_by(alloc, table, from, to, &mut none, raw) {
        Ok(frame) => Ok(Reading { frame, names: None }),
        Err(fault) => Err(fault),
    }
}
