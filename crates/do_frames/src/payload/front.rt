//! Reading whole payloads.
ghost use Rattle.std.specs.Prelude.{◌≡◌, ◌≤◌, ◌<◌, ◌^◌, ◌≢◌, length, true, List, ℕ, IfOk, IfErr};
ghost use Rattle.std.specs.{Prelude.OnErr, List.AllByRecursion};
ghost use Rattle.do_coder.specs.{Recent.IsKnown, Packets.surroundings};
ghost use Rattle.do_frames.specs.declared.{fault.RawFault.TheVariants.Memory, frame.Frame.Frame};
ghost use Rattle.do_frames.specs.{Frames.after_frame, Kinds.numbers_alone};
ghost use Rattle.do_frames.specs.Payloads.{SpellsPayload, TellsFrame, FindsFrame};

use crate::fault::RawFault;
use crate::frame::{Frame, RawFrame};
use crate::kind::kind_of;
use crate::payload::whole::whole_of;
use do_base::NodeId;
use do_class::ClassTable;
use do_coder::Recent;
use do_grammar::ReadFault;
use std::alloc::Global;

/// The frame of the kind with a number that a whole payload spells.
fn frame_of(
    alloc: Global,
    table: &ClassTable,
    from: NodeId,
    to: NodeId,
    recent: &mut Recent,
    number: u8,
    bytes: &[u8],
) -> Result<Frame, RawFault>
    requires known { AllByRecursion (IsKnown (length table.now)) recent.old }
    ensures exact { TellsFrame (surroundings table.now from to) recent.old number bytes.now result }
    ensures only { (f : Frame)
        → SpellsPayload (surroundings table.now from to) recent.old number bytes.now f
        → FindsFrame f result }
    ensures after { IfOk result (λ f. recent.new ≡ after_frame recent.old f) }
    ensures err { OnErr result (recent.new ≡ recent.old) }
    ensures stay_known { AllByRecursion (IsKnown (length table.now)) recent.new }
    ensures no_memory { numbers_alone number ≡ true → IfErr result (λ fault. fault ≢ Memory) }
    ensures names_stay { numbers_alone number ≡ true → recent.new ≡ recent.old }
{
    let _classes = table.count();
    let _few = recent.len();
    let Some(kind) = kind_of(number) else {
        return Err(RawFault::BadFrame(0));
    };
    match whole_of(alloc, kind, bytes, table, from, to, recent) {
        Ok(frame) => Ok(frame),
        Err(ReadFault::Short) => Err(RawFault::BadFrame(bytes.len())),
        Err(ReadFault::Bad(left)) => Err(RawFault::BadFrame(bytes.len() - left)),
        Err(ReadFault::Memory) => Err(RawFault::Memory),
    }
}

/// The frame that a raw frame spells, whose payload was read whole.
///
/// It is read as a message from one port to another, by the classes of `table` and by the table of
/// recent names, which is then the one after the frame. The pairs of that table have serials from 1
/// to 2^63 - 1 and classes of `table`; they still do afterwards.
///
/// `BadFrame` comes exactly where the payload spells no frame of the kind; it has the first byte
/// with which none goes on, which is the one behind the spelling where bytes are left over, or the
/// payload's length where the payload is a proper front of a spelling, or 0 where no frame has the
/// kind. `Memory` comes where memory runs out, so for no frame that holds numbers alone, as a
/// `Release`, a `Settle` and a `Shutdown` do. Such a frame leaves the table of recent names as it
/// was, and so does a refusal.
pub fn read_raw(
    alloc: Global,
    table: &ClassTable,
    from: NodeId,
    to: NodeId,
    recent: &mut Recent,
    raw: &RawFrame,
) -> Result<Frame, RawFault>
    requires known { AllByRecursion (IsKnown (length table.now)) recent.old }
    ensures exact { TellsFrame (surroundings table.now from to) recent.old raw.now.kind
        raw.now.payload result }
    ensures only { (f : Frame)
        → SpellsPayload (surroundings table.now from to) recent.old raw.now.kind raw.now.payload f
        → FindsFrame f result }
    ensures after { IfOk result (λ f. recent.new ≡ after_frame recent.old f) }
    ensures err { OnErr result (recent.new ≡ recent.old) }
    ensures stay_known { AllByRecursion (IsKnown (length table.now)) recent.new }
    ensures no_memory { numbers_alone raw.now.kind ≡ true → IfErr result (λ fault. fault ≢ Memory) }
    ensures names_stay { numbers_alone raw.now.kind ≡ true → recent.new ≡ recent.old }
{
    let payload = raw.payload.as_slice();
    frame_of(alloc, table, from, to, recent, raw.kind, payload)
}
