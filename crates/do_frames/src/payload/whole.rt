//! The payload of each kind, and the frame that a whole payload of it spells.
ghost use Rattle.std.specs.Prelude.{◌≡◌, ◌≤◌, ◌<◌, ◌^◌, ◌≢◌, true, IfOk, IfErr, OnErr};
ghost use Rattle.do_grammar.specs.{Reader.{no_kind, whole_of as whole_reader}, RestAnswers.Gives};
ghost use Rattle.do_grammar.specs.declared.fault.ReadFault.TheVariants.{Memory};
ghost use Rattle.do_coder.specs.Packets.{surroundings};
ghost use Rattle.do_frames.specs.{Frames.after_frame, Kinds.{kind_number, numbers_alone}};
ghost use Rattle.do_frames.specs.Payloads.{payload_at};

use crate::frame::Frame;
use crate::kind::Kind;
use crate::payload::packets::{answer_of, call, message_of, oneway};
use crate::payload::plain::{
    TOP, gone_of, granted_of, raised_of, release_of, retain_of, root_ask_of, settle_of,
};
use do_base::NodeId;
use do_class::ClassTable;
use do_coder::{NameLog, Recent};
use do_grammar::{ReadFault, num_of};
use std::alloc::Global;

/// The frame of a kind whose payload begins the bytes, and the bytes behind it. The table is then
/// the one after the frame.
#[tactic(auto, using(crate::proofs::payloads::TableStays::table_stays))]
fn payload_of<'a>(
    alloc: Global,
    kind: Kind,
    bytes: &'a [u8],
    table: &ClassTable,
    from: NodeId,
    to: NodeId,
    recent: &mut NameLog,
) -> Result<(Frame, &'a [u8]), ReadFault>
    ensures gives { Gives (λ x. (x.0, x.1.now)) result
        (payload_at (surroundings table.now from to) recent.old.now kind bytes.now) }
    ensures after { IfOk result (λ x. recent.new
        ≡ record { now = after_frame recent.old.now x.0; kept = recent.old.kept }) }
    ensures err { OnErr result (recent.new.kept ≡ recent.old.kept) }
    ensures no_memory { numbers_alone (kind_number kind) ≡ true
        → IfErr result (λ fault. fault ≢ Memory) }
{
    match kind {
        Kind::Call => {
            let (number, rest) = num_of(bytes, 1, TOP)?;
            let (message, rest) = message_of(alloc, rest, table, from, to, recent)?;
            Ok((call(number, message), rest))
        }
        Kind::Oneway => {
            let (message, rest) = message_of(alloc, bytes, table, from, to, recent)?;
            Ok((oneway(message), rest))
        }
        Kind::Reply => {
            let ((call, packet), rest) = answer_of(alloc, bytes, table, from, to, recent)?;
            Ok((Frame::Reply { call, packet }, rest))
        }
        Kind::RootAnswer => {
            let ((call, packet), rest) = answer_of(alloc, bytes, table, from, to, recent)?;
            Ok((Frame::RootAnswer { call, packet }, rest))
        }
        Kind::Raised => raised_of(alloc, bytes),
        Kind::RootAsk => root_ask_of(bytes),
        Kind::Retain => retain_of(bytes),
        Kind::Granted => granted_of(bytes),
        Kind::Gone => gone_of(bytes),
        Kind::Release => release_of(bytes),
        Kind::Settle => settle_of(bytes),
        Kind::Shutdown => Ok((Frame::Shutdown, bytes)),
    }
}

/// The frame of a kind that the whole payload spells. The table is then the one after the frame;
/// any refusal leaves it as it was.
pub fn whole_of(
    alloc: Global,
    kind: Kind,
    bytes: &[u8],
    table: &ClassTable,
    from: NodeId,
    to: NodeId,
    recent: &mut Recent,
) -> Result<Frame, ReadFault>
    ensures gives { Gives (λ f. f) result (whole_reader no_kind
        (payload_at (surroundings table.now from to) recent.old kind) bytes.now) }
    ensures after { IfOk result (λ f. recent.new ≡ after_frame recent.old f) }
    ensures err { OnErr result (recent.new ≡ recent.old) }
    ensures no_memory { numbers_alone (kind_number kind) ≡ true
        → IfErr result (λ fault. fault ≢ Memory) }
{
    let mut log = recent.take_log();
    match payload_of(alloc, kind, bytes, table, from, to, &mut log) {
        Ok((frame, rest)) => {
            if rest.is_empty() {
                recent.keep(log);
                Ok(frame)
            } else {
                recent.undo(log);
                Err(ReadFault::Bad(rest.len()))
            }
        }
        Err(e) => {
            recent.undo(log);
            Err(e)
        }
    }
}
