//! Frames that stand in a lane: how they are read, and what each names.
ghost use Rattle.std.specs.Prelude.{◌≡◌, ◌++◌, ◌∷◌, [], IfOk, OnOk, false, length, map};
ghost use Rattle.do_lost.specs.Named.{item_names, name_object};
ghost use Rattle.do_machine.specs.Objects.{object_at};
ghost use Rattle.do_net.specs.Lanes.{frame_in};
ghost use Rattle.do_net_lost.specs.Read.{IsReadOf};
ghost use Rattle.do_network.specs.Frames.{item_of, read_frame};
ghost use Rattle.do_streams.specs.Reading.{AreKnown};

use do_base::{NodeId, Oid, Oids, Text};
use do_class::{ClassTable, NameList};
use do_coder::Recent;
use do_frames::{Frame, RawFault};
use do_lost::{Way, push_names};
use do_net::frame_in;
use do_streams::read_by;
use std::alloc::AllocError;

/// The frame that bytes spell, read by the names that were named last. None exactly where it cannot
/// be read.
pub(crate) fn read(
    table: &ClassTable,
    way: &Way,
    names: &mut Recent,
    bytes: &Text,
) -> Result<Option<Frame>, AllocError>
    requires { AreKnown (length table.now) names.old }
    ensures read { IfOk result (λ frame. IsReadOf names.old names.new
        (read_frame table.now way.now.from way.now.to names.old (frame_in bytes.now)) frame) }
    ensures known { AreKnown (length table.now) names.new }
{
    let alloc = bytes.allocator();
    let raw = frame_in(bytes.clone()?);
    match read_by(alloc, table, way.from, way.to, names, &raw) {
        Ok(frame) => Ok(Some(frame)),
        Err(RawFault::BadFrame(_)) => Ok(None),
        Err(RawFault::Memory) => Err(AllocError),
    }
}

/// Appends the object of a node with a serial.
fn push_object(objects: &mut Oids, node: NodeId, serial: u64) -> Result<(), AllocError>
    ensures { OnOk result (objects.new ≡ objects.old ++ object_at node serial ∷ []) }
{
    objects.push(Oid { node, serial })
}

/// Appends the object that a message goes to, and those that it names.
#[tactic(auto, using(std::proofs::lemmas::List::append_assoc))]
fn push_message(
    objects: &mut Oids,
    way: &Way,
    serial: u64,
    names: &NameList,
) -> Result<(), AllocError>
    ensures { OnOk result (objects.new ≡ objects.old
        ++ object_at way.now.to serial ∷ map (name_object way.now.from way.now.to) names.now) }
{
    push_object(objects, way.to, serial)?;
    push_names(objects, way, names)
}

/// Appends what a frame on its way names. The end that it may tell of names nothing.
#[tactic(auto, using(do_lost::proofs::NamesAsObjects::names_mean))]
pub(crate) fn push_frame(objects: &mut Oids, way: &Way, frame: &Frame) -> Result<(), AllocError>
    ensures { OnOk result (objects.new
        ≡ objects.old ++ item_names way.now.from way.now.to false (item_of frame.now)) }
{
    match frame {
        Frame::Call { serial, packet, .. } | Frame::Oneway { serial, packet, .. } => {
            push_message(objects, way, *serial, &packet.names)
        }
        Frame::Reply { packet, .. } | Frame::RootAnswer { packet, .. } => {
            push_names(objects, way, &packet.names)
        }
        Frame::Retain { serial, .. } | Frame::Release { serial, .. } => {
            push_object(objects, way.to, *serial)
        }
        Frame::Granted { serial, .. } | Frame::Gone { serial, .. } => {
            push_object(objects, way.from, *serial)
        }
        _ => Ok(()),
    }
}
