//! Frames of peers that are read, and the peers.
ghost use Rattle.std.specs.Prelude.{◌≡◌, ◌≢◌, ◌<◌, IfErr, IfOk, IfSome, Some, length, map};
ghost use Rattle.std.specs.Prelude.{slice_get, true};
ghost use Rattle.do_frames.specs.declared.{fault.RawFault.TheVariants.Memory, frame.Frame.Frame};
ghost use Rattle.do_frames.specs.{Frames.after_frame, Kinds.numbers_alone};
ghost use Rattle.do_network.specs.{Frames.read_frame, Links.change_link};
ghost use Rattle.do_streams.specs.{Ordered.ArePorts, Reading.{AllKnown, AreKnown, IsReadBy}};
ghost use Rattle.do_streams.specs.{Reading.{IsReading, names_of}, Streamed.link_of};

use super::Streams;
use crate::end::End;
use crate::reading::{Reading, names_objects, read_plain, read_with_names};
use do_base::{Items, NodeId, Peers};
use do_class::ClassTable;
use do_coder::Recent;
use do_frames::{RawFault, RawFrame};
use do_ported::Ports;
use std::alloc::AllocError;

/// Hands out the table of the names that a peer's frames named lately, which stay as they are; an
/// empty one where there is no link with it.
fn hand_out_names(
    ports: &Ports,
    ends: &mut Items<End>,
    from: NodeId,
    classes: usize,
) -> Result<Recent, AllocError>
    requires ordered { ArePorts ports.now ends.old }
    requires known { AllKnown classes ends.old }
    ensures names { IfOk result (λ names. names ≡ names_of (map link_of ends.old) from) }
    ensures known { IfOk result (λ names. AreKnown classes names) }
    ensures same { ends.new ≡ ends.old }
{
    match ports.place(from) {
        Some(at) => ends.at_mut(at).hand_out_names(),
        None => Ok(Recent::new(ends.allocator())),
    }
}

/// Puts the names that a peer's frames named lately in place of those before.
fn put_names(ports: &Ports, ends: &mut Items<End>, from: NodeId, names: Recent, classes: usize)
    requires ordered { ArePorts ports.now ends.old }
    requires known { AllKnown classes ends.old }
    requires fit { AreKnown classes names }
    ensures ends { map link_of ends.new
        ≡ change_link from (λ l. record l { read = names }) (map link_of ends.old) }
    ensures known { AllKnown classes ends.new }
    ensures still { ArePorts ports.now ends.new }
{
    let Some(at) = ports.place(from) else {
        return;
    };
    ends.at_mut(at).put_names(names);
}

/// The end at a place.
#[tactic(auto, using(std::proofs::lemmas::Option::slice_get_read))]
fn end_in(ends: &Items<End>, at: usize) -> &End
    requires { at < length ends.now }
    ensures { slice_get ends.now at ≡ Some result.now }
{
    &ends.as_slice()[at]
}

/// A table of the names that a peer's frames named lately; an empty one where there is no link with
/// it.
fn names_in(
    ports: &Ports,
    ends: &Items<End>,
    from: NodeId,
    classes: usize,
) -> Result<Recent, AllocError>
    requires ordered { ArePorts ports.now ends.now }
    requires known { AllKnown classes ends.now }
    ensures names { IfOk result (λ names. names ≡ names_of (map link_of ends.now) from) }
    ensures known { IfOk result (λ names. AreKnown classes names) }
{
    match ports.place(from) {
        Some(at) => end_in(ends, at).read.copy(),
        None => Ok(Recent::new(ends.allocator())),
    }
}

/// The peers of ends, in their order.
fn listed_peers(ends: &Items<End>) -> Result<Peers, AllocError>
    ensures { IfOk result (λ peers. peers ≡ map (λ e. e.peer) ends.now) }
{
    let mut peers = Peers::new(ends.allocator());
    for end in ends.as_slice() {
        peers.push(end.peer)?;
    }
    Ok(peers)
}

impl Streams {
    /// Reads a frame of a peer by the names that its frames named lately. These change only when
    /// they are kept: so a frame that was read can be dropped, and nothing is seen of that.
    ///
    /// `BadFrame` comes exactly where the payload spells no frame of its kind, and has the first
    /// byte with which none goes on. `Memory` comes where memory runs out, so for no frame that
    /// holds numbers alone, as a `Release`, a `Settle` and a `Shutdown` do.
    pub fn read(
        &mut self,
        table: &ClassTable,
        from: NodeId,
        to: NodeId,
        raw: &RawFrame,
    ) -> Result<Reading, RawFault>
        requires { self.old.classes ≡ length table.now }
        ensures read { IsReading (names_of self.old.links from)
            (read_frame table.now from to (names_of self.old.links from) raw.now) result }
        ensures known { IfOk result (λ r. IfSome r.names (λ names.
            AreKnown self.old.classes names)) }
        ensures no_memory { numbers_alone raw.now.kind ≡ true
            → IfErr result (λ fault. fault ≢ Memory) }
        ensures same { self.new ≡ self.old }
    {
        let alloc = self.ends.allocator();
        if !names_objects(raw.kind) {
            return read_plain(alloc, table, from, to, raw);
        }
        let Ok(names) = hand_out_names(&self.ports, &mut self.ends, from, self.classes) else {
            return Err(RawFault::Memory);
        };
        read_with_names(alloc, table, from, to, names, raw)
    }

    /// Keeps the names of a frame of a peer that was read, for which no memory is taken.
    pub fn keep_read(&mut self, from: NodeId, names: Option<Recent>)
        requires { IfSome names (λ later. AreKnown self.old.classes later) }
        ensures links { (frame : Frame) → IsReadBy (names_of self.old.links from) frame names
            → self.new.links ≡ change_link from (λ l. record l { read = after_frame l.read frame })
            self.old.links }
        ensures same { self.new ≡ record self.old { links = self.new.links } }
    {
        let Some(later) = names else {
            return;
        };
        put_names(&self.ports, &mut self.ends, from, later, self.classes);
    }

    /// A table of the names that a peer's frames named lately that were taken; an empty one where
    /// there is no link with it.
    pub fn names_read(&self, from: NodeId) -> Result<Recent, AllocError>
        ensures names { IfOk result (λ names. names ≡ names_of self.now.links from) }
        ensures known { IfOk result (λ names. AreKnown self.now.classes names) }
    {
        names_in(&self.ports, &self.ends, from, self.classes)
    }

    /// The peers with which there are links, in their order.
    pub fn peers(&self) -> Result<Peers, AllocError>
        ensures { IfOk result (λ peers. peers ≡ map (λ l. l.peer) self.now.links) }
    {
        listed_peers(&self.ends)
    }
}
