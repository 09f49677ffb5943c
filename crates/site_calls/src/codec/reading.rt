//! What reads messages, and what it knows.
ghost use Rattle.std.{specs.{Prelude.length, List.AllByRecursion}, proofs.Props.props};
ghost use Rattle.do_coder.specs.Recent.{IsKnown};

use bytes::Bytes;
use do_base::{NodeId, Text};
use do_class::{ClassTable, Methods, Packet, Slot, Slots};
use do_coder::{Recent, decode};
use do_frames::{Frame, Payload, RawFault, RawFrame, read_raw};
use do_grammar::CodeFault;
use std::alloc::{AllocError, Global};
use std::test::Fail;

/// A reader of messages from port 1 to port 3: its classes, and the objects named lately.
#[derive(Drop)]
pub(crate) struct Reading {
    alloc: Global,
    table: ClassTable,
    from: NodeId,
    to: NodeId,
    known: Recent,
    ghost of_table: { AllByRecursion (IsKnown (length table)) known } by { Prim.hlevel props },
}

/// Adds so many slots, each of another name.
fn push_slots(slots: &mut Slots, count: u8) -> Result<(), AllocError> {
    for number in 0..count {
        let name = Text::from_slice(slots.allocator(), &[number])?;
        slots.push(Slot { name, copy: false })?;
    }
    Ok(())
}

/// So many slots, each of another name.
fn slots(alloc: Global, count: u8) -> Result<Slots, AllocError> {
    let mut slots = Slots::new(alloc);
    push_slots(&mut slots, count)?;
    Ok(slots)
}

/// A table of one class, of so many slots.
fn one_class(alloc: Global, count: u8) -> Result<ClassTable, Fail> {
    let mut table = ClassTable::new(alloc);
    let slots = slots(alloc, count)?;
    table.add_class(Text::new(alloc), slots, Methods::new(alloc))?;
    Ok(table)
}

impl Reading {
    /// A reader that has no class and knows no object.
    pub(crate) fn new(alloc: Global) -> Result<Reading, Fail> {
        let from = NodeId::new(1).ok_or("no port")?;
        let to = NodeId::new(3).ok_or("no port")?;
        Ok(Reading {
            alloc,
            table: ClassTable::new(alloc),
            from,
            to,
            known: Recent::new(alloc),
        })
    }

    /// Begins anew, without classes.
    pub(crate) fn begin(&mut self) {
        self.known = Recent::new(self.alloc);
        self.table = ClassTable::new(self.alloc);
    }

    /// Begins anew, with one class of so many slots.
    pub(crate) fn begin_with(&mut self, count: u8) -> Result<(), Fail> {
        let table = one_class(self.alloc, count)?;
        self.known = Recent::new(self.alloc);
        self.table = table;
        Ok(())
    }

    /// How many objects are known.
    pub(crate) fn known(&self) -> usize {
        self.known.len()
    }

    /// What a payload spells.
    pub(crate) fn frame(&mut self, raw: &RawFrame) -> Result<Frame, RawFault> {
        read_raw(
            self.alloc,
            &self.table,
            self.from,
            self.to,
            &mut self.known,
            raw,
        )
    }

    /// The answer to a payload of a kind, of which nothing is kept: the place of a fault, or a
    /// million and how many objects would be known.
    pub(crate) fn answer(&self, kind: u8, payload: &[u8]) -> Result<u64, Fail> {
        let payload = Payload::cut(Bytes::copy_from_slice(self.alloc, payload)?);
        let raw = RawFrame { kind, payload };
        let mut known = self.known.copy()?;
        match read_raw(
            self.alloc,
            &self.table,
            self.from,
            self.to,
            &mut known,
            &raw,
        ) {
            Ok(_) => Ok(1_000_000u64.saturating_add(known.len() as u64)),
            Err(RawFault::BadFrame(place)) => Ok(place as u64),
            Err(RawFault::Memory) => Err(Fail::from(AllocError)),
        }
    }

    /// The packet that begins the bytes, and how many bytes it takes.
    pub(crate) fn packet(&mut self, bytes: &[u8]) -> Result<(Packet, usize), CodeFault> {
        decode(
            self.alloc,
            &self.table,
            self.from,
            self.to,
            &mut self.known,
            bytes,
        )
    }
}
