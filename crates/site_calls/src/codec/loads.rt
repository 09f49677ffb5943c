//! Packets that are filled in place.

use do_base::{Items, Text};
use do_class::{ClassId, Name, Packet, Part};
use std::alloc::{AllocError, Global};

/// A packet that holds nothing.
pub(crate) fn empty(alloc: Global) -> Packet {
    Packet {
        names: Items::new(alloc),
        copies: Items::new(alloc),
        values: Items::new(alloc),
    }
}

/// Adds an object of the sender, of class 0, as the first that the packet names.
pub(crate) fn put_object(packet: &mut Packet, serial: u64) -> Result<(), AllocError> {
    let class = ClassId(0);
    packet.names.push(Name::Mine { serial, class })?;
    packet.values.push(Part::Named(0))
}

/// Adds a text so many times.
pub(crate) fn put_texts(packet: &mut Packet, text: &Text, count: u16) -> Result<(), AllocError> {
    for _ in 0..count {
        packet.values.push(Part::Text(text.clone()?))?;
    }
    Ok(())
}
