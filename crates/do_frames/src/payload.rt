//! Reading payloads: their parts, each kind, and the frame that a whole payload spells.
pub mod exception;
pub mod front;
pub mod packets;
pub mod plain;
pub mod selector;
pub mod whole;
