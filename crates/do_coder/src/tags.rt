//! The bytes that stand in front of names and values, and tell their kinds apart.

/// An object of the sender that the table of recent names does not have.
pub const NEW: u8 = 1;

/// An object of the receiver.
pub const YOURS: u8 = 2;

/// An object that is lent.
pub const LENT: u8 = 3;

/// An object of the sender that the table of recent names has.
pub const KNOWN: u8 = 4;

/// Nil.
pub const NIL: u8 = 0;

/// A number.
pub const NUMBER: u8 = 1;

/// A text.
pub const TEXT: u8 = 2;

/// A copied object.
pub const COPY: u8 = 3;

/// A named object.
pub const NAMED: u8 = 4;

/// A list.
pub const LIST: u8 = 5;
