//! The locals of `performService:pasteboard:error:`: its arguments, and what its acts keep.

/// The item.
pub(crate) const ITEM: u8 = 0;

/// The pasteboard, or nil.
pub(crate) const BOARD: u8 = 1;

/// The error, which comes out.
pub(crate) const ERROR: u8 = 2;

/// The service of the item.
pub(crate) const SERVICE: u8 = 3;

/// The type that the pasteboard has, or nil.
pub(crate) const KIND: u8 = 4;

/// The root of the port.
pub(crate) const PROVIDER: u8 = 5;

/// What nobody needs.
pub(crate) const ASIDE: u8 = 13;

/// The answer.
pub(crate) const ANSWER: u8 = 14;

/// The exception that was caught.
pub(crate) const CAUGHT: u8 = 15;
