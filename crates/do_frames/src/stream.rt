//! Frames on a stream that comes in pieces.
pub mod front;
pub mod pieces;
pub mod reader;
