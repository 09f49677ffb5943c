//! The outside as traits, a shelf of files and a sink for bytes, with both in memory.
pub mod mem_shelf;
pub mod mem_sink;
pub mod shelf;
pub mod sink;
