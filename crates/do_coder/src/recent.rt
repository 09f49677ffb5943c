//! The table of recent names, found by an ordered map, and the log that takes back a refused
//! message.
pub mod index;
pub mod name_log;
pub mod pair;
pub mod table;
