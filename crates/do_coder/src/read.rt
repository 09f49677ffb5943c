//! Reading packets: their names by the table, then their copies and their values.
pub mod front;
pub mod name;
pub mod packet;
pub mod part;
pub mod sides;
pub mod taken;
