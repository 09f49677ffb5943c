//! Lists, with room or without, and exact copies and comparisons of what they hold.
pub mod exact;
pub mod items;
pub mod reserved;
