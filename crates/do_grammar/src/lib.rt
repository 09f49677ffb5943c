//! What exact readers of bytes share. What it is to read a grammar exactly stands in specs/ and
//! proofs/. Numbers, texts, names and lines are read with the first byte at which reading has to
//! stop.
//!
//! A writer that found no memory may have added a part of its text; its caller drops the text.
//! The limit of a quoted text is a parameter.
#![tactic(auto)]

mod beside;
mod byte;
mod counted;
mod decimal;
mod fault;
mod line;
mod name;
mod number;
mod quoted;
mod signed;
mod skipped;

pub use beside::num_beside_of;
pub use byte::split_byte;
pub use counted::{push_text, text_of};
pub use decimal::{dec_of, int_of, push_dec, push_int};
pub use fault::{CodeFault, ReadFault};
pub use line::{is_text, line_of, part_of, word_of};
pub use name::{colons_in, is_name, is_selector};
pub use number::{digits_of, num_of, push_num};
pub use quoted::{push_quoted, quoted_of};
pub use signed::{push_signed, signed_of};
pub use skipped::skip_quoted;
