//! What a node that serves writes is a record, which is read as the inputs that it did.
//!
//! It stands on the turns of a node that serves and on the grammar of records. It has no code of
//! its own: each of its functions is a law, of every state of a node of its own. It promises that
//! serving does inputs one after another, and that its record has a block for each that moved.
#![tactic(auto)]

mod laws;

pub use laws::served_records_are_read;
