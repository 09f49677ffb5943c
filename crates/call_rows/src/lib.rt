//! Rows of calls, each with its answer beside it, and how they are played, for the programs that
//! test what parts answer to many calls. Acts and handlers as values stand here too, and an
//! invocation at the beginning of its method.
//!
//! It stands on the values of do_base, on how schedules write them, and on the acts of do_behave,
//! and promises nothing of its own: its functions are safe, and end. The form of rows is this
//! project's own.
#![tactic(auto)]

mod acts;
mod answers;
mod arguments;
mod invocations;
mod reading;
mod rows;
mod values;

pub use acts::{act_value, handler_value};
pub use answers::{
    count_value, list_value, no_call, number_or_nil, object_or_nil, pair_value, printed, refused,
    shown, text_value, triple_value, word_alone, word_with, word_with_two,
};
pub use arguments::{
    copy_at, count_at, list_at, local_at, number_at, object_at, port_at, text_at, texts_at,
    value_at,
};
pub use invocations::begun;
pub use rows::{Part, call_of, play_file};
pub use values::digits;
