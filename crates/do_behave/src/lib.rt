//! What an invocation does next: its acts, the trait of whatever decides them, and programs of
//! scripts.
//!
//! It stands on the values of do_base, the class tables of do_class and the method language of
//! do_script. An act is exact: it is the one that the definition of the behaviour names, for every
//! invocation. The language and the acts are this project's own.
//!
//! A law of a trait can cite only what stands in a crate's specs, so the proofs of the laws of
//! scripts stand there, in `specs/laws`. `specs` itself holds definitions alone.
#![tactic(auto)]

mod act;
mod behaviour;
mod change;
mod exchanged;
mod exchanging;
mod held;
mod in_place;
mod invocation;
mod limits;
mod lists;
mod messages;
mod moving;
mod numbers;
mod program;
mod script;
mod setting;
mod steps;

pub use act::{Act, Write, Writes};
pub use behaviour::Behaviour;
pub use change::{Change, LocalSet, LocalSets};
pub use exchanged::{Exchanged, Left, Taken};
pub use exchanging::exchange;
pub use held::{Frame, Held};
pub use in_place::{act_in_place, make_change};
pub use invocation::{Answer, Handler, InvState, Invocation, Reason, Waited};
pub use program::{ClassCodes, Codes, Program};
pub use setting::put_local;
