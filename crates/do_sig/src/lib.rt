//! The Objective-C runtimes' type encodings and method signatures: reading, printing, and what they
//! say of the values of a call.
//!
//! It stands on do_base for values and texts, and on do_grammar for readers that are exact. It
//! promises that every `Encoding` and every `Signature` has a spelling, and that what is printed is
//! read again as the same value. Each refusal names the first byte that is wrong.
//!
//! The letters are those of "Type Encodings" in Apple's Objective-C Runtime Programming Guide, as
//! `@encode` of clang and of GNUstep's and Apple's runtimes gives them. The profile is this
//! project's own, and so is what fits which type. Its limits are eight types open at once, counts
//! up to 1,024, names up to 64 bytes and eight arguments.
//!
//! Whether a text at `*` has a byte 0 is found by the kit's `memchr`, which looks at many bytes
//! at once. A long text is looked at four times on its way there and back.
#![tactic(auto)]

mod encoding;
mod fault;
mod letters;
mod outermost;
mod qualifiers;
mod signature;
mod types;
mod value_type;

pub use encoding::{Encoding, Encodings};
pub use fault::EncFault;
pub use qualifiers::{Direction, Passing, Qualifier, Qualifiers};
pub use signature::Signature;
pub use value_type::{OutermostType, Scalar, ValueType};
