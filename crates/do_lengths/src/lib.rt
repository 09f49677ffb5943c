//! How many bytes a message takes at most, by what it weighs.
//!
//! It stands on packing and on how packets and frames are spelled. It has no code of its own: each
//! of its functions is a law. It promises that a packet that was packed is spelled in no more bytes
//! than it weighs and 27. So the payload of each frame that has a spelling is within the limit of a
//! payload, whatever was named lately.
//!
//! Each number is counted as nine bytes, which is what the largest takes, and each object that
//! is named as 37 of its name besides its place. That is within the 48 that an object weighs. A
//! copy has two numbers in front, and weighs 16. So the count of its slots is held to seven
//! bytes, by its weight.
#![tactic(auto)]

mod laws;

pub use laws::{packets_are_no_longer_than_they_weigh, payloads_are_within_the_limit};
