//! The next frame in bytes.
ghost use Rattle.std.specs.Prelude.{◌≡◌, ◌≤◌, ◌<◌, ◌^◌, length, drop, take, List, ℕ};
ghost use Rattle.do_grammar.specs.RestAnswers.{Gives};
ghost use Rattle.do_frames.specs.{Streams.{just, frame_at, front_at}, Places.TellsPlace};

use do_grammar::{ReadFault, digits_of, split_byte};

/// What a stream begins with: a frame of kind 13 whose payload is the version.
const HELLO: [u8; 6] = [13, 0, 0, 0, 1, 2];

/// The most bytes of a payload.
pub const LONGEST_PAYLOAD: u64 = 2_098_176;

/// What stands behind just these bytes.
fn just_of<'a>(bytes: &'a [u8], text: &[u8]) -> Result<&'a [u8], ReadFault>
    ensures { Gives (λ rest. (tt, rest.now)) result (just text.now bytes.now) }
{
    match text {
        [] => Ok(bytes),
        [first, others @ ..] => {
            let Some((b, rest)) = split_byte(bytes) else {
                return Err(ReadFault::Short);
            };
            if b == *first {
                just_of(rest, others)
            } else {
                Err(ReadFault::Bad(bytes.len()))
            }
        }
    }
}

/// The kind and the payload of the frame that begins the bytes, and the bytes behind it.
#[tactic(auto, unfolding(crate::specs::Streams::frame_at))]
fn frame_of(bytes: &[u8]) -> Result<((u8, &[u8]), &[u8]), ReadFault>
    ensures { Gives (λ x. (record { kind = x.0.0; payload = x.0.1.now }, x.1.now)) result
        (frame_at bytes.now) }
{
    let Some((kind, rest)) = split_byte(bytes) else {
        return Err(ReadFault::Short);
    };
    if kind < 1 {
        return Err(ReadFault::Bad(bytes.len()));
    }
    if kind > 12 {
        return Err(ReadFault::Bad(bytes.len()));
    }
    let (length, rest) = digits_of(rest, 0, LONGEST_PAYLOAD, 0, 4)?;
    let length = length as usize;
    if rest.len() < length {
        return Err(ReadFault::Short);
    }
    let (payload, rest) = rest.split_at(length);
    Ok(((kind, payload), rest))
}

/// The same, where the greeting may still have to be passed over.
#[tactic(auto, unfolding(crate::specs::Streams::front_at))]
fn front_of(bytes: &[u8], greeted: bool) -> Result<((u8, &[u8]), &[u8]), ReadFault>
    ensures { Gives (λ x. (record { kind = x.0.0; payload = x.0.1.now }, x.1.now)) result
        (front_at greeted bytes.now) }
{
    if greeted {
        return frame_of(bytes);
    }
    let rest = just_of(bytes, &HELLO)?;
    frame_of(rest)
}

/// Where the payload of the next frame stands in the bytes.
#[derive(Clone, Copy, Debug)]
pub struct FramePlace {
    pub kind: u8,
    pub begins: usize,
    pub ends: usize,
}

/// Where the next frame's payload stands, if the bytes begin with a whole frame.
pub fn place_of(bytes: &[u8], greeted: bool) -> Result<FramePlace, ReadFault>
    ensures { TellsPlace greeted bytes.now result }
{
    match front_of(bytes, greeted) {
        Ok(((kind, payload), rest)) => {
            let ends = bytes.len() - rest.len();
            let begins = ends - payload.len();
            Ok(FramePlace { kind, begins, ends })
        }
        Err(e) => Err(e),
    }
}
