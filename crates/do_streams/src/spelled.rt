ghost use Rattle.std.specs.Prelude.{◌≡◌, ◌≤◌, length};
ghost use Rattle.do_network.specs.Links.{piece_bytes};
ghost use Rattle.do_streams.specs.Pieces.{piece_in};

use do_base::{NodeId, Text};
use do_frames::Frame;

/// What is fetched next, as bytes.
#[derive(Drop)]
pub struct Spelled {
    /// The peer that it goes to.
    pub to: NodeId,
    /// The frame that is spelled. None where it is the greeting of a stream.
    pub frame: Option<Frame>,
    /// The bytes, which are a header and a payload within its limit at most.
    pub bytes: Text,
    ghost exact: { bytes ≡ piece_bytes (piece_in frame bytes) },
    ghost short: { length bytes ≤ 2098181 },
}
