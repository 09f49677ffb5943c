//! Laws of lengths, each carried by a function that does nothing else.
ghost use Rattle.std.specs.Prelude.{◌≡◌, ◌+◌, ◌≤◌, ℕ, List, Ok, length};
ghost use Rattle.do_class.specs.declared.packet.Packet.{Packet};
ghost use Rattle.do_coder.specs.declared.recent.pair.Pair.{Pair};
ghost use Rattle.do_coder.specs.Packets.{Surroundings, packet_spelling};
ghost use Rattle.do_frames.specs.{declared.frame.Frame.Frame, Frames.{IsFrame, payload_spelling}};
ghost use Rattle.do_lengths.specs.Short.{HasShortPacket, longest_payload};
ghost use Rattle.do_packet.specs.{Copies.{Placed, copies_of}, Packing.{message_weight, packed}};
ghost use Rattle.do_packet.specs.Seen.{Sender};

/// A packet that was packed is spelled in no more bytes than the message weighs and 27, by any
/// table of recent names.
pub fn packets_are_no_longer_than_they_weigh()
    ensures { (s : Sender) (to token : ℕ) (values : List Placed) (p : Packet)
        (recent : List Pair) → packed s to token values ≡ Ok p →
        length (packet_spelling recent p) ≤ message_weight s values (copies_of s values) + 27 }
{}

/// The payload of a frame that has a spelling is within the limit of a payload, where its packet is
/// no longer than the heaviest message and 27.
pub fn payloads_are_within_the_limit()
    ensures { (s : Surroundings) (f : Frame) (recent : List Pair) → IsFrame s f →
        HasShortPacket recent f → length (payload_spelling recent f) ≤ longest_payload }
{}
