//! What a site answers, sends and shows, as lines.

use crate::again::fetch_frame;
use crate::player::Player;
use do_base::Text;
use do_grammar::push_dec;
use do_lines::push_shown;
use do_network::{Done, PeerFault};
use std::alloc::AllocError;
use std::test::Fail;

/// The port of the site.
const PORT: u16 = 7001;

/// How many frames and lines wait at most after an input.
const MOST: usize = 64;

/// Adds a word, and numbers behind spaces.
fn push_words(out: &mut Text, word: &[u8], numbers: &[u64]) -> Result<(), AllocError> {
    out.push_bytes(word)?;
    for number in numbers {
        out.push(b' ')?;
        push_dec(out, *number)?;
    }
    out.push(b'\n')
}

/// Adds why a peer may not send a frame.
fn push_fault(out: &mut Text, fault: PeerFault) -> Result<(), AllocError> {
    match fault {
        PeerFault::BadFrame(place) => push_words(out, b" badframe", &[place as u64]),
        PeerFault::OverRelease(over) => push_words(out, b" over", &[over.had, over.asked]),
        PeerFault::UnknownToken(token) => {
            let lender = u64::from(token.lender.port());
            push_words(out, b" token", &[lender, token.number])
        }
        PeerFault::UnknownCall(call) => push_words(out, b" call", &[call.number]),
    }
}

/// Adds what an input came to.
pub(crate) fn push_done(out: &mut Text, done: Done) -> Result<(), AllocError> {
    match done {
        Done::Moved => out.push_bytes(b"done moved\n"),
        Done::Skipped => out.push_bytes(b"done skipped\n"),
        Done::Closed(peer, fault) => {
            out.push_bytes(b"done closed ")?;
            push_dec(out, u64::from(peer.port()))?;
            push_fault(out, fault)
        }
    }
}

/// Adds the digits of bytes that go to a peer.
fn push_wire(out: &mut Text, peer: u16, digits: &[u8]) -> Result<(), AllocError> {
    out.push_bytes(b"wire ")?;
    push_dec(out, u64::from(PORT))?;
    out.push(b' ')?;
    push_dec(out, u64::from(peer))?;
    out.push(b' ')?;
    out.push_bytes(digits)?;
    out.push(b'\n')
}

/// Adds bytes that go to a peer.
fn push_sent(out: &mut Text, peer: u16, bytes: &[u8]) -> Result<(), Fail> {
    let digits = hex::encode(out.allocator(), bytes)?;
    Ok(push_wire(out, peer, digits.as_bytes())?)
}

/// Takes out the oldest that was sent, its bytes into an empty text, and adds it.
fn push_next<P: Player>(player: &mut P, bytes: &mut Text, out: &mut Text) -> Result<(), Fail> {
    match fetch_frame(player, bytes)? {
        Some(peer) => push_sent(out, peer.port(), bytes.as_slice()),
        None => Ok(()),
    }
}

/// Takes out the oldest that was sent, and adds it.
fn push_frame<P: Player>(player: &mut P, out: &mut Text) -> Result<(), Fail> {
    let mut bytes = Text::new(out.allocator());
    push_next(player, &mut bytes, out)
}

/// Takes out the oldest that was shown, and adds it.
fn push_line<P: Player>(player: &mut P, out: &mut Text) -> Result<(), AllocError> {
    let Some(shown) = player.next_shown() else {
        return Ok(());
    };
    push_shown(out, PORT, &shown)?;
    out.push(b'\n')
}

/// Adds what was sent, and what was shown behind it.
pub(crate) fn push_waiting<P: Player>(player: &mut P, out: &mut Text) -> Result<(), Fail> {
    for _frame in 0..MOST {
        push_frame(player, out)?;
    }
    for _line in 0..MOST {
        push_line(player, out)?;
    }
    Ok(())
}
