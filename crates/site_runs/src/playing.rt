//! What is handed to one site in a run, and what comes of it.

use crate::again::hand_input;
use crate::inputs::input_in;
use crate::player::Player;
use crate::told::{push_done, push_waiting};
use do_base::Text;
use do_grammar::line_of;
use do_network::Input;
use std::alloc::AllocError;
use std::test::Fail;

/// Hands an input to a site, and adds what comes of it.
fn push_handed<P: Player>(player: &mut P, input: &Input, out: &mut Text) -> Result<(), Fail> {
    let done = hand_input(out.allocator(), player, input)?;
    push_done(out, done)?;
    push_waiting(player, out)
}

/// Hands to a site what a line says, and adds what comes of it.
fn hand<P: Player>(player: &mut P, said: &[u8], out: &mut Text) -> Result<(), Fail> {
    match input_in(out.allocator(), said)? {
        Some(input) => push_handed(player, &input, out),
        None => Ok(player.push_listed(out)?),
    }
}

/// Hands to a site what the lines behind a mark say, and adds what comes of them.
fn hand_all<P: Player>(player: &mut P, lines: &[u8], mark: u8, out: &mut Text) -> Result<(), Fail> {
    let mut rest = lines;
    for _line in 0..lines.len() {
        let Some((line, _, behind)) = line_of(rest) else {
            return Ok(());
        };
        rest = behind;
        match line {
            [first, b' ', said @ ..] if *first == mark => hand(player, said, out)?,
            _ => {}
        }
    }
    Ok(())
}

/// Adds a line.
pub(crate) fn push_line(out: &mut Text, line: &[u8]) -> Result<(), AllocError> {
    out.push_bytes(line)?;
    out.push(b'\n')
}

/// Plays a line of a run but such as are tried, and adds it with what comes of it.
fn play_line<P: Player>(player: &mut P, line: &[u8], out: &mut Text) -> Result<(), Fail> {
    match line {
        [b'=' | b'<', ..] => Ok(push_line(out, line)?),
        [b'>', b' ', said @ ..] => {
            push_line(out, line)?;
            hand(player, said, out)
        }
        _ => Ok(()),
    }
}

/// Plays the lines of a run but such as are tried, and adds each with what comes of it.
fn play_lines<P: Player>(player: &mut P, run: &[u8], out: &mut Text) -> Result<(), Fail> {
    let mut rest = run;
    for _line in 0..run.len() {
        let Some((line, _, behind)) = line_of(rest) else {
            return Ok(());
        };
        rest = behind;
        play_line(player, line, out)?;
    }
    Ok(())
}

/// Adds what came behind a line that was tried, or that it was what came behind the last one.
fn push_later(last: &Text, later: &Text, out: &mut Text) -> Result<(), AllocError> {
    if last.is(later.as_slice()) {
        return out.push_bytes(b"as above\n");
    }
    out.push_bytes(later.as_slice())
}

/// Hands over what follows a line that was tried, and keeps what comes of that as the last.
fn hand_later<P: Player>(
    player: &mut P,
    run: &[u8],
    last: &mut Text,
    out: &mut Text,
) -> Result<(), Fail> {
    let mut later = Text::new(out.allocator());
    hand_all(player, run, b'<', &mut later)?;
    push_later(last, &later, out)?;
    last.clear();
    Ok(last.push_bytes(later.as_slice())?)
}

/// Tries a line of a run, and adds what comes of it and of what follows.
fn try_line<P: Player>(
    player: &mut P,
    run: &[u8],
    said: &[u8],
    last: &mut Text,
    out: &mut Text,
) -> Result<(), Fail> {
    hand_all(player, run, b'>', &mut Text::new(out.allocator()))?;
    hand(player, said, out)?;
    hand_later(player, run, last, out)
}

/// Plays a run at a new site, but for the lines to be tried, or tries one of these. What comes of
/// it is added. `last` is what came behind the last line that was tried.
pub(crate) fn play<P: Player>(
    player: &mut P,
    run: &[u8],
    tried: Option<&[u8]>,
    last: &mut Text,
    out: &mut Text,
) -> Result<(), Fail> {
    match tried {
        Some(said) => try_line(player, run, said, last, out),
        None => play_lines(player, run, out),
    }
}
