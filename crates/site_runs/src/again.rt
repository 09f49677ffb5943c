//! Calls of a site that are made again where memory ran out.

use crate::player::Player;
use do_base::{NodeId, Text};
use do_network::{Done, Input};
use std::alloc::{AllocError, Global};
use std::test::Fail;

/// What a check lists of a site.
fn listed<P: Player>(alloc: Global, player: &P) -> Result<Text, AllocError> {
    let mut text = Text::new(alloc);
    player.push_listed(&mut text)?;
    Ok(text)
}

/// Does an input again for which memory ran out. The site must be listed as before.
fn hand_again<P: Player>(
    alloc: Global,
    player: &mut P,
    input: &Input,
    before: &Text,
) -> Result<Done, Fail> {
    if !listed(alloc, player)?.is(before.as_slice()) {
        return Err("changed".into());
    }
    Ok(player.hand(input)?)
}

/// Does an input. Where memory ran out, the site must be listed as before, and it is done again.
pub(crate) fn hand_input<P: Player>(
    alloc: Global,
    player: &mut P,
    input: &Input,
) -> Result<Done, Fail> {
    let before = listed(alloc, player)?;
    if let Ok(done) = player.hand(input) {
        return Ok(done);
    }
    hand_again(alloc, player, input, &before)
}

/// Takes out the oldest that was sent, again where memory ran out, and appends its bytes.
pub(crate) fn fetch_frame<P: Player>(
    player: &mut P,
    bytes: &mut Text,
) -> Result<Option<NodeId>, AllocError> {
    if let Ok(to) = player.next_frame(bytes) {
        return Ok(to);
    }
    bytes.clear();
    player.next_frame(bytes)
}
