//! Turns of a node that is served, with what is handed over before each.
ghost use Rattle.std.specs.Prelude.{◌≡◌, ◌≤◌, [], length, IfOk, OnOk, OnErr};
ghost use Rattle.do_serve.specs.{Record.act_line, Turning.{server_of, IsKept}, Rounds.GoesRound};
ghost use Rattle.do_serve.specs.Handing.{HandsSome};

use crate::far::Far;
use crate::hearing::{hand_all, poll};
use crate::log::Log;
use crate::site::Serving;
use crate::turning::{Turned, turn};
use do_base::Text;
use do_link::Link;
use do_plan::Starts;
use std::alloc::AllocError;

/// Room that each turn uses again, and the line that most turns write.
#[derive(Debug, Drop)]
pub struct Room {
    /// For the bytes of a frame that is sent.
    pub frame: Text,
    /// For what a poll gives.
    pub heard: Vec<u8>,
    /// The line of an act.
    pub act: Text,
}

/// Hands all frames that wait to the link, and makes a turn. It says whether that used the line
/// `end`.
pub fn round<S: Serving, L: Link>(
    site: &mut S,
    link: &mut L,
    log: &mut Log,
    fars: &mut [Far],
    starts: &Starts,
    at: &mut usize,
    room: &mut Room,
) -> Result<bool, AllocError>
    requires drained { S.shown site.old ≡ [] }
    requires room { 4096 ≤ length room.old.heard.items }
    requires act { room.old.act ≡ act_line log.old.node }
    ensures ok { IfOk result (λ ended. GoesRound S.rules log.old.node
        (server_of (S.part site.old) (S.frames site.old) log.old fars.old starts.now at.old)
        (server_of (S.part site.new) (S.frames site.new) log.new fars.new starts.now at.new)
        (L.told link.old) (L.told link.new) log.old.text log.new.text ended) }
    ensures kept { OnOk result (IsKept (S.shown site.new) log.old log.new) }
    ensures room { OnOk result (4096 ≤ length room.new.heard.items) }
    ensures act { OnOk result (room.new.act ≡ room.old.act) }
    ensures err { OnErr result
        (HandsSome (S.frames site.old) (L.told link.old) (L.told link.new)) }
{
    hand_all(site, link, fars, &mut room.frame)?;
    match turn(site, log, fars, starts, at, &room.act)? {
        Turned::Went => Ok(false),
        Turned::Ends => Ok(true),
        Turned::Polls => {
            poll(site, link, fars, room.heard.as_mut_slice())?;
            Ok(false)
        }
    }
}
