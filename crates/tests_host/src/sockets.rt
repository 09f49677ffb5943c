//! Links over sockets that hear each other.

use do_base::{NodeId, Text};
use do_host::TcpLink;
use do_link::{Link, LinkEvent};
use std::alloc::{AllocError, Global};
use std::net::{Ipv4Addr, SocketAddr, TcpListener};
use std::test::Fail;

/// How long a poll that finds nothing waits, in microseconds.
pub(crate) const WAIT: u64 = 500;

/// A port of this machine that is free.
pub(crate) fn free_port(rt: &HostRuntime) -> Result<NodeId, Fail> {
    let any = SocketAddr::from((Ipv4Addr::LOCALHOST, 0));
    let listener = TcpListener::bind(rt, any)?;
    Ok(NodeId::new(listener.local_addr()?.port()).ok_or("no port")?)
}

/// Adds what a link hears next to the bytes of a peer, and tells whether it is that peer's and not
/// its end.
fn hear<L: Link>(
    alloc: Global,
    link: &mut L,
    peer: NodeId,
    heard: &mut Text,
) -> Result<bool, Fail> {
    for _poll in 0..20_000u32 {
        let mut buf = vec![in alloc; 0u8; 4_096]?;
        match link.next(buf.as_mut_slice()) {
            LinkEvent::Bytes(from, count) => {
                heard.push_bytes(&buf[..count])?;
                return Ok(from == peer);
            }
            LinkEvent::Ended(_) => return Ok(false),
            LinkEvent::Quiet => {}
        }
    }
    Err(Fail::from("nothing came"))
}

/// Whether a link hears these bytes of a peer next.
pub(crate) fn hears<L: Link>(
    alloc: Global,
    link: &mut L,
    peer: NodeId,
    bytes: &[u8],
) -> Result<bool, Fail> {
    let mut heard = Text::new(alloc);
    let came = hear(alloc, link, peer, &mut heard)?;
    Ok(came && heard.is(bytes))
}

/// All that a link hears from a peer until its end, to which nothing of another is added.
pub(crate) fn heard_all<L: Link>(alloc: Global, link: &mut L, peer: NodeId) -> Result<Text, Fail> {
    let mut heard = Text::new(alloc);
    for _piece in 0..20_000u32 {
        if !hear(alloc, link, peer, &mut heard)? {
            return Ok(heard);
        }
    }
    Err(Fail::from("no end came"))
}

/// Sends bytes to a peer, and tells whether they went.
fn sends<L: Link>(link: &mut L, peer: NodeId, bytes: &[u8]) -> bool {
    link.send(peer, bytes).is_ok()
}

/// Whether what one link sends is heard by the other, both ways.
fn both_ways<L: Link>(
    alloc: Global,
    here: &mut L,
    there: &mut L,
    near: NodeId,
    far: NodeId,
) -> Result<bool, Fail> {
    let sent = sends(here, far, b"one");
    let heard = hears(alloc, there, near, b"one")?;
    let answered = sends(there, near, b"two");
    Ok(sent && heard && answered && hears(alloc, here, far, b"two")?)
}

/// More bytes than a poll gives: 100,000 letters, and another behind them.
fn much(alloc: Global) -> Result<Vec<u8>, AllocError> {
    let mut bytes = vec![in alloc; b'a'; 100_001]?;
    if let Some(last) = bytes.last_mut() {
        *last = b'z';
    }
    Ok(bytes)
}

/// Sends much to a peer, the last byte by itself.
fn send_much<L: Link>(link: &mut L, peer: NodeId, much: &[u8]) -> bool {
    match much {
        [long @ .., last] => sends(link, peer, long) && sends(link, peer, &[*last]),
        [] => false,
    }
}

/// Whether a link hears all that another sent before it ended, and then can send nothing there.
fn hears_until_the_end<L: Link>(
    alloc: Global,
    here: &mut L,
    far: NodeId,
    much: &[u8],
) -> Result<bool, Fail> {
    let all = heard_all(alloc, here, far)?;
    let gone = !sends(here, far, b"one") || !sends(here, far, b"one");
    Ok(gone && all.is(much))
}

/// Whether two links hear each other, and one hears all that the other sent before its end.
pub(crate) fn links_hear_each_other(rt: HostRuntime) -> Result<bool, Fail> {
    let alloc = rt.alloc();
    let (near, far) = (free_port(&rt)?, free_port(&rt)?);
    let mut here = TcpLink::new(alloc, rt, WAIT);
    let mut there = TcpLink::new(alloc, rt, 0);
    let listening = here.listen(near, &[far]).is_ok() && there.listen(far, &[near]).is_ok();
    let much = much(alloc)?;
    let both = both_ways(alloc, &mut here, &mut there, near, far)?;
    let sent = send_much(&mut there, near, much.as_slice());
    drop(there);
    Ok(listening && both && sent && hears_until_the_end(alloc, &mut here, far, much.as_slice())?)
}

/// Whether what was sent to a peer before it listened is heard by it, once it listens.
pub(crate) fn a_send_waits_for_a_listener(rt: HostRuntime) -> Result<bool, Fail> {
    let alloc = rt.alloc();
    let (near, far) = (free_port(&rt)?, free_port(&rt)?);
    let mut here = TcpLink::new(alloc, rt, WAIT);
    let mut there = TcpLink::new(alloc, rt, WAIT);
    let listening = here.listen(near, &[far]).is_ok();
    let sent = sends(&mut here, far, b"one") && sends(&mut here, far, b"two");
    let listening = listening && there.listen(far, &[near]).is_ok();
    let mut buf = vec![in alloc; 0u8; 4_096]?;
    let mut quiet = true;
    for _poll in 0..20u32 {
        quiet = quiet && here.next(buf.as_mut_slice()) == LinkEvent::Quiet;
    }
    drop(here);
    let heard = heard_all(alloc, &mut there, near)?;
    Ok(listening && sent && quiet && heard.is(b"onetwo"))
}

/// Whether a peer that never listens is told as ended, once, and sends to it fail then.
pub(crate) fn a_peer_that_never_listens_ends(rt: HostRuntime) -> Result<bool, Fail> {
    let alloc = rt.alloc();
    let (near, far) = (free_port(&rt)?, free_port(&rt)?);
    let mut here = TcpLink::new(alloc, rt, WAIT);
    let listening = here.listen(near, &[far]).is_ok();
    let sent = sends(&mut here, far, b"one") && sends(&mut here, far, b"two");
    let heard = heard_all(alloc, &mut here, far)?;
    let mut buf = vec![in alloc; 0u8; 4_096]?;
    let mut quiet = true;
    for _poll in 0..3u32 {
        quiet = quiet && here.next(buf.as_mut_slice()) == LinkEvent::Quiet;
    }
    Ok(listening && sent && heard.is_empty() && quiet && !sends(&mut here, far, b"three"))
}
