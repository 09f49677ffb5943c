//! Streams of strangers to a link.

use crate::sockets::{WAIT, free_port, heard_all, hears};
use do_base::NodeId;
use do_host::TcpLink;
use do_link::{Link, LinkEvent};
use std::alloc::Global;
use std::io::{Read, Write};
use std::net::{Ipv4Addr, SocketAddr, TcpStream};
use std::test::Fail;

/// A stream to the node of a port.
fn stream_to(rt: &HostRuntime, node: NodeId) -> Result<TcpStream, Fail> {
    let address = SocketAddr::from((Ipv4Addr::LOCALHOST, node.port()));
    Ok(TcpStream::connect(rt, address)?)
}

/// Whether a poll finds nothing.
fn hears_nothing<L: Link>(alloc: Global, link: &mut L) -> Result<bool, Fail> {
    let mut buf = vec![in alloc; 0u8; 4_096]?;
    Ok(link.next(buf.as_mut_slice()) == LinkEvent::Quiet)
}

/// Opens as many streams that say nothing, and tells whether nothing is heard of them.
fn fill<L: Link>(
    rt: &HostRuntime,
    link: &mut L,
    node: NodeId,
    silent: &mut Vec<TcpStream>,
) -> Result<bool, Fail> {
    let mut quiet = true;
    for _stream in 0..300u32 {
        silent.push(stream_to(rt, node)?)?;
        quiet = quiet && hears_nothing(rt.alloc(), link)?;
    }
    Ok(quiet)
}

/// Says a port of no node, one of no peer with bytes behind it, and half a port, each over a stream
/// that ends.
fn say_wrong_ports(rt: &HostRuntime, node: NodeId) -> Result<(), Fail> {
    stream_to(rt, node)?.write_all(&[0, 0, 1, 2])?;
    let mut nobody = stream_to(rt, node)?;
    nobody.write_all(&node.port().to_be_bytes())?;
    nobody.write_all(b"nobody")?;
    stream_to(rt, node)?.write_all(&[1])?;
    Ok(())
}

/// Says the peer's port a byte at a time, and tells whether nothing is heard of it.
fn say_port<L: Link>(
    alloc: Global,
    link: &mut L,
    peer: NodeId,
    stream: &mut TcpStream,
) -> Result<bool, Fail> {
    let mut quiet = true;
    for byte in peer.port().to_be_bytes() {
        stream.write_all(&[byte])?;
        quiet = quiet && hears_nothing(alloc, link)?;
    }
    Ok(quiet)
}

/// Says three letters, one at a time, and tells whether each is heard as the peer's.
fn say_letters<L: Link>(
    alloc: Global,
    link: &mut L,
    peer: NodeId,
    stream: &mut TcpStream,
) -> Result<bool, Fail> {
    let mut heard = true;
    for byte in b"abc" {
        stream.write_all(&[*byte])?;
        heard = heard && hears(alloc, link, peer, &[*byte])?;
    }
    Ok(heard)
}

/// Whether a second stream of a peer is dropped, and the first goes on to its end.
fn keeps_the_first<L: Link>(
    rt: &HostRuntime,
    link: &mut L,
    node: NodeId,
    peer: NodeId,
    mut stream: TcpStream,
) -> Result<bool, Fail> {
    let mut second = stream_to(rt, node)?;
    second.write_all(&peer.port().to_be_bytes())?;
    stream.write_all(b"d")?;
    drop(stream);
    let all = heard_all(rt.alloc(), link, peer)?;
    let mut quiet = true;
    for _poll in 0..3u32 {
        quiet = quiet && hears_nothing(rt.alloc(), link)?;
    }
    Ok(quiet && all.is(b"d") && !matches!(second.read(&mut [0u8; 1]), Ok(1)))
}

/// Whether a link hears its peer in spite of 300 silent streams and of wrong ports.
pub(crate) fn strangers_keep_no_peer_out(rt: HostRuntime) -> Result<bool, Fail> {
    let alloc = rt.alloc();
    let (node, peer) = (free_port(&rt)?, free_port(&rt)?);
    let mut link = TcpLink::new(alloc, rt, WAIT);
    let listening = link.listen(node, &[peer]).is_ok();
    let mut silent = Vec::new(alloc);
    let quiet = fill(&rt, &mut link, node, &mut silent)?;
    say_wrong_ports(&rt, node)?;
    let quiet = quiet && hears_nothing(alloc, &mut link)?;
    let mut stream = stream_to(&rt, node)?;
    let said = say_port(alloc, &mut link, peer, &mut stream)?;
    let heard = say_letters(alloc, &mut link, peer, &mut stream)?;
    let kept = keeps_the_first(&rt, &mut link, node, peer, stream)?;
    Ok(listening && quiet && said && heard && kept)
}
