//! Streams to ports of this machine.
ghost use Rattle.std.specs.Prelude.{◌≡◌, ◌==◌};

use do_base::NodeId;
use std::net::{Ipv4Addr, Net, OpenStream, SocketAddr, TcpStream};
use std::time::Duration;

/// For how many microseconds one ask for a stream waits. A full queue of streams answers nothing.
const TRY_TIME: u64 = 100_000;

/// A stream to a port of this machine, or none where nobody answers within a tenth of a second.
///
/// A stream that goes to itself is none: the system may give a stream the very port that it asks
/// for, where nobody listens there.
pub fn connect_once<R: Net>(rt: &R, to: NodeId) -> Option<R::Stream> {
    let address = SocketAddr::from((Ipv4Addr::LOCALHOST, to.port()));
    let stream = TcpStream::connect_timeout(rt, &address, Duration::from_micros(TRY_TIME)).ok()?;
    let near = stream.local_addr().ok()?;
    if is_own(near.port(), to) {
        return None;
    }
    Some(stream)
}

/// Whether a stream from one port of this machine to another goes to itself.
pub fn is_own(near: u16, far: NodeId) -> bool
    ensures { result ≡ (near == far) }
{
    near == far.port()
}
