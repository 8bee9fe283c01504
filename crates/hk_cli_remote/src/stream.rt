//! Streams to nodes, and how they are opened.

ghost use Rattle.std.specs.Io.{ReadsAtMost};

use hk_cli_calls::{Limits, NodePlace};
use hk_cli_commands::{Output, is_nobody};
use hk_cli_input::Stop;
use std::io::{Read, Write};
use std::net::{Ipv4Addr, Net, TcpListener, TcpStream, ToSocketAddrs};
use std::os::unix::net::UnixStream;
use std::rt::Clock;
use std::time::Duration;
use std::{io, thread};

/// How often a second a command tries to connect where nobody listens.
const TRIES_A_SECOND: u64 = 50;

/// How many milliseconds it waits between two tries.
const TRY_MILLIS: u64 = 20;

/// For how many seconds it waits for an address that doesn't answer, where it tries to connect once.
const TRY_SECONDS: u64 = 3;

/// A stream to a node.
#[derive(Drop)]
pub(crate) enum Stream {
    Tcp(TcpStream),
    Unix(UnixStream),
}

impl Stream {
    /// Sends all of these bytes.
    pub(crate) fn send(&self, bytes: &[u8]) -> io::Result<()> {
        match self {
            Stream::Tcp(stream) => {
                let mut writer = stream;
                writer.write_all(bytes)
            }
            Stream::Unix(stream) => {
                let mut writer = stream;
                writer.write_all(bytes)
            }
        }
    }

    /// Receives what comes next, up to all of this piece, and returns how many bytes it has.
    pub(crate) fn receive(&self, piece: &mut [u8]) -> io::Result<usize>
        ensures { ReadsAtMost result piece.new }
    {
        match self {
            Stream::Tcp(stream) => {
                let mut reader = stream;
                reader.read(piece)
            }
            Stream::Unix(stream) => {
                let mut reader = stream;
                reader.read(piece)
            }
        }
    }

    /// Has each read and write wait for so long at most.
    pub(crate) fn set_limit(&self, limit: Duration) -> io::Result<()> {
        match self {
            Stream::Tcp(stream) => {
                stream.set_read_timeout(Some(limit))?;
                stream.set_write_timeout(Some(limit))
            }
            Stream::Unix(stream) => {
                stream.set_read_timeout(Some(limit))?;
                stream.set_write_timeout(Some(limit))
            }
        }
    }
}

/// A connection over TCP that is open. One that the system joined with itself, as it may where nobody listens on a port that it
/// also hands out, is refused.
fn opened_tcp(stream: TcpStream) -> io::Result<Stream> {
    if stream.local_addr()? == stream.peer_addr()? {
        return Err(io::ErrorKind::ConnectionRefused.into());
    }
    // A request is sent at once; where the system doesn't allow that, it comes later.
    let _at_once = stream.set_nodelay(true);
    Ok(Stream::Tcp(stream))
}

/// A stream to the first of these addresses that is listened to; each is waited for so long at most.
fn connected_tcp<R: Net<Listener = TcpListener, Stream = TcpStream>, A: ToSocketAddrs>(
    rt: &R,
    addresses: A,
    most: Duration,
) -> io::Result<Stream> {
    let mut last = io::Error::from(io::ErrorKind::InvalidInput);
    for address in addresses.to_socket_addrs(rt)? {
        match TcpStream::connect_timeout(rt, &address, most) {
            Ok(stream) => return opened_tcp(stream),
            Err(error) => last = error,
        }
    }
    Err(last)
}

/// A stream to a place; of the addresses that a name has, the first that is listened to. (A Unix domain socket has no limit of time.)
fn connected<R: Net<Listener = TcpListener, Stream = TcpStream>>(
    rt: &R,
    place: NodePlace<'_>,
    most: Duration,
) -> io::Result<Stream> {
    match place {
        NodePlace::Port(port) => connected_tcp(rt, (Ipv4Addr::LOCALHOST, port), most),
        NodePlace::Address(address) => connected_tcp(rt, address, most),
        NodePlace::Path(path) => Ok(Stream::Unix(UnixStream::connect(rt, path)?)),
    }
}

/// For how long an address is waited for.
fn most_of(seconds: u64) -> Duration {
    Duration::from_secs(if seconds == 0 { TRY_SECONDS } else { seconds })
}

/// The same, tried again for so many seconds while nobody listens.
fn connected_within<R: Net<Listener = TcpListener, Stream = TcpStream> + Clock>(
    rt: &R,
    place: NodePlace<'_>,
    seconds: u64,
) -> io::Result<Stream> {
    let most = most_of(seconds);
    for _ in 0..seconds.saturating_mul(TRIES_A_SECOND) {
        match connected(rt, place, most) {
            Err(error) if is_nobody(place, &error) => {
                thread::sleep(rt, Duration::from_millis(TRY_MILLIS));
            }
            other => return other,
        }
    }
    connected(rt, place, most)
}

/// The same stream with these limits; 0 seconds are none.
fn limited<R: Net<Listener = TcpListener, Stream = TcpStream> + Clock>(
    rt: &R,
    place: NodePlace<'_>,
    limits: Limits,
) -> io::Result<Stream> {
    let stream = connected_within(rt, place, limits.connect_seconds)?;
    if limits.reply_seconds > 0 {
        stream.set_limit(Duration::from_secs(limits.reply_seconds))?;
    }
    Ok(stream)
}

/// Opens a stream to the node at a place; where that fails it is printed why.
pub(crate) fn opened<
    R: Net<Listener = TcpListener, Stream = TcpStream> + Clock,
    W: Write,
    E: Write,
>(
    rt: &R,
    place: NodePlace<'_>,
    limits: Limits,
    output: &mut Output<'_, W, E>,
) -> Result<Stream, Stop> {
    match limited(rt, place, limits) {
        Ok(stream) => Ok(stream),
        Err(error) => Err(output.connect_fault(place, &error)),
    }
}
