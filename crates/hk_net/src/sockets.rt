//! A socket that never waits.

use mio::net::{TcpStream, UnixStream};
use mio::{Interest, Registry, Token};
use std::io::{Read, Write};
use std::net::{Shutdown, SocketAddr};
use std::os::unix;
use std::{io, net};

/// A socket that was just accepted.
#[derive(Drop)]
pub(crate) enum Accepted {
    Tcp(net::TcpStream),
    Unix(unix::net::UnixStream),
}

/// A socket that never waits.
#[derive(Drop)]
pub(crate) enum Socket {
    Tcp(TcpStream),
    Unix(UnixStream),
}

/// What a worker hears of a socket: that it can be read, that it can be written, and a byte out of band, which ends a read early.
fn all_interests() -> Interest {
    Interest::READABLE | Interest::WRITABLE | Interest::PRIORITY
}

impl Accepted {
    /// The same socket, which doesn't wait from now on. A reply is sent at once where the system allows that.
    pub(crate) fn into_socket(self) -> io::Result<Socket> {
        match self {
            Accepted::Tcp(stream) => {
                stream.set_nonblocking(true)?;
                let _at_once = stream.set_nodelay(true);
                Ok(Socket::Tcp(TcpStream::from_std(stream)))
            }
            Accepted::Unix(stream) => {
                stream.set_nonblocking(true)?;
                Ok(Socket::Unix(UnixStream::from_std(stream)))
            }
        }
    }
}

impl Socket {
    /// Closes it for writing, so that the peer sees that no more comes.
    pub(crate) fn end_writing(&self) -> io::Result<()> {
        match self {
            Socket::Tcp(stream) => stream.shutdown(Shutdown::Write),
            Socket::Unix(stream) => stream.shutdown(Shutdown::Write),
        }
    }

    /// Has the events of it come to a worker under this token.
    pub(crate) fn register(&mut self, registry: &Registry, token: Token) -> io::Result<()> {
        match self {
            Socket::Tcp(stream) => registry.register(stream, token, all_interests()),
            Socket::Unix(stream) => registry.register(stream, token, all_interests()),
        }
    }

    /// Has no more events of it come to a worker.
    pub(crate) fn deregister(&mut self, registry: &Registry) -> io::Result<()> {
        match self {
            Socket::Tcp(stream) => registry.deregister(stream),
            Socket::Unix(stream) => registry.deregister(stream),
        }
    }
}

impl Read for Socket {
    /// What is there, at most as much as the buffer has room for; `WouldBlock` where nothing is.
    fn read(&mut self, buf: &mut [u8]) -> io::Result<usize> {
        match self {
            Socket::Tcp(stream) => stream.read(buf),
            Socket::Unix(stream) => stream.read(buf),
        }
    }
}

impl Write for Socket {
    /// As much as the system takes now; `WouldBlock` where that is nothing.
    fn write(&mut self, bytes: &[u8]) -> io::Result<usize> {
        match self {
            Socket::Tcp(stream) => stream.write(bytes),
            Socket::Unix(stream) => stream.write(bytes),
        }
    }

    fn flush(&mut self) -> io::Result<()> {
        Ok(())
    }
}

/// Where connections come in.
#[derive(Clone, Copy)]
pub(crate) enum Listener<'a> {
    Tcp(&'a net::TcpListener),
    Unix(&'a unix::net::UnixListener),
}

impl Listener<'_> {
    /// Waits for the next connection, and returns it with its peer's address, where it has one.
    pub(crate) fn accept(&self) -> io::Result<(Accepted, Option<SocketAddr>)> {
        match self {
            Listener::Tcp(listener) => {
                let (stream, address) = listener.accept()?;
                Ok((Accepted::Tcp(stream), Some(address)))
            }
            Listener::Unix(listener) => {
                let (stream, _path) = listener.accept()?;
                Ok((Accepted::Unix(stream), None))
            }
        }
    }
}
