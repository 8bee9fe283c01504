//! Where a long-running node listens.

use hk_cli_commands::Output;
use hk_cli_input::Stop;
use libc::types::rlimit;
use mio::net::TcpListener as ManyListener;
use std::alloc::Global;
use std::fs::{Files, Permissions};
use std::io::Write;
use std::net::{IpAddr, Net, SocketAddr, TcpListener};
use std::os::unix::fs::{FileTypeExt, PermissionsExt};
use std::os::unix::net::{UnixListener, UnixStream};
use std::{fs, io};

/// The mode of a socket's file.
const OWNER_ALONE: u32 = 0o600;

/// A listener that lets as many connections wait to be accepted as the system allows: std's lets 128.
fn bound<R: Net>(rt: &R, address: IpAddr, port: u16) -> io::Result<TcpListener> {
    let listener = ManyListener::bind(rt, SocketAddr::from((address, port)))?;
    let listener = TcpListener::from(listener);
    listener.set_nonblocking(false)?;
    Ok(listener)
}

/// The port that a listener has, where the system chose it.
pub(crate) fn port_of(listener: &TcpListener, asked: u16) -> u16 {
    match listener.local_addr() {
        Ok(address) => address.port(),
        Err(_error) => asked,
    }
}

/// How many files the process may have open at once, where the system says so.
pub(crate) fn most_files() -> Option<u64> {
    let mut limit = rlimit {
        rlim_cur: 0,
        rlim_max: 0,
    };
    if libc::getrlimit(libc::RLIMIT_NOFILE, &mut limit) == 0 {
        Some(limit.rlim_cur)
    } else {
        None
    }
}

/// Listens to a port of an address.
pub(crate) fn many_listener_of<R: Net, W: Write, E: Write>(
    rt: &R,
    address: IpAddr,
    port: u16,
    output: &mut Output<'_, W, E>,
) -> Result<TcpListener, Stop> {
    match bound(rt, address, port) {
        Ok(listener) => Ok(listener),
        Err(error) => Err(output.listen_fault(port, &error)),
    }
}

/// Whether a socket stands at a path that nobody listens on.
fn is_left<R: Net + Files>(rt: &R, path: &str) -> bool {
    match fs::symlink_metadata(rt, path) {
        Ok(found) => found.file_type().is_socket() && UnixStream::connect(rt, path).is_err(),
        Err(_error) => false,
    }
}

/// Listens at a path, for whoever runs the program alone. A socket there that nobody listens on is removed first.
fn bound_at<R: Net + Files>(rt: &R, path: &str) -> io::Result<UnixListener> {
    if is_left(rt, path) {
        fs::remove_file(rt, path)?;
    }
    let listener = UnixListener::bind(rt, path)?;
    fs::set_permissions(rt, path, Permissions::from_mode(OWNER_ALONE))?;
    Ok(listener)
}

/// Listens at a path, if there is one.
pub(crate) fn socket_listener<R: Net + Files + Alloc<A = Global>, W: Write, E: Write>(
    rt: &R,
    path: Option<&str>,
    output: &mut Output<'_, W, E>,
) -> Result<Option<UnixListener>, Stop> {
    let Some(path) = path else {
        return Ok(None);
    };
    match bound_at(rt, path) {
        Ok(listener) => Ok(Some(listener)),
        Err(error) => {
            let line = format!(in rt.alloc();
                "refused 93: can't listen at {path}: {error}; see that no other program listens there\n"
            )?;
            output.note(line.as_str());
            Err(Stop::NetTold)
        }
    }
}
