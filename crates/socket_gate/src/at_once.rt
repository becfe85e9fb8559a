//! Bytes that a socket takes or gives at once, also if its reads wait a little.
ghost use Rattle.std.specs.Prelude.{◌≤◌, IfOk, length};
ghost use Rattle.std.specs.Io.{ReadsAtMost, WritesAtMost};

use libc::net::{MSG_DONTWAIT, MSG_NOSIGNAL, recv, send};
use std::io;
use std::io::Error;
use std::net::TcpStream;
use std::os::fd::AsRawFd;

/// Receives bytes that are here. If there are none, the error is `WouldBlock`.
pub(crate) fn receive_at_once(stream: &TcpStream, room: &mut [u8]) -> io::Result<usize>
    ensures { ReadsAtMost result room.new }
{
    // A call of the system that needs no more than an open descriptor, which the stream has.
    let count = unsafe { recv(stream.as_raw_fd(), room, MSG_DONTWAIT) };
    if count < 0 {
        return Err(Error::from_raw_os_error(os::errno()));
    }
    Ok(count as usize)
}

/// Sends as many bytes as the system has room for. If it has no room, the error is `WouldBlock`. A peer that is gone is an error, and no
/// signal.
pub(crate) fn send_at_once(stream: &TcpStream, bytes: &[u8]) -> io::Result<usize>
    ensures { WritesAtMost result bytes.now }
{
    let count = unsafe { send(stream.as_raw_fd(), bytes, MSG_NOSIGNAL | MSG_DONTWAIT) };
    if count < 0 {
        return Err(Error::from_raw_os_error(os::errno()));
    }
    Ok(count as usize)
}
