//! What a listener is told before connections are taken.

use libc::net::listen;
use std::io;
use std::net::TcpListener;
use std::os::fd::AsRawFd;

/// How many newcomers wait to be taken. Linux lets no more wait than its own limit says. Beyond that a newcomer waits for a second.
const NEWCOMERS: i32 = 4096;

/// Makes a listener ready for many connections. It does not block then.
pub(crate) fn prepare(listener: &TcpListener) -> io::Result<()> {
    // It listens already, so this only changes how many may wait.
    let _listens = listen(listener.as_raw_fd(), NEWCOMERS);
    listener.set_nonblocking(true)
}
