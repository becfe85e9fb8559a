//! The socket of one connection, as its reader and its writer.
ghost use Rattle.std.specs.Prelude.{◌≤◌, IfOk, length};
ghost use Rattle.std.specs.Io.{ReadsAtMost};

use crate::at_once::{receive_at_once, send_at_once};
use crate::ready::ReadyQueue;
use crate::stay::{Stay, nanoseconds};
use libc::net::{POLLIN, poll};
use libc::types::pollfd;
use std::io;
use std::io::{ErrorKind, Read, Write};
use std::net::TcpStream;
use std::os::fd::RawFd;
use std::sync::Arc;
use std::sync::atomic::{AtomicBool, Ordering};
use std::time::Duration;

/// For how many milliseconds a worker waits for its connection before it takes another one. The kernel rounds this up to its ticks: with 250
/// ticks a second, a read waits some 8 milliseconds.
const LINGER: u64 = 4;

/// A socket, and the place that its connection has.
#[derive(Drop)]
pub(crate) struct Socket {
    pub(crate) stream: TcpStream,
    pub(crate) index: usize,
    pub(crate) token: usize,
    pub(crate) stay: Stay,
    late: AtomicBool,
}

/// The reader or the writer of a connection. Both share one socket. A read by the stream waits a little, and nothing else waits.
#[derive(Drop)]
pub(crate) struct Half<'a> {
    pub(crate) socket: Arc<Socket>,
    ready: &'a ReadyQueue,
    /// How many bytes were received, or were sent.
    pub(crate) count: u64,
    /// Whether the last read took all that was here.
    is_drained: bool,
}

// Has reads of a socket wait a little for bytes, and has small replies sent at once. Returns whether the system does so.
pub(crate) fn prepare(stream: &TcpStream) -> bool {
    let linger = Some(Duration::from_millis(LINGER));
    stream.set_nodelay(true).is_ok() && stream.set_read_timeout(linger).is_ok()
}

impl Socket {
    pub(crate) fn new(stream: TcpStream, index: usize, token: usize) -> Self {
        Self {
            stream,
            index,
            token,
            stay: Stay::new(),
            late: AtomicBool::new(false),
        }
    }

    /// Lets each further read and write fail, since the peer was too slow or somebody else needs the place.
    pub(crate) fn give_up(&self) {
        self.late.store(true, Ordering::SeqCst);
    }

    /// Whether the connection was given up.
    pub(crate) fn is_late(&self) -> bool {
        self.late.load(Ordering::SeqCst)
    }
}

/// A write of so many bytes at most is made even if the stay is over: the bytes that say that memory ran out are written only once.
pub(crate) const SMALL: usize = 1024;

/// Whether something comes to a socket within so many milliseconds: bytes, their end, or, to a listener, a connection.
pub(crate) fn comes_within(descriptor: RawFd, milliseconds: i32) -> bool {
    let mut polled = [pollfd {
        fd: descriptor,
        events: POLLIN,
        revents: 0,
    }];
    poll(&mut polled, milliseconds) > 0
}

// Whether a head can begin with this byte: with an empty line (RFC 9112, section 2.2), or with a method, which is a token (RFC 9110,
// section 5.6.2).
fn begins_head(byte: u8) -> bool {
    byte.is_ascii_alphanumeric() || b"\r\n!#$%&'*+-.^_`|~".contains(&byte)
}

impl<'a> Half<'a> {
    pub(crate) fn new(socket: Arc<Socket>, ready: &'a ReadyQueue) -> Self {
        Self {
            socket,
            ready,
            count: 0,
            is_drained: false,
        }
    }

    // Receives bytes, and waits a little if none are here. The wait and the read are one call of the system.
    fn receive_soon(&self, buf: &mut [u8]) -> io::Result<usize>
        ensures { ReadsAtMost result buf.new }
    {
        let began = nanoseconds();
        let mut stream: &TcpStream = &self.socket.stream;
        let received = stream.read(buf);
        self.socket.stay.waited_since(began);
        received
    }

    // Whether a connection waits for the room that this stay has.
    fn keeps_room(&self) -> bool {
        self.socket.stay.has_room() && self.ready.is_room_awaited()
    }

    // Whether the worker may wait a little for its connection: nobody else has something to do.
    fn may_wait(&self) -> bool {
        self.ready.is_calm() && !self.keeps_room()
    }

    // Receives bytes. If the last read took all that was here, a read would most likely find nothing, so it waits a little, or is not made.
    fn receive(&self, buf: &mut [u8]) -> io::Result<usize>
        ensures { ReadsAtMost result buf.new }
    {
        if !self.is_drained {
            return receive_at_once(&self.socket.stream, buf);
        }
        if self.may_wait() {
            return self.receive_soon(buf);
        }
        Err(io::Error::from(ErrorKind::WouldBlock))
    }

    // Whether the connection has to let another one have the worker. Counts a read or a write.
    fn is_over(&self) -> bool {
        let others_wait = self.ready.is_short() || self.keeps_room();
        self.socket.stay.is_over(others_wait)
    }
}

impl Read for Half<'_> {
    fn read(&mut self, buf: &mut [u8]) -> io::Result<usize> {
        if self.socket.is_late() {
            return Err(io::Error::from(ErrorKind::TimedOut));
        }
        let received = if self.is_over() {
            Err(io::Error::from(ErrorKind::WouldBlock))
        } else {
            self.receive(buf)
        };
        // After an error the connection waits and is polled anew, so bytes that are here, or come from now on, are reported.
        self.is_drained = false;
        let count = received?;
        self.is_drained = count < buf.len();
        // A peer that speaks another protocol, as TLS, is told so at once.
        if self.count == 0
            && buf
                .first()
                .is_some_and(|first| count > 0 && !begins_head(*first))
        {
            return Err(io::Error::from(ErrorKind::InvalidData));
        }
        self.count = self.count.wrapping_add(count as u64);
        Ok(count)
    }
}

impl Write for Half<'_> {
    // If the socket takes nothing now, or the stay is over, the connection waits until the socket takes more.
    fn write(&mut self, buf: &[u8]) -> io::Result<usize> {
        if self.socket.is_late() {
            return Err(io::Error::from(ErrorKind::TimedOut));
        }
        if self.is_over() && buf.len() > SMALL {
            return Err(io::Error::from(ErrorKind::WouldBlock));
        }
        let count = send_at_once(&self.socket.stream, buf)?;
        self.count = self.count.wrapping_add(count as u64);
        Ok(count)
    }

    // A socket keeps nothing back.
    fn flush(&mut self) -> io::Result<()> {
        Ok(())
    }
}
