//! Both ends of a connection in one process. No other worker is free, so a worker that waits would let others wait.

use crate::ready::ReadyQueue;
use crate::socket::{Half, SMALL, Socket, comes_within};
use std::alloc::Global;
use std::io;
use std::io::{ErrorKind, Read, Write};
use std::net::{Net, TcpListener, TcpStream};
use std::os::fd::AsRawFd;
use std::sync::Arc;
use std::test::Fail;
use std::time::{Clock, Duration};

// For how many seconds a read of these tests waits, if it waits.
const LONG: u64 = 20;

// How many milliseconds the loopback address may take to pass bytes on.
const PATIENCE: i32 = 10_000;

// A connection as a worker sees it, whose reads wait for a long time, and its client.
fn connection<R: Net<Stream = TcpStream, Listener = TcpListener>>(
    rt: &R,
) -> io::Result<(TcpStream, TcpStream)> {
    let listener = TcpListener::bind(rt, "127.0.0.1:0")?;
    let client = TcpStream::connect(rt, listener.local_addr()?)?;
    let (server, _) = listener.accept()?;
    server.set_read_timeout(Some(Duration::from_secs(LONG)))?;
    Ok((server, client))
}

// How many bytes a read gives, or the kind of its error.
fn read_by(half: &mut Half<'_>, room: &mut [u8]) -> Result<usize, ErrorKind> {
    half.read(room).map_err(|error| error.kind())
}

// Reads what a client sent, with room for so many bytes, and reads again. Returns what both reads came to, and whether the second one waited.
fn read_twice<R: Net<Stream = TcpStream, Listener = TcpListener> + Clock>(
    rt: &R,
    alloc: Global,
    room: &mut [u8],
) -> Result<(Result<usize, ErrorKind>, Result<usize, ErrorKind>, bool), Fail> {
    let (server, mut client) = connection(rt)?;
    let ready = ReadyQueue::new(alloc, 1)?;
    let socket = Arc::new(alloc, Socket::new(server, 0, 0))?;
    let mut half = Half::new(socket, &ready);
    half.socket.stay.begin();
    client.write_all(b"GET")?;
    let _comes = comes_within(half.socket.stream.as_raw_fd(), PATIENCE);
    let first = read_by(&mut half, room);
    let began = rt.monotonic()?;
    let second = read_by(&mut half, room);
    let waited = rt.monotonic()?.saturating_sub(began) >= Duration::from_secs(LONG / 2);
    Ok((first, second, waited))
}

// The first read takes all that is here, and says so, since it had more room.
#[test]
fn no_read_waits_while_others_wait(rt: HostRuntime) -> Result<(), Fail> {
    let read = read_twice(&rt, rt.alloc(), &mut [0; 8])?;
    assert!(rt; read == (Ok(3), Err(ErrorKind::WouldBlock), false));
    Ok(())
}

// The first read has no room for more, so a second read is made. It finds nothing.
#[test]
fn no_read_waits_after_one_that_filled_its_room(rt: HostRuntime) -> Result<(), Fail> {
    let read = read_twice(&rt, rt.alloc(), &mut [0; 3])?;
    assert!(rt; read == (Ok(3), Err(ErrorKind::WouldBlock), false));
    Ok(())
}

// A write waits for no room: once the client, which reads nothing, has no room, the connection waits in its place.
#[test]
fn no_write_waits(rt: HostRuntime) -> Result<(), Fail> {
    let alloc = rt.alloc();
    let (server, client) = connection(&rt)?;
    let ready = ReadyQueue::new(alloc, 1)?;
    let mut half = Half::new(Arc::new(alloc, Socket::new(server, 0, 0))?, &ready);
    half.socket.stay.begin();
    let mut written = Ok(0);
    for _ in 0..1_000_000 {
        written = half.write(&[b'x'; SMALL]).map_err(|error| error.kind());
        if written.is_err() {
            break;
        }
    }
    drop(client);
    assert!(rt; written == Err(ErrorKind::WouldBlock));
    assert!(rt; half.count > 0);
    Ok(())
}
