//! Peers for whom memory ran out.

use http_front::{Connection, FrontFault, finish};
use std::alloc::Global;
use std::io::Read;
use std::net::{Shutdown, TcpStream};

/// The most bytes that one read takes.
const READ_SIZE: usize = 4096;

/// How many reads are made.
const READS: usize = 16;

// Reads and drops what came of a request. A socket that is closed while bytes are unread is reset, and then the peer may lose a reply.
fn drop_bytes(mut stream: &TcpStream) {
    let mut room = [0; READ_SIZE];
    for _ in 0..READS {
        if !stream.read(&mut room).is_ok_and(|count| count > 0) {
            return;
        }
    }
}

/// Writes the fixed bytes that say that memory ran out, and nothing after them. The socket must not be in the middle of a reply. Takes no
/// memory.
pub(crate) fn turn_away(alloc: Global, stream: &TcpStream) {
    if stream.set_nonblocking(true).is_err() {
        return;
    }
    let mut connection = Connection::new(alloc, stream, stream, 0);
    let _end = finish(&mut connection, Err(FrontFault::NoMemory));
    let _shut = stream.shutdown(Shutdown::Write);
    drop_bytes(stream);
}
