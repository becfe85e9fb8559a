//! Peers that were told that their connection ends, and may still send.

use crate::at_once::receive_at_once;
use crate::socket::Socket;
use std::io::ErrorKind;
use std::sync::Arc;
use std::time::Duration;

/// How many seconds such a peer may be silent.
const PATIENCE: u64 = 1;

/// After how many seconds its connection is closed, even if it still sends.
const LAST: u64 = 60;

/// The most bytes that are read from it: as many as a body of the largest operation has.
const LAST_BYTES: usize = 67_108_864;

/// The most bytes that one read takes.
const READ_SIZE: usize = 16_384;

/// How many reads are made before other connections get their turn.
const READS: usize = 64;

/// A connection that ended. What its peer still sends is read and dropped: a connection that is closed while bytes are unread is reset,
/// and then the peer may lose the reply.
#[derive(Drop)]
pub(crate) struct Lingering {
    pub(crate) socket: Arc<Socket>,
    left: usize,
    since: Duration,
    last_read: Duration,
}

impl Lingering {
    pub(crate) fn new(socket: Arc<Socket>, now: Duration) -> Self {
        Self {
            socket,
            left: LAST_BYTES,
            since: now,
            last_read: now,
        }
    }

    /// Reads what is here. Returns whether more may come.
    pub(crate) fn read_on(&mut self, now: Duration) -> bool {
        let mut room = [0; READ_SIZE];
        for _ in 0..READS {
            match receive_at_once(&self.socket.stream, &mut room) {
                Ok(0) => return false,
                Ok(count) => {
                    self.last_read = now;
                    self.left = self.left.saturating_sub(count);
                    if self.left == 0 {
                        return false;
                    }
                }
                Err(error) => return error.kind() == ErrorKind::WouldBlock,
            }
        }
        true
    }

    /// Whether the peer was silent for too long, or sends for too long.
    pub(crate) fn is_late(&self, now: Duration) -> bool {
        now.saturating_sub(self.last_read) >= Duration::from_secs(PATIENCE)
            || now.saturating_sub(self.since) >= Duration::from_secs(LAST)
    }
}
