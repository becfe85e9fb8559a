//! The gate as the source of the connections that workers serve.

use crate::gate::{Gate, SocketLink, SocketOver, Taken};
use crate::lingering::Lingering;
use crate::socket::Half;
use http_front as front;
use http_front::{End, FrontFault, Rooms, Service, Source};
use std::net::Shutdown;
use std::sync::Wait;
use std::time::Clock;

impl<'a, R: Wait + Drop, C: Clock + Drop, K: front::Clock + Drop, S: Service + Drop> Gate<
    'a,
    R,
    C,
    K,
    S,
> {
    /// Closes a connection that ended. If its last reply said that it closes, what the peer still sends is read before.
    pub(crate) fn end(&self, over: SocketOver<'a, K, S>) {
        let end = over.end();
        let (reader, writer, clock, service) = over.into_parts();
        drop(writer);
        drop(clock);
        drop(service);
        let Half { socket, .. } = reader;
        let was_told = matches!(
            end,
            Ok(End::Closed) | Err(FrontFault::Turns | FrontFault::NoMemory)
        );
        if was_told && socket.stream.shutdown(Shutdown::Write).is_ok() {
            self.read_on(Lingering::new(socket, self.now()));
        } else {
            self.close(socket.index, socket);
        }
    }
}

impl<'a, R: Wait + Drop, C: Clock + Drop, K: front::Clock + Drop, S: Service + Drop> Source<
    SocketLink<'a, K, S>,
    SocketOver<'a, K, S>,
> for Gate<'a, R, C, K, S> {
    // Waits for a connection that has something to do. Of a connection that ended, what its peer still sends is read meanwhile.
    fn next(&self) -> Option<(SocketLink<'a, K, S>, Rooms)> {
        for _ in self.rt.forever() {
            let index = self.ready.pop(&self.rt)?;
            match self.take(index) {
                Taken::Nothing => {}
                Taken::Lingering(lingering) => self.read_on(lingering),
                Taken::Link(link, rooms) => return Some((link, rooms)),
            }
        }
        None
    }

    fn waits(&self, link: SocketLink<'a, K, S>) {
        self.park(link);
    }

    fn ended(&self, over: SocketOver<'a, K, S>) {
        self.end(over);
    }
}
