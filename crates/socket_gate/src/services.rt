//! What each new connection is served with.

use http_front::{Clock, Service};

/// Makes a clock and a service for each new connection.
pub trait Services<C: Clock + Drop, S: Service + Drop> {
    /// The clock and the service of the next connection, or `None` if no more connections are taken.
    fn make(&self) -> Option<(C, S)>;
}
