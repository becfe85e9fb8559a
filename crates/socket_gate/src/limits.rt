//! How long connections are waited for, and how much they may hold.
ghost use Rattle.std.specs.Prelude.{◌≡◌};
ghost use Rattle.std.specs.Duration.{as_nanos};

use std::time::Duration;

/// The limits of connections. All that is beyond them ends one connection, and no other; only a long reply waits until there is room.
#[derive(Clone, Copy, Debug)]
pub struct Limits {
    /// How long a connection may be idle between two requests, or before the first.
    pub idle: Duration,
    /// How long a head may take from its first byte to its end.
    pub head: Duration,
    /// How often it is looked at how many bytes of a body came, or of a reply went. A reply is looked at after twelve such spans, and
    /// twelve times as many bytes have to go then; a long reply after two, while another connection waits for its room.
    pub span: Duration,
    /// How many bytes have to come or go in each such span.
    pub rate: u64,
    /// How many connections there may be. There are fewer if the process may have fewer descriptors.
    pub connections: usize,
    /// How many bytes unfinished bodies may have in all, of the connections that wait. Those whose head shows no true signature share a quarter.
    pub bodies: u64,
    /// How many bytes long replies may have in all that are made and not written. Those of requests without a true signature share a quarter.
    pub replies: u64,
}

impl Limits {
    /// The limits of the program: docs/using.md has a table of them.
    pub fn standard() -> Self
        ensures idle { as_nanos result.idle ≡ 60_000_000_000 }
        ensures head { as_nanos result.head ≡ 15_000_000_000 }
        ensures span { as_nanos result.span ≡ 10_000_000_000 }
        ensures rate { result.rate ≡ 4_096 }
        ensures connections { result.connections ≡ 8_192 }
        ensures bodies { result.bodies ≡ 1_073_741_824 }
        ensures replies { result.replies ≡ 268_435_456 }
    {
        Self {
            idle: Duration::from_secs(60),
            head: Duration::from_secs(15),
            span: Duration::from_secs(10),
            rate: 4096,
            connections: 8192,
            bodies: 1 << 30,
            replies: 1 << 28,
        }
    }
}
