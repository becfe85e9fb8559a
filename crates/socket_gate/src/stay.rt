//! How long a worker stays with one connection.

use libc::types::timespec;
use std::sync::atomic::{AtomicBool, AtomicU64, Ordering};
use std::time::Duration;

/// After so many reads and writes a stay is over, if another connection waits for a worker.
const CALLS: u64 = 100;

/// After so many nanoseconds a stay is over, if another connection waits for a worker: 10 milliseconds.
const SHORT: u64 = 10_000_000;

/// After so many nanoseconds a stay is over, even if nobody waits: one second. A peer that sends a byte every few milliseconds is so
/// parked from time to time, and its limits are looked at.
const LONG: u64 = 1_000_000_000;

/// A worker's stay with a connection. Only that worker changes it.
#[derive(Drop)]
pub(crate) struct Stay {
    /// When it began, in nanoseconds of the system's clock.
    began: AtomicU64,
    /// How many reads and writes were asked for.
    calls: AtomicU64,
    /// For how many nanoseconds the worker waited for the peer.
    waited: AtomicU64,
    /// Whether it has room for a long reply.
    has_room: AtomicBool,
}

/// How many nanoseconds the system's clock says that never goes back. None if it cannot be read.
// A reader has no handle of the clock, and no clause speaks of stays.
pub(crate) fn nanoseconds() -> u64 {
    let mut time = timespec {
        tv_sec: 0,
        tv_nsec: 0,
    };
    if libc::clock_gettime(libc::CLOCK_MONOTONIC, &mut time) != 0 {
        return 0;
    }
    time.tv_sec
        .unsigned_abs()
        .wrapping_mul(1_000_000_000)
        .wrapping_add(time.tv_nsec.unsigned_abs())
}

impl Stay {
    pub(crate) fn new() -> Self {
        Self {
            began: AtomicU64::new(0),
            calls: AtomicU64::new(0),
            waited: AtomicU64::new(0),
            has_room: AtomicBool::new(false),
        }
    }

    /// Begins a stay.
    pub(crate) fn begin(&self) {
        self.began.store(nanoseconds(), Ordering::SeqCst);
        self.calls.store(0, Ordering::SeqCst);
        self.waited.store(0, Ordering::SeqCst);
        self.has_room.store(false, Ordering::SeqCst);
    }

    /// Notes that it has room for a long reply.
    pub(crate) fn give_room(&self) {
        self.has_room.store(true, Ordering::SeqCst);
    }

    /// Whether it has room for a long reply.
    pub(crate) fn has_room(&self) -> bool {
        self.has_room.load(Ordering::SeqCst)
    }

    /// Counts a read or a write, and returns whether the stay is over before it. The first one is always made: what is here is read before a
    /// connection is called late.
    pub(crate) fn is_over(&self, others_wait: bool) -> bool {
        let calls = self.calls.fetch_add(1, Ordering::SeqCst);
        let passed = nanoseconds().saturating_sub(self.began.load(Ordering::SeqCst));
        calls > 0 && (passed >= LONG || others_wait && (calls >= CALLS || passed >= SHORT))
    }

    /// Notes that the worker waited for the peer since then.
    pub(crate) fn waited_since(&self, began: u64) {
        let waited = nanoseconds().saturating_sub(began);
        self.waited.fetch_add(waited, Ordering::SeqCst);
    }

    /// How long the worker has waited for the peer in this stay.
    pub(crate) fn waited(&self) -> Duration {
        Duration::from_nanos(self.waited.load(Ordering::SeqCst))
    }
}
