//! Garbage that a sweep gave up, until a thread drops it that no client waits for.

use std::sync::{Mutex, Wait};
use stored_rows::SweptAway;

/// The garbage that the last sweep gave up. To drop it takes time for each of its blocks, for example 0.65 seconds after a sweep of 1,000,000 blobs. So a request
/// that makes the last step of a sweep leaves it here, and the thread that sweeps slots at rest drops it.
#[derive(Drop)]
pub(crate) struct Garbage {
    left: Mutex<Option<Box<SweptAway>>>,
}

impl Garbage {
    /// No garbage is left here.
    pub(crate) fn none() -> Self {
        Self {
            left: Mutex::new(None),
        }
    }

    /// Leaves what a sweep gave up, if it gave something up. Garbage that was left here before is dropped after the lock.
    pub(crate) fn leave<R: Wait>(&self, rt: &R, away: Option<Box<SweptAway>>) {
        let Some(away) = away else {
            return;
        };
        let mut left = self.left.lock(rt);
        let before = left.replace(away);
        drop(left);
        drop(before);
    }

    /// Drops what is left here, after the lock. Returns whether there was anything.
    pub(crate) fn drop_left<R: Wait>(&self, rt: &R) -> bool {
        let mut left = self.left.lock(rt);
        let before = left.take();
        drop(left);
        before.is_some()
    }
}
