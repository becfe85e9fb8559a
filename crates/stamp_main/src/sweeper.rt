//! The steps of sweeps that a server makes by itself, so that a slot is swept to which no request comes that writes.

use served_history::Account;
use served_slots::{Reserve, Slots};
use std::alloc::Global;
use std::io;
use std::sync::{Condvar, CondvarTimeouts, Mutex, Wait};
use std::time::{Clock, Duration};

/// How many milliseconds pass between steps while a slot is to be swept.
const PAUSE: u64 = 100;

/// How many milliseconds pass between two looks while no slot is to be swept.
const LONG_PAUSE: u64 = 1_000;

/// How many steps are made of each slot after a pause.
const STEPS: u32 = 8;

/// A handle that may wait, and a clock that ends its waits.
#[derive(Drop)]
struct Alarm<'a, R: Wait, C: Clock> {
    rt: &'a R,
    clock: &'a C,
}

impl<R: Wait, C: Clock> Wait for Alarm<'_, R, C> {}

impl<R: Wait, C: Clock> Clock for Alarm<'_, R, C> {
    fn monotonic(&self) -> io::Result<Duration> {
        self.clock.monotonic()
    }

    fn since_1970(&self) -> io::Result<Duration> {
        self.clock.since_1970()
    }
}

/// Tells a sleeper at once that serving is over.
#[derive(Drop)]
pub(crate) struct Bell {
    is_rung: Mutex<bool>,
    rings: Condvar,
}

impl Bell {
    /// A bell that is not rung.
    pub(crate) fn new() -> Self {
        Self {
            is_rung: Mutex::new(false),
            rings: Condvar::new(),
        }
    }

    /// Serving is over.
    pub(crate) fn ring<R: Wait>(&self, rt: &R) {
        *self.is_rung.lock(rt) = true;
        self.rings.notify_all();
    }

    // Sleeps so many milliseconds, or until the bell is rung. Returns whether it is rung.
    fn is_rung_within<R: Wait, C: Clock>(&self, rt: &R, clock: &C, milliseconds: u64) -> bool {
        let is_rung = self.is_rung.lock(rt);
        if *is_rung {
            return true;
        }
        let pause = Duration::from_millis(milliseconds);
        let (is_rung, _timed_out) = self
            .rings
            .wait_timeout(&Alarm { rt, clock }, is_rung, pause);
        *is_rung
    }
}

// Makes a few steps of each slot that is to be swept. Returns whether a slot may be left that is to be swept.
fn make_steps<A: Account, R: Wait>(
    rt: &R,
    alloc: Global,
    slots: &Slots<A>,
    reserve: &Reserve,
) -> bool {
    for _ in 0..STEPS {
        if !slots.tend_garbage(rt, alloc, !reserve.is_held()) {
            return false;
        }
    }
    true
}

/// Sweeps slots, step by step, until the bell is rung. While the reserve is given up, memory is short, so a little garbage is swept too.
pub(crate) fn sweep_until<A: Account, R: Wait, C: Clock>(
    rt: &R,
    clock: &C,
    alloc: Global,
    slots: &Slots<A>,
    reserve: &Reserve,
    bell: &Bell,
) {
    let mut is_left = false;
    for _ in rt.forever() {
        let pause = if is_left { PAUSE } else { LONG_PAUSE };
        if bell.is_rung_within(rt, clock, pause) {
            return;
        }
        is_left = make_steps(rt, alloc, slots, reserve);
    }
}
