//! The machine's clock.
ghost use Rattle.std.specs.Prelude.{◌≡◌, ◌≤◌, ◌/◌, ◌↔◌, IfSome, IsSome};
ghost use Rattle.std.specs.Duration.{as_nanos};

use http_front::Clock;
use stamp_types::Moment;
use std::time;
use std::time::Duration;

/// The machine's clock, as one connection reads it.
///
/// If the clock fails, or tells a time outside of the years 1970 to 9999, the moment is the one that was given last, at first the start of
/// 1970. Nothing is known of the clock itself: it may go back.
#[derive(Drop)]
pub(crate) struct Machine<'a, C: time::Clock> {
    clock: &'a C,
    last: Moment,
}

impl<'a, C: time::Clock> Machine<'a, C> {
    pub(crate) fn new(clock: &'a C) -> Self
        ensures { result.last ≡ 0 }
    {
        Self {
            clock,
            last: Moment::first(),
        }
    }
}

impl<'a, C: time::Clock> Clock for Machine<'a, C> {
    ghost gives = { λ old moment new. new.last ≡ moment };

    fn now(&mut self) -> Moment {
        if let Ok(time) = self.clock.since_1970() {
            if let Some(moment) = moment_after(time) {
                self.last = moment;
            }
        }
        self.last
    }
}

/// The moment so long after the start of 1970. `None` if it comes after the year 9999. Parts of a step of 100 ns are cut off.
pub(crate) fn moment_after(time: Duration) -> Option<Moment>
    ensures valid { IsSome result ↔ as_nanos time / 100 ≤ 2_534_023_007_999_999_999 }
    ensures value { IfSome result (λ moment. moment ≡ as_nanos time / 100) }
{
    Moment::new(i64::try_from(time.as_nanos() / 100).ok()?)
}
