//! The clock of a case.
ghost use Rattle.std.specs.Prelude.{◌≡◌};

use http_front::Clock;
use stamp_types::Moment;

/// Gives its moments in order, and the last moment from then on.
#[derive(Drop)]
pub(crate) struct Moments<'a> {
    pub(crate) left: &'a [Moment],
    pub(crate) last: Moment,
}

impl Clock for Moments<'_> {
    ghost gives = { λ _ moment new. moment ≡ new.last };

    fn now(&mut self) -> Moment {
        if let Some((first, left)) = self.left.split_first() {
            self.last = *first;
            self.left = left;
        }
        self.last
    }
}
