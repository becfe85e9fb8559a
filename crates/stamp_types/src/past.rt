//! Requests of the past.

ghost use Rattle.std.specs.Prelude.{◌≡◌, ◌↔◌, IsTrue};

use crate::request::Request;
use stamp_values::Moment;

/// A request that was served, the moment at which it was served, and the epoch of the account's
/// keys in which it was served.
#[derive(Clone, PartialEq, Eq, Drop)]
pub struct Past {
    pub request: Request,
    pub moment: Moment,
    pub epoch: u64,
}

impl Past {
    /// Whether request, moment and epoch are equal.
    pub fn same(&self, other: &Self) -> bool
        ensures { IsTrue result ↔ (self.now ≡ other.now) }
    {
        self.moment == other.moment
            && self.epoch == other.epoch
            && self.request.same(&other.request)
    }
}
