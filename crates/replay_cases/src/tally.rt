//! How many cases hold.
ghost use Rattle.std.specs.Prelude.{◌≡◌, ◌+◌, ◌↔◌, if◌then◌else◌, IsTrue, IfSome, IfOk, string_bytes};
ghost use Rattle.replay_cases.specs.Tallies.{tally_line};

use std::alloc::{AllocError, Global};

/// How many cases were run, and how many of them hold.
#[derive(Clone, Copy, PartialEq, Eq)]
pub(crate) struct Tally {
    pub(crate) cases: usize,
    pub(crate) holding: usize,
}

impl Tally {
    /// The tally before the first case.
    pub(crate) const NONE: Self = Self {
        cases: 0,
        holding: 0,
    };

    /// The tally with one more case, unless there are then too many cases to be counted.
    pub(crate) fn with(self, holds: bool) -> Option<Self>
        ensures cases { IfSome result (λ tally. tally.cases ≡ self.cases + 1) }
        ensures holding { IfSome result (λ tally.
            tally.holding ≡ self.holding + (if holds then 1 else 0)) }
    {
        let cases = self.cases.checked_add(1)?;
        let holding = self.holding.checked_add(usize::from(holds))?;
        Some(Self { cases, holding })
    }

    /// Whether each case holds.
    pub(crate) fn all_hold(self) -> bool
        ensures { IsTrue result ↔ (self.holding ≡ self.cases) }
    {
        self.holding == self.cases
    }

    /// The last line that is printed, with its end.
    pub(crate) fn line(self, alloc: Global) -> Result<String, AllocError>
        ensures { IfOk result (λ line. string_bytes line ≡ tally_line self.holding self.cases) }
    {
        let Self { cases, holding } = self;
        if holding == cases {
            return format!(in alloc; "{cases} cases hold\n");
        }
        format!(in alloc; "{holding} of {cases} cases hold\n")
    }
}
