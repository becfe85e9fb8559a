//! Why pairs of keys are not taken.
ghost use Rattle.std.specs.Prelude.{◌≡◌};

use std::alloc::AllocError;
use thiserror::Error;

/// Why the pairs of keys that a stamp begins with are not taken.
#[derive(Clone, Copy, Debug, PartialEq, Eq, Error)]
pub enum PairsFault {
    /// The epoch of the pair is not 0.
    #[error("the first pair of an account has the epoch 0")]
    NotFirst,
    /// The account has a pair.
    #[error("the account stands twice")]
    Twice,
    /// Memory ran out.
    #[error("out of memory")]
    NoMemory,
}

impl From<AllocError> for PairsFault {
    ghost use Rattle.slot_state.specs.declared.pairs_fault.PairsFault.TheVariants.{NoMemory};

    ghost from_gives = { λ _ fault. fault ≡ NoMemory };

    fn from(_error: AllocError) -> Self {
        Self::NoMemory
    }
}
