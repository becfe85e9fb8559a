//! Why a slot is not split.
use std::alloc::AllocError;

/// Why no slot was split at a key.
#[derive(Clone, Copy, PartialEq, Eq, Debug)]
pub enum SplitFault {
    /// A slot begins with the key.
    FirstKey,
    /// There are 256 slots.
    Full,
    /// Memory ran out, or no word is left for the upper half, or the slot is of no use any more.
    NoMemory,
}

impl From<AllocError> for SplitFault {
    ghost use Rattle.std.specs.Prelude.{◌≡◌};
    ghost use Rattle.served_slots.specs.declared.splitting.SplitFault.TheVariants.{NoMemory};

    ghost from_gives = { λ _ e. e ≡ NoMemory };

    fn from(_error: AllocError) -> Self {
        SplitFault::NoMemory
    }
}
