//! Why no key of an account is replaced.
use std::alloc::AllocError;

/// Why no key was replaced.
#[derive(Clone, Copy, Debug, PartialEq, Eq)]
pub enum RotateFault {
    /// The stamp has no such account.
    NoAccount,
    /// No epoch comes after the epoch of the pair in force.
    Last,
    /// Memory ran out.
    NoMemory,
}

impl From<AllocError> for RotateFault {
    ghost use Rattle.std.specs.Prelude.{◌≡◌};
    ghost use Rattle.slot_state.specs.declared.rotate_fault.RotateFault.TheVariants.{NoMemory};

    ghost from_gives = { λ _ e. e ≡ NoMemory };

    fn from(_error: AllocError) -> Self {
        Self::NoMemory
    }
}
