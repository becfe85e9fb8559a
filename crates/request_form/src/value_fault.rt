//! Why values of a head are not read.
ghost use Rattle.std.specs.Prelude.{◌≡◌};
ghost use Rattle.request_form.specs.declared.value_fault.ValueFault.TheVariants as fault;

use stamp_types::Code;
use std::alloc::AllocError;
use thiserror::Error;

/// Why values of a head are not read.
#[derive(Clone, Copy, Debug, PartialEq, Eq, Error)]
pub enum ValueFault {
    /// The rule of these values refuses them, with this code.
    #[error("a value is refused")]
    Refused(Code),
    /// Memory ran out.
    #[error("out of memory")]
    NoMemory,
}

impl From<AllocError> for ValueFault {
    ghost from_gives = { λ _ e. e ≡ fault.NoMemory };

    fn from(_error: AllocError) -> Self {
        Self::NoMemory
    }
}
