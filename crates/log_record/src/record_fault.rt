//! Why no change is read from bytes.
ghost use Rattle.std.specs.Prelude.{◌≡◌};
ghost use Rattle.log_record.specs.declared.record_fault.RecordFault.TheVariants.{NoMemory};

use std::alloc::{AllocError, AllocFailed};

/// Why no change is read from bytes.
#[derive(Clone, Copy, Debug, PartialEq, Eq)]
pub enum RecordFault {
    /// The bytes are not a record of a version that is read.
    Form,
    /// The first byte is of a version that is not read.
    Version,
    /// Memory ran out.
    NoMemory,
}

impl From<AllocError> for RecordFault {
    ghost from_gives = { λ _ e. e ≡ NoMemory };

    fn from(_error: AllocError) -> Self {
        Self::NoMemory
    }
}

impl<T: Drop> From<AllocFailed<T>> for RecordFault {
    ghost from_gives = { λ _ e. e ≡ NoMemory };

    fn from(_error: AllocFailed<T>) -> Self {
        Self::NoMemory
    }
}
