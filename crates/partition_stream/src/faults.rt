//! Why changes were not taken, and rows were not put again.
ghost use Rattle.std.specs.Prelude.{◌≡◌};

use std::alloc::{AllocError, AllocFailed};

/// Why a change was not taken.
#[derive(Clone, Copy, Debug, PartialEq, Eq)]
pub enum TakeFault {
    /// The change is not in the log: a block or its record was tried twice, or no node answered the seal of a full extent or of an older doubt.
    Busy,
    /// Some delivery was not Done, and then no node answered. The change is in doubt until the next settle, seal or change.
    Doubt,
    /// Memory ran out. The change is not in the log.
    NoMemory,
}

impl From<AllocError> for TakeFault {
    ghost use Rattle.std.specs.Prelude.{◌≡◌};
    ghost use Rattle.partition_stream.specs.declared.faults.TakeFault.TheVariants.{NoMemory};

    ghost from_gives = { λ _ e. e ≡ NoMemory };

    fn from(_error: AllocError) -> Self {
        Self::NoMemory
    }
}

impl<T: Drop> From<AllocFailed<T>> for TakeFault {
    ghost use Rattle.std.specs.Prelude.{◌≡◌};
    ghost use Rattle.partition_stream.specs.declared.faults.TakeFault.TheVariants.{NoMemory};

    ghost from_gives = { λ _ e. e ≡ NoMemory };

    fn from(_error: AllocFailed<T>) -> Self {
        Self::NoMemory
    }
}

/// Why the content of a row was not put again.
#[derive(Clone, Copy, Debug, PartialEq, Eq)]
pub enum CompactionFault {
    /// A block was tried twice, or no node answered a seal.
    Busy,
    /// Every node with a copy of some content was asked, and each answered no.
    Unreachable,
    /// Memory ran out.
    NoMemory,
}

impl From<AllocError> for CompactionFault {
    ghost use Rattle.std.specs.Prelude.{◌≡◌};
    ghost use Rattle.partition_stream.specs.declared.faults.CompactionFault.TheVariants.{NoMemory};

    ghost from_gives = { λ _ e. e ≡ NoMemory };

    fn from(_error: AllocError) -> Self {
        Self::NoMemory
    }
}

impl<T: Drop> From<AllocFailed<T>> for CompactionFault {
    ghost use Rattle.std.specs.Prelude.{◌≡◌};
    ghost use Rattle.partition_stream.specs.declared.faults.CompactionFault.TheVariants.{NoMemory};

    ghost from_gives = { λ _ e. e ≡ NoMemory };

    fn from(_error: AllocFailed<T>) -> Self {
        Self::NoMemory
    }
}
