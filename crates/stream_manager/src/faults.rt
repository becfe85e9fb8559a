//! What appends and settles of a stream answer.
ghost use Rattle.std.specs.Prelude.{◌≡◌};

use extent_seal::ReadFault;
use stamp_values::Place;
use std::alloc::{AllocError, AllocFailed};

/// Why a block was not appended.
#[derive(Clone, Copy)]
pub enum AppendFault {
    /// The block has over 16,777,216 bytes. No node was called.
    TooLarge,
    /// Memory ran out. The block is in no extent.
    NoMemory,
    /// The block was tried twice and is in no extent, or no node answered the seal of a full extent or of an older doubt.
    Busy,
    /// Some delivery was not Done, and then no node answered. The block is in doubt until the next settle, append or seal.
    Doubt,
}

impl From<AllocError> for AppendFault {
    ghost use Rattle.std.specs.Prelude.{◌≡◌};
    ghost use Rattle.stream_manager.specs.declared.faults.AppendFault.TheVariants.{NoMemory};

    ghost from_gives = { λ _ e. e ≡ NoMemory };

    fn from(_error: AllocError) -> Self {
        Self::NoMemory
    }
}

/// What a settle did.
#[derive(Clone, Copy)]
pub enum Settled {
    /// There was no doubt, and no node was called.
    Clean,
    /// The block that was in doubt is at the place.
    Kept(Place),
    /// The block that was in doubt is in no extent.
    Dropped,
}

/// Why streams were not settled or sealed, nothing was put into them, or what they keep was not loaded, cut or written anew.
#[derive(Clone, Copy, Debug, PartialEq, Eq)]
pub enum StoredFault {
    /// No node that was needed answered, or a block was tried twice.
    Busy,
    /// Memory ran out.
    NoMemory,
}

impl From<AllocError> for StoredFault {
    ghost use Rattle.std.specs.Prelude.{◌≡◌};
    ghost use Rattle.stream_manager.specs.declared.faults.StoredFault.TheVariants.{NoMemory};

    ghost from_gives = { λ _ e. e ≡ NoMemory };

    fn from(_error: AllocError) -> Self {
        Self::NoMemory
    }
}

impl<T: Drop> From<AllocFailed<T>> for StoredFault {
    ghost use Rattle.std.specs.Prelude.{◌≡◌};
    ghost use Rattle.stream_manager.specs.declared.faults.StoredFault.TheVariants.{NoMemory};

    ghost from_gives = { λ _ e. e ≡ NoMemory };

    fn from(_error: AllocFailed<T>) -> Self {
        Self::NoMemory
    }
}

/// Why a node did not get a copy of an extent.
#[derive(Clone, Copy, Debug, PartialEq, Eq)]
pub enum RepairFault {
    /// No sealed extent has this number. No node was called.
    NoSuchExtent,
    /// Each node with a copy was asked and answered no, or a block was put to the node and the delivery was not Done.
    Unreachable,
    /// Memory ran out before a node was called.
    NoMemory,
}

impl From<AllocError> for RepairFault {
    ghost use Rattle.std.specs.Prelude.{◌≡◌};
    ghost use Rattle.stream_manager.specs.declared.faults.RepairFault.TheVariants.{NoMemory};

    ghost from_gives = { λ _ e. e ≡ NoMemory };

    fn from(_error: AllocError) -> Self {
        Self::NoMemory
    }
}

impl From<ReadFault> for RepairFault {
    ghost use Rattle.std.specs.Prelude.{◌≡◌};
    ghost use Rattle.stream_manager.specs.Repairs.{fault_of};

    ghost from_gives = { λ f e. e ≡ fault_of f };

    fn from(fault: ReadFault) -> Self {
        match fault {
            ReadFault::Unreachable => Self::Unreachable,
            ReadFault::NoMemory => Self::NoMemory,
        }
    }
}
