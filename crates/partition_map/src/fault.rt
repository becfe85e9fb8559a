//! Why a span is not split.
ghost use Rattle.std.specs.Prelude.{◌≡◌};

use std::alloc::AllocError;
use thiserror::Error;

/// Why a span is not split: the first cause that exists, in this order.
#[derive(Clone, Copy, Debug, PartialEq, Eq, Error)]
pub enum MapFault {
    /// No slot has this number.
    #[error("no slot has this number")]
    NoSuchSlot,
    /// The key is not strictly between the first key of the span and its bound.
    #[error("the key is not inside the span")]
    NotInside,
    /// There are 256 spans.
    #[error("there are 256 spans")]
    Full,
    /// Memory ran out.
    #[error("out of memory")]
    NoMemory,
}

impl From<AllocError> for MapFault {
    ghost use Rattle.partition_map.specs.declared.fault.MapFault.TheVariants.{NoMemory};

    ghost from_gives = { λ _ fault. fault ≡ NoMemory };

    fn from(_error: AllocError) -> Self {
        Self::NoMemory
    }
}
