//! Why a body in XML was refused.

use std::alloc::AllocError;
use thiserror::Error;

/// Why a body in XML was refused.
#[derive(Clone, Copy, Debug, PartialEq, Eq, Error)]
pub enum BodyFault {
    /// The body does not have its form.
    #[error("the body does not have its form")]
    Form,
    /// There are more stored policies than a container may have.
    #[error("too many stored policies")]
    TooMany,
    /// An id is not the id of a block, or is not the id of a stored policy.
    #[error("an id is not good")]
    Id,
    /// The permissions of a policy are not letters of permissions in their order.
    #[error("the permissions are not good")]
    Letters,
    /// A time of a policy is not a time.
    #[error("a time is not good")]
    Time,
    /// Memory ran out.
    #[error("out of memory")]
    NoMemory,
}

impl From<AllocError> for BodyFault {
    ghost use Rattle.std.specs.Prelude.{◌≡◌};
    ghost use Rattle.body_forms.specs.declared.body_fault.BodyFault.TheVariants.{NoMemory};

    ghost from_gives = { λ _ e. e ≡ NoMemory };

    fn from(_fault: AllocError) -> Self {
        Self::NoMemory
    }
}
