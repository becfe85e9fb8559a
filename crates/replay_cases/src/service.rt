//! The service that the cases are run against. Only this module names it.
ghost use Rattle.std.specs.Prelude.{◌≡◌};
ghost use Rattle.replay_cases.specs.declared.service.ServiceFault.TheVariants.{NoMemory};

use crate::case::Case;
use crate::creation::make_container;
use core_service::CoreService;
use stamp_types::Moment;
use std::alloc::{AllocError, Global};
use thiserror::Error;

/// Why a case could not begin.
#[derive(Clone, Copy, Debug, PartialEq, Eq, Error)]
pub(crate) enum ServiceFault {
    /// The reply to the request that makes the container is not 201.
    #[error("the container was not made")]
    Container,
    /// Out of memory.
    #[error("out of memory")]
    NoMemory,
}

impl From<AllocError> for ServiceFault {
    ghost from_gives = { λ _ fault. fault ≡ NoMemory };

    fn from(_error: AllocError) -> Self {
        ServiceFault::NoMemory
    }
}

/// A new service for a case, with the container `pics` if a line of the file says that it is made.
/// `first` is the first moment of the case.
pub(crate) fn make_service(
    alloc: Global,
    case: &Case,
    first: Moment,
) -> Result<CoreService, ServiceFault> {
    let mut service = CoreService::new(alloc, &case.keys)?;
    let Some(moment) = case.made_at(first) else {
        return Ok(service);
    };
    if make_container(alloc, &mut service, &case.keys, moment)? {
        Ok(service)
    } else {
        Err(ServiceFault::Container)
    }
}
