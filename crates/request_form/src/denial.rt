//! Refusals of heads.
ghost use Rattle.std.specs.Prelude.{◌≡◌};
ghost use Rattle.request_form.specs.HeadRules as heads;
ghost use Rattle.request_form.specs.declared.denial.HeadFault.TheVariants.{NoMemory};

use stamp_types::{Code, Rule, Status, Verb};
use std::alloc::AllocError;
use thiserror::Error;

/// Why a head is refused: the first of the rules F1 to F8 that holds. The connection ends after the reply.
#[derive(Clone, Copy, Debug, PartialEq, Eq)]
pub struct Denial {
    pub rule: Rule,
    /// The status of the code.
    pub status: Status,
    pub code: Code,
    /// The method. `None` if the bytes are not a head, F1 refuses the head, or the stamp does not serve the method.
    pub verb: Option<Verb>,
}

/// Why a head gives no request.
#[derive(Clone, Copy, Debug, PartialEq, Eq, Error)]
pub enum HeadFault {
    /// A rule refuses the head, or the bytes are not a head.
    #[error("the head is refused")]
    Denied(Denial),
    /// Memory ran out.
    #[error("out of memory")]
    NoMemory,
}

impl From<AllocError> for HeadFault {
    ghost from_gives = { λ _ e. e ≡ NoMemory };

    fn from(_error: AllocError) -> Self {
        Self::NoMemory
    }
}

/// The refusal by a rule with a code.
pub(crate) fn denied(rule: Rule, code: Code, verb: Option<Verb>) -> Denial
    ensures { result ≡ heads.denied_by rule code verb }
{
    Denial {
        rule,
        status: code.status(),
        code,
        verb,
    }
}

/// How bytes that are not a head are refused: by F1, as bad input (400), without a verb.
pub fn no_head() -> Denial
    ensures { result ≡ heads.no_head }
{
    denied(Rule::F1, Code::InvalidInput, None)
}
