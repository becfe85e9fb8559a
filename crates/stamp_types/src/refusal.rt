//! Why a request is refused.

use crate::code::Code;
use crate::rule::Rule;

/// The rule that refuses a request, and the error code of the cause ("Status and Error Codes"). If
/// a rule has several causes, its refusals may have different codes.
#[derive(Clone, Copy, PartialEq, Eq)]
pub struct Refusal {
    pub rule: Rule,
    pub code: Code,
}
