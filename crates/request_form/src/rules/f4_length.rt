//! Rule F4: how long the body is.
ghost use Rattle.std.specs.Prelude.{◌≡◌, MatchResult, Some, false, true};
ghost use Rattle.stamp_types.specs.declared.rule.Rule.TheVariants.{F4};
ghost use Rattle.request_form.specs.HeadRules as heads;

use crate::parse::head_fields::number;
use crate::parse::parsed_head::ParsedHead;
use http_header::{CONTENT_LENGTH, TRANSFER_ENCODING};
use stamp_types::{Code, Verb};

// A PUT has no length, or the head asks for a transfer coding.
#[tactic(auto, unfolding(crate::specs::HeadRules::has_no_length))]
fn has_no_length(head: &ParsedHead<'_>, verb: Verb) -> bool
    requires verb { heads.verb_of head.now.method ≡ Some verb }
    ensures { result ≡ heads.has_no_length head.now }
{
    matches!(verb, Verb::Put) && !head.fields.is_sent(CONTENT_LENGTH.as_bytes())
        || head.fields.is_sent(TRANSFER_ENCODING.as_bytes())
}

/// How many bytes the body has, by rule F4 (RFC 9112, section 6).
///
/// A code of rule F4 if a PUT has no length, the head asks for a transfer coding, or the length was sent twice or is not a number.
#[tactic(auto, unfolding(crate::specs::HeadRules::has_bad_length, crate::specs::HeadRules::body_len_of, crate::specs::HeadFields::is_bad))]
pub(crate) fn body_len(head: &ParsedHead<'_>, verb: Verb) -> Result<u64, Code>
    requires verb { heads.verb_of head.now.method ≡ Some verb }
    ensures { MatchResult result
        (λ n. (heads.head_holds head.now F4 ≡ false) × (n ≡ heads.body_len_of head.now.fields))
        (λ code. (heads.head_holds head.now F4 ≡ true) × (code ≡ heads.head_code head.now F4)) }
{
    if has_no_length(head, verb) {
        return Err(Code::MissingContentLengthHeader);
    }
    if head.fields.is_sent_twice(CONTENT_LENGTH.as_bytes()) {
        return Err(Code::InvalidHeaderValue);
    }
    let Some(digits) = head.fields.first(CONTENT_LENGTH.as_bytes()) else {
        return Ok(0);
    };
    match number(digits) {
        Some(len) => Ok(len),
        None => Err(Code::InvalidHeaderValue),
    }
}
