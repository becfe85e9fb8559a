//! The conditions of a head, by rule F7 (Blob service REST reference, 2012-02-12, Specifying Conditional Headers for Blob Service
//! Operations; RFC 9110, sections 13.1.1 and 13.1.2).
ghost use Rattle.std.specs.Prelude.{◌≡◌, MatchResult, false, true};
ghost use Rattle.stamp_types.specs.declared.code.Code.TheVariants.{InvalidHeaderValue};
ghost use Rattle.request_form.specs.HeadConditions as conditions;
ghost use Rattle.request_form.specs.HeadFields.{is_bad};
ghost use Rattle.request_form.specs.HeadReads.{RefusesValue};
ghost use Rattle.request_form.specs.HeadRules as heads;

use crate::value_fault::ValueFault;
use http_header::HeaderName;
use stamp_types::{Code, Condition, FieldList, Op, read_etag};

fn is_unquoted(text: &[u8]) -> bool
    ensures { result ≡ heads.is_unquoted text.now }
{
    text.iter().all(|byte| *byte != b'"')
}

// Whether the value is a quotation mark, one or more other bytes, and a quotation mark (RFC 9110, section 8.8.3).
#[tactic(auto, unfolding(crate::specs::HeadRules::is_quoted))]
fn is_quoted(value: &[u8]) -> bool
    ensures { result ≡ heads.is_quoted value.now }
{
    let len = value.len();
    2 < len && value[0] == b'"' && value[len - 1] == b'"' && is_unquoted(&value[1..len - 1])
}

#[tactic(auto, unfolding(crate::specs::HeadRules::is_condition))]
fn is_condition(value: &[u8]) -> bool
    ensures { result ≡ heads.is_condition value.now }
{
    value == b"*".as_slice() || is_quoted(value)
}

// What a value asks for. A text in quotation marks that is not an ETag of the stamp asks for no blob.
#[tactic(auto, using(crate::proofs::ConditionLemmas::count_named, crate::proofs::ConditionLemmas::never_named, crate::proofs::ConditionLemmas::star_named))]
fn condition_named(value: &[u8]) -> Condition
    ensures { result ≡ conditions.condition_named value.now }
{
    if value == b"*".as_slice() {
        return Condition::Any;
    }
    match read_etag(value) {
        Some(count) => Condition::Count(count),
        None => Condition::Never,
    }
}

/// The condition that comes with a request under a name, if the operation has conditions.
///
/// `Refused` if the value does not have the form of a condition, whatever the operation is.
#[tactic(auto, unfolding(crate::specs::HeadFields::is_bad))]
pub(crate) fn condition_by(
    op: Op,
    fields: &FieldList,
    name: &HeaderName,
) -> Result<Option<Condition>, ValueFault>
    ensures { MatchResult result
        (λ condition. (is_bad fields.now name.now heads.is_condition ≡ false)
        × (condition ≡ conditions.condition_by op fields.now name.now))
        (RefusesValue (is_bad fields.now name.now heads.is_condition) InvalidHeaderValue) }
{
    let Some(value) = fields.first(name.as_bytes()) else {
        return Ok(None);
    };
    if !is_condition(value) {
        return Err(ValueFault::Refused(Code::InvalidHeaderValue));
    }
    if !op.has_conditions() {
        return Ok(None);
    }
    Ok(Some(condition_named(value)))
}
