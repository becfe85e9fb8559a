//! The header of public access, by rule F7.
ghost use Rattle.std.specs.Prelude.{◌≡◌, MatchOption, MatchResult, false, true};
ghost use Rattle.stamp_types.specs.declared.code.Code.TheVariants.{InvalidHeaderValue};
ghost use Rattle.request_form.specs.HeadForms as head_forms;
ghost use Rattle.request_form.specs.HeadReads.{RefusesValue};
ghost use Rattle.request_form.specs.HeadRules as heads;

use crate::value_fault::ValueFault;
use stamp_types::header_names::BLOB_PUBLIC_ACCESS;
use stamp_types::{Code, FieldList, Level, Op};

// The level that a value names.
fn level_named(value: &[u8]) -> Option<Level>
    ensures { MatchOption result (heads.is_level value.now ≡ false)
        (λ l. (heads.is_level value.now ≡ true) × (l ≡ head_forms.level_named value.now)) }
{
    if value == b"container".as_slice() {
        Some(Level::Container)
    } else if value == b"blob".as_slice() {
        Some(Level::Blob)
    } else {
        None
    }
}

/// The level that a request sets, if the operation sets a level.
///
/// `Refused` if the value does not name a level.
#[tactic(auto, unfolding(crate::specs::HeadFields::is_bad))]
pub(crate) fn level_by(op: Op, fields: &FieldList) -> Result<Option<Level>, ValueFault>
    ensures { MatchResult result
        (λ l. (heads.has_bad_level_by op fields.now ≡ false)
        × (l ≡ head_forms.level_by op fields.now))
        (RefusesValue (heads.has_bad_level_by op fields.now) InvalidHeaderValue) }
{
    if !op.sets_level() {
        return Ok(None);
    }
    let Some(value) = fields.first(BLOB_PUBLIC_ACCESS.as_bytes()) else {
        return Ok(Some(Level::Closed));
    };
    match level_named(value) {
        Some(level) => Ok(Some(level)),
        None => Err(ValueFault::Refused(Code::InvalidHeaderValue)),
    }
}
