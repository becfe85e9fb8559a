//! Rule F7: the values of the header lines.
ghost use Rattle.std.specs.Prelude.{◌≡◌, ◌||◌, MatchResult, None, Some, codes, cond, false, map, not, true};
ghost use Rattle.std.specs.List.{list_any};
ghost use Rattle.stamp_values.specs.Fields.{is_sent_twice};
ghost use Rattle.stamp_values.specs.Operations as operations;
ghost use Rattle.stamp_values.specs.Texts.{is_visible};
ghost use Rattle.stamp_types.specs.declared.code.Code.TheVariants.{InvalidHeaderValue};
ghost use Rattle.stamp_types.specs.declared.rule.Rule.TheVariants.{F7};
ghost use Rattle.request_form.specs.HeadFields.{is_bad, is_md5};
ghost use Rattle.request_form.specs.HeadForms.{header_args_of, kept_by, kept_of, line_args_of};
ghost use Rattle.request_form.specs.HeadForms as head_forms;
ghost use Rattle.request_form.specs.HeadReads.{RefusesValue};
ghost use Rattle.request_form.specs.HeadRules as heads;

use crate::parse::head_fields::{is_meta, is_own_name, md5_of};
use crate::parse::parsed_head::ParsedHead;
use crate::parse::range_field::range_by;
use crate::parse::texts::visible;
use crate::rules::f3_operation::is_put_blob;
use crate::rules::f7_condition::condition_by;
use crate::rules::f7_level::level_by;
use crate::rules::f7_metadata::read_metadata;
use crate::value_fault::ValueFault;
use http_header::{
    CACHE_CONTROL, CONTENT_ENCODING, CONTENT_LANGUAGE, CONTENT_TYPE, HeaderName, IF_MATCH,
    IF_NONE_MATCH,
};
use stamp_types::header_names::{
    BLOB_CACHE_CONTROL, BLOB_CONTENT_ENCODING, BLOB_CONTENT_LANGUAGE, BLOB_CONTENT_MD5,
    BLOB_CONTENT_TYPE, BLOB_TYPE, CONTENT_MD5, STANDARD_NAMES,
};
use stamp_types::{Args, Code, FieldList, Kept, Metadata, Op, Visible};
use std::alloc::Global;

// Whether the name is that of one of the service's own headers, but not of metadata, and was sent twice.
fn is_own_twice(fields: &FieldList, name: &[u8]) -> bool
    ensures { result ≡ heads.is_own_twice fields.now name.now }
{
    is_own_name(name) && !is_meta(name) && fields.is_sent_twice(name)
}

#[tactic(auto, unfolding(crate::specs::HeadRules::has_own_twice))]
fn has_own_twice(fields: &FieldList) -> bool
    ensures { result ≡ heads.has_own_twice fields.now }
{
    for field in fields.fields() {
        if is_own_twice(fields, field.name) {
            return true;
        }
    }
    false
}

fn is_any_twice(fields: &FieldList, names: &[&str]) -> bool
    ensures { result ≡ list_any (is_sent_twice fields.now) (map (λ name. name.now) names.now) }
{
    for name in names {
        if fields.is_sent_twice(name.as_bytes()) {
            return true;
        }
    }
    false
}

// Whether a header with a line of its own in the string to sign was sent twice.
#[tactic(auto, unfolding(crate::specs::HeadRules::has_standard_twice))]
fn has_standard_twice(fields: &FieldList) -> bool
    ensures { result ≡ heads.has_standard_twice fields.now }
{
    is_any_twice(fields, &STANDARD_NAMES)
}

// Whether some name was sent twice.
fn some_name_is_twice(fields: &FieldList) -> bool
    ensures { result ≡ list_any (λ f. is_sent_twice fields.now f.name) fields.now }
{
    for field in fields.fields() {
        if fields.is_sent_twice(field.name) {
            return true;
        }
    }
    false
}

// Whether a header was sent twice that may be sent once. Most heads have no name twice, so this is looked at first.
fn has_bad_twice(fields: &FieldList) -> bool
    ensures { result ≡ (heads.has_standard_twice fields.now || heads.has_own_twice fields.now) }
{
    some_name_is_twice(fields) && (has_standard_twice(fields) || has_own_twice(fields))
}

// The MD5 that was sent under the name, if an MD5 was sent.
#[tactic(auto, unfolding(crate::specs::HeadFields::is_bad, crate::specs::HeadForms::md5_under))]
fn md5_under(alloc: Global, fields: &FieldList, name: &str) -> Result<Option<[u8; 16]>, ValueFault>
    ensures { MatchResult result
        (λ md5. (is_bad fields.now name.now is_md5 ≡ false)
        × (md5 ≡ head_forms.md5_under fields.now name.now))
        (RefusesValue (is_bad fields.now name.now is_md5) InvalidHeaderValue) }
{
    let Some(value) = fields.first(name.as_bytes()) else {
        return Ok(None);
    };
    match md5_of(alloc, value)? {
        Some(md5) => Ok(Some(md5)),
        None => Err(ValueFault::Refused(Code::InvalidHeaderValue)),
    }
}

// The value of a header that is kept: the value of the service's own header, else the value of the plain header, if that counts,
// else no bytes.
#[tactic(auto, unfolding(crate::specs::HeadRules::kept_value))]
fn kept_value<'a>(
    fields: &'a FieldList,
    takes_plain: bool,
    own: &str,
    plain: &HeaderName,
) -> &'a [u8]
    ensures { result.now ≡ heads.kept_value takes_plain fields.now own.now plain.now }
{
    if let Some(value) = fields.first(own.as_bytes()) {
        return value;
    }
    if !takes_plain {
        return &[];
    }
    match fields.first(plain.as_bytes()) {
        Some(value) => value,
        None => &[],
    }
}

fn visible_under(
    alloc: Global,
    fields: &FieldList,
    takes_plain: bool,
    own: &str,
    plain: &HeaderName,
) -> Result<Visible, ValueFault>
    ensures { MatchResult result
        (λ v. (is_visible (heads.kept_value takes_plain fields.now own.now plain.now) ≡ true)
        × (v ≡ heads.kept_value takes_plain fields.now own.now plain.now))
        (RefusesValue
        (not (is_visible (heads.kept_value takes_plain fields.now own.now plain.now)))
        InvalidHeaderValue) }
{
    match visible(alloc, kept_value(fields, takes_plain, own, plain))? {
        Some(value) => Ok(value),
        None => Err(ValueFault::Refused(Code::InvalidHeaderValue)),
    }
}

// The headers that a blob is to keep. The plain headers count or not.
#[tactic(auto, unfolding(crate::specs::HeadRules::has_bad_kept))]
fn kept(
    alloc: Global,
    takes_plain: bool,
    fields: &FieldList,
    md5: Option<[u8; 16]>,
) -> Result<Kept, ValueFault>
    requires md5 { md5 ≡ head_forms.md5_under fields.now (codes "x-ms-blob-content-md5") }
    ensures { MatchResult result
        (λ k. (heads.has_bad_kept takes_plain fields.now ≡ false)
        × (k ≡ kept_of takes_plain fields.now))
        (RefusesValue (heads.has_bad_kept takes_plain fields.now) InvalidHeaderValue) }
{
    let content_type = visible_under(alloc, fields, takes_plain, BLOB_CONTENT_TYPE, &CONTENT_TYPE)?;
    let encoding = visible_under(
        alloc,
        fields,
        takes_plain,
        BLOB_CONTENT_ENCODING,
        &CONTENT_ENCODING,
    )?;
    let language = visible_under(
        alloc,
        fields,
        takes_plain,
        BLOB_CONTENT_LANGUAGE,
        &CONTENT_LANGUAGE,
    )?;
    let cache_control = visible_under(
        alloc,
        fields,
        takes_plain,
        BLOB_CACHE_CONTROL,
        &CACHE_CONTROL,
    )?;
    Ok(Kept {
        content_type,
        encoding,
        language,
        cache_control,
        md5,
    })
}

// The headers that a blob is to keep, if the operation keeps headers. The plain headers count for Put Blob alone.
fn kept_by(
    alloc: Global,
    op: Op,
    fields: &FieldList,
    md5: Option<[u8; 16]>,
) -> Result<Option<Kept>, ValueFault>
    requires md5 { md5 ≡ head_forms.md5_under fields.now (codes "x-ms-blob-content-md5") }
    ensures { MatchResult result
        (λ k. (heads.has_bad_kept_by op fields.now ≡ false) × (k ≡ kept_by op fields.now))
        (RefusesValue (heads.has_bad_kept_by op fields.now) InvalidHeaderValue) }
{
    if !op.keeps_headers() {
        return Ok(None);
    }
    Ok(Some(kept(alloc, is_put_blob(op), fields, md5)?))
}

// The MD5 that the body is to have, if the operation takes an MD5.
fn md5_by(op: Op, md5: Option<[u8; 16]>) -> Option<[u8; 16]>
    ensures { result ≡ cond (operations.checks_md5 op) md5 None }
{
    if op.checks_md5() { md5 } else { None }
}

// What the header lines say of a request beside its metadata, if no line is bad.
#[tactic(auto, unfolding(crate::specs::HeadRules::has_bad_line, crate::specs::HeadRules::has_bad_condition, crate::specs::HeadRules::has_bad_md5, crate::specs::HeadForms::line_args_of))]
fn good_args(alloc: Global, op: Op, fields: &FieldList) -> Result<Args, ValueFault>
    ensures { MatchResult result
        (λ v. (heads.has_bad_line (Some op) fields.now ≡ false) × (v ≡ line_args_of op fields.now))
        (RefusesValue (heads.has_bad_line (Some op) fields.now) InvalidHeaderValue) }
{
    if has_bad_twice(fields) {
        return Err(ValueFault::Refused(Code::InvalidHeaderValue));
    }
    let if_match = condition_by(op, fields, &IF_MATCH)?;
    let if_none_match = condition_by(op, fields, &IF_NONE_MATCH)?;
    let content_md5 = md5_by(op, md5_under(alloc, fields, CONTENT_MD5)?);
    let blob_md5 = md5_under(alloc, fields, BLOB_CONTENT_MD5)?;
    let kept = kept_by(alloc, op, fields, blob_md5)?;
    let level = match level_by(op, fields) {
        Ok(level) => level,
        Err(fault) => {
            drop(kept);
            return Err(fault);
        }
    };
    Ok(Args {
        if_match,
        if_none_match,
        content_md5,
        range: range_by(op, fields),
        kept,
        metadata: Metadata::empty(),
        level,
        page: None,
        block: None,
        kinds: None,
    })
}

// Whether the operation is Put Blob and the type of blob was not sent.
#[tactic(auto, unfolding(crate::specs::HeadRules::has_no_blob_type))]
fn has_no_blob_type(head: &ParsedHead<'_>, op: Op) -> bool
    requires op { heads.op_of head.now ≡ Some op }
    ensures { result ≡ heads.has_no_blob_type head.now }
{
    is_put_blob(op) && !head.fields.is_sent(BLOB_TYPE.as_bytes())
}

/// What the header lines say of a request, by rule F7.
///
/// `Refused` with the code of rule F7 if a header was sent twice that may not be, a value is bad, the metadata are bad, or Put Blob
/// comes without the type of blob.
#[tactic(auto, unfolding(crate::specs::HeadRules::has_bad_value, crate::specs::HeadRules::has_bad_metadata, crate::specs::HeadForms::header_args_of))]
pub(crate) fn read_args(alloc: Global, head: &ParsedHead<'_>, op: Op) -> Result<Args, ValueFault>
    requires op { heads.op_of head.now ≡ Some op }
    ensures { MatchResult result
        (λ v. (heads.head_holds head.now F7 ≡ false) × (v ≡ header_args_of op head.now.fields))
        (RefusesValue (heads.head_holds head.now F7) (heads.head_code head.now F7)) }
{
    let mut args = good_args(alloc, op, &head.fields)?;
    match read_metadata(alloc, op, &head.fields) {
        Ok(metadata) => args.metadata = metadata,
        Err(fault) => {
            drop(args);
            return Err(fault);
        }
    }
    if has_no_blob_type(head, op) {
        drop(args);
        return Err(ValueFault::Refused(Code::MissingRequiredHeader));
    }
    Ok(args)
}
