//! The headers of metadata, by rule F7.
ghost use Rattle.std.specs.Prelude.{◌≡◌, ◌&&◌, ◌↔◌, ◌≤◌, IfOk, IsTrue, MatchOption, MatchResult, OnOk, drop, false, length, map, true};
ghost use Rattle.std.specs.List.{list_all, position_or_len};
ghost use Rattle.stamp_values.specs.Limits.{metadata_limit};
ghost use Rattle.stamp_values.specs.MetadataLists as lists;
ghost use Rattle.stamp_values.specs.Names as names;
ghost use Rattle.stamp_values.specs.Texts.{is_visible};
ghost use Rattle.stamp_types.specs.declared.code.Code.TheVariants.{InvalidMetadata};
ghost use Rattle.request_form.specs.HeadFields as fields_of;
ghost use Rattle.request_form.specs.HeadMetadata as metadata;
ghost use Rattle.request_form.specs.HeadReads.{RefusesValue};

use crate::parse::texts::visible;
use crate::value_fault::ValueFault;
use stamp_types::header_names::META_PREFIX;
use stamp_types::{
    Code, FieldList, FieldRef, Items, METADATA_LIMIT, Meta, Metadata, Op, is_metadata_name,
};
use std::alloc::{AllocError, Global};

// What follows `x-ms-meta-` in the name of a header of metadata; `None` for any other name.
fn unprefixed(name: &[u8]) -> Option<&[u8]>
    ensures { MatchOption result (fields_of.is_meta name.now ≡ false)
        (λ rest. (fields_of.is_meta name.now ≡ true) × (rest.now ≡ drop 10 name.now)) }
{
    name.strip_prefix(META_PREFIX)
}

// The index of the first field whose name comes after the name, or else how many fields there are.
fn place(fields: &[FieldRef<'_>], name: &[u8]) -> usize
    ensures value { result ≡ position_or_len (metadata.is_before name.now) fields.now }
    ensures bound { result ≤ length fields.now }
{
    for (i, field) in fields.iter().enumerate() {
        if name.cmp(field.name).is_lt() {
            return i;
        }
    }
    fields.len()
}

fn put<'a>(fields: &mut Vec<FieldRef<'a>>, field: FieldRef<'a>) -> Result<(), AllocError>
    ensures { OnOk result (fields.new.items ≡ metadata.placed fields.old.items field.entry) }
{
    let at = place(fields, field.name);
    fields.insert(at, field).map_err(AllocError::from)
}

// The headers of metadata under their names without `x-ms-meta-`, by the bytes of these names.
#[tactic(auto, unfolding(crate::specs::HeadMetadata::meta_fields))]
fn in_name_order(alloc: Global, fields: &FieldList) -> Result<Vec<FieldRef<'_>>, AllocError>
    ensures { IfOk result (λ v. v.items ≡ metadata.in_name_order (metadata.meta_fields fields.now)) }
{
    let mut sent = Vec::new(alloc);
    for field in fields.fields() {
        if let Some(name) = unprefixed(field.name) {
            let value = field.value;
            put(&mut sent, FieldRef { name, value })?;
        }
    }
    Ok(sent)
}

fn have_good_names(fields: &[FieldRef<'_>]) -> bool
    ensures { result
        ≡ list_all (λ m. names.is_metadata_name m.name) (map metadata.meta_of fields.now) }
{
    for field in fields {
        if !is_metadata_name(field.name) {
            return false;
        }
    }
    true
}

fn is_before_next(field: &FieldRef<'_>, others: &[FieldRef<'_>]) -> bool
    ensures { result
        ≡ lists.is_before_next (metadata.meta_of field.now) (map metadata.meta_of others.now) }
{
    match others {
        [] => true,
        [next, ..] => field.name.cmp(next.name).is_lt(),
    }
}

fn has_rising_names(fields: &[FieldRef<'_>]) -> bool
    ensures { result ≡ lists.has_rising_names (map metadata.meta_of fields.now) }
{
    let mut left = fields;
    while let [first, rest @ ..] = left {
        if !is_before_next(first, rest) {
            return false;
        }
        left = rest;
    }
    true
}

// Whether names and values have at most 8,192 bytes together.
fn are_short(fields: &[FieldRef<'_>]) -> bool
    ensures { IsTrue result
        ↔ (lists.metadata_len (map metadata.meta_of fields.now) ≤ metadata_limit) }
{
    let mut left = METADATA_LIMIT;
    for field in fields {
        let name = field.name.len();
        let value = field.value.len();
        if name > left || value > left - name {
            return false;
        }
        left -= name + value;
    }
    true
}

// Whether the names and the lengths are those of metadata. The bytes of values are not looked at.
fn are_metadata(fields: &[FieldRef<'_>]) -> bool
    ensures { result ≡ lists.is_metadata (map metadata.meta_of fields.now) }
{
    have_good_names(fields) && has_rising_names(fields) && are_short(fields)
}

// The name and the value, if both are visible.
fn meta(alloc: Global, field: &FieldRef<'_>) -> Result<Option<Meta>, AllocError>
    ensures { IfOk result (λ o. MatchOption o
        ((is_visible field.now.name && is_visible field.now.value) ≡ false)
        (λ m. ((is_visible field.now.name && is_visible field.now.value) ≡ true)
        × (m ≡ metadata.meta_of field.now))) }
{
    let Some(name) = visible(alloc, field.name)? else {
        return Ok(None);
    };
    let Some(value) = visible(alloc, field.value)? else {
        return Ok(None);
    };
    Ok(Some(Meta {
        name: name.into_text(),
        value,
    }))
}

// Each name and its value, if all are visible.
fn metas(alloc: Global, fields: &[FieldRef<'_>]) -> Result<Option<Vec<Meta>>, AllocError>
    ensures { IfOk result (λ o. MatchOption o
        (list_all (λ f. is_visible f.name && is_visible f.value) fields.now ≡ false)
        (λ v. (list_all (λ f. is_visible f.name && is_visible f.value) fields.now ≡ true)
        × (v.items ≡ map metadata.meta_of fields.now))) }
{
    let mut metas = Vec::with_capacity(alloc, fields.len())?;
    for field in fields {
        match meta(alloc, field)? {
            Some(meta) => metas.push(meta)?,
            None => return Ok(None),
        }
    }
    Ok(Some(metas))
}

// The metadata that are kept.
#[tactic(auto, using(crate::proofs::MetadataLemmas::hidden_bad, crate::proofs::MetadataLemmas::shown_good))]
fn kept_metadata(alloc: Global, fields: &[FieldRef<'_>]) -> Result<Metadata, ValueFault>
    ensures { MatchResult result
        (λ ms. (metadata.are_bad_to_keep (map metadata.meta_of fields.now) ≡ false)
        × (ms ≡ map metadata.meta_of fields.now))
        (RefusesValue (metadata.are_bad_to_keep (map metadata.meta_of fields.now))
        InvalidMetadata) }
{
    let Some(metas) = metas(alloc, fields)? else {
        return Err(ValueFault::Refused(Code::InvalidMetadata));
    };
    match Metadata::new(alloc, Items::new(metas))? {
        Some(metadata) => Ok(metadata),
        None => Err(ValueFault::Refused(Code::InvalidMetadata)),
    }
}

/// The metadata that come with a request, if the operation keeps metadata.
///
/// `Refused` with the code InvalidMetadata if a name is bad or was sent twice, or names and values have more than 8,192 bytes
/// together; if the operation keeps metadata, also if a value has a byte that is not visible.
#[tactic(auto, unfolding(crate::specs::HeadMetadata::has_bad_metadata_by, crate::specs::HeadMetadata::metadata_by, crate::specs::HeadMetadata::metas_of))]
pub(crate) fn read_metadata(
    alloc: Global,
    op: Op,
    fields: &FieldList,
) -> Result<Metadata, ValueFault>
    ensures { MatchResult result
        (λ ms. (metadata.has_bad_metadata_by op fields.now ≡ false)
        × (ms ≡ metadata.metadata_by op fields.now))
        (RefusesValue (metadata.has_bad_metadata_by op fields.now) InvalidMetadata) }
{
    let sent = in_name_order(alloc, fields)?;
    if op.keeps_metadata() {
        return kept_metadata(alloc, &sent);
    }
    if !are_metadata(&sent) {
        return Err(ValueFault::Refused(Code::InvalidMetadata));
    }
    Ok(Metadata::empty())
}
