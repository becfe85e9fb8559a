//! Rule F3: the parameters of a page of names (Blob service REST reference, 2012-02-12, List Containers, List Blobs).
ghost use Rattle.std.specs.Prelude.{◌≡◌, MatchOption, MatchResult, None, Some, bytes_eq, codes, cond, false, min, true};
ghost use Rattle.std.specs.List.{list_any};
ghost use Rattle.stamp_types.specs.declared.code.Code.TheVariants.{InvalidQueryParameterValue};
ghost use Rattle.stamp_values.specs.Limits.{page_limit};
ghost use Rattle.stamp_values.specs.Operations.{lists_names};
ghost use Rattle.request_form.specs.HeadPages as pages;
ghost use Rattle.request_form.specs.HeadReads.{RefusesValue};
ghost use Rattle.request_form.specs.HeadRules as heads;

use crate::parse::head_fields::number;
use crate::parse::texts::clean;
use crate::rules::f3_parameters::is_text;
use crate::value_fault::ValueFault;
use stamp_types::{Code, FieldList, Op, PAGE_LIMIT, Page, Text};
use std::alloc::Global;

// The text that a query gives under a name, unless it is empty. The parameter may have any text.
#[tactic(auto, unfolding(crate::specs::HeadPages::text_given, crate::specs::HeadRules::is_bad_parameter, crate::specs::HeadRules::is_value_of, crate::specs::HeadFields::is_bad))]
fn read_text(alloc: Global, query: &FieldList, name: &str) -> Result<Option<Text>, ValueFault>
    requires max { bytes_eq name.now (codes "maxresults") ≡ false }
    requires include { bytes_eq name.now (codes "include") ≡ false }
    ensures { MatchResult result
        (λ text. (heads.is_bad_parameter query.now name.now (heads.is_value_of name.now) ≡ false)
        × (text ≡ pages.text_given query.now name.now))
        (RefusesValue (heads.is_bad_parameter query.now name.now (heads.is_value_of name.now))
        InvalidQueryParameterValue) }
{
    if query.is_sent_twice(name.as_bytes()) {
        return Err(ValueFault::Refused(Code::InvalidQueryParameterValue));
    }
    let Some(value) = query.first(name.as_bytes()) else {
        return Ok(None);
    };
    let Some(text) = clean(alloc, value)? else {
        return Err(ValueFault::Refused(Code::InvalidQueryParameterValue));
    };
    if value.is_empty() {
        return Ok(None);
    }
    Ok(Some(text))
}

// The delimiter that a query gives, if the operation is List Blobs.
fn read_delimiter(alloc: Global, op: Op, query: &FieldList) -> Result<Option<Text>, ValueFault>
    ensures { MatchResult result
        (λ text. (heads.is_bad_parameter query.now (codes "delimiter") (heads.is_value_of (codes "delimiter")) ≡ false)
        × (text ≡ pages.delimiter_by op query.now))
        (RefusesValue
        (heads.is_bad_parameter query.now (codes "delimiter") (heads.is_value_of (codes "delimiter")))
        InvalidQueryParameterValue) }
{
    let text = read_text(alloc, query, "delimiter")?;
    if matches!(op, Op::ListBlobs) {
        return Ok(text);
    }
    Ok(None)
}

// The number, but not more than a page may have.
fn within_page(number: u64) -> u32
    ensures { result ≡ min number page_limit }
{
    if number < u64::from(PAGE_LIMIT) {
        number as u32
    } else {
        PAGE_LIMIT
    }
}

// How many names a value asks for. A page of no names cannot be asked for.
fn max_of(value: &[u8]) -> Option<u32>
    ensures { MatchOption result (heads.is_good_value heads.is_count value.now ≡ false)
        (λ max. (heads.is_good_value heads.is_count value.now ≡ true)
        × (max ≡ pages.max_named value.now)) }
{
    if !is_text(value) {
        return None;
    }
    match number(value) {
        Some(number) if number != 0 => Some(within_page(number)),
        _ => None,
    }
}

// How many names a query asks for.
#[tactic(auto, unfolding(crate::specs::HeadPages::max_given, crate::specs::HeadRules::is_bad_parameter, crate::specs::HeadRules::is_value_of, crate::specs::HeadFields::is_bad))]
fn read_max(query: &FieldList) -> Result<u32, ValueFault>
    ensures { MatchResult result
        (λ max. (heads.is_bad_parameter query.now (codes "maxresults") (heads.is_value_of (codes "maxresults")) ≡ false)
        × (max ≡ pages.max_given query.now))
        (RefusesValue
        (heads.is_bad_parameter query.now (codes "maxresults") (heads.is_value_of (codes "maxresults")))
        InvalidQueryParameterValue) }
{
    if query.is_sent_twice(b"maxresults") {
        return Err(ValueFault::Refused(Code::InvalidQueryParameterValue));
    }
    let Some(value) = query.first(b"maxresults") else {
        return Ok(PAGE_LIMIT);
    };
    match max_of(value) {
        Some(max) => Ok(max),
        None => Err(ValueFault::Refused(Code::InvalidQueryParameterValue)),
    }
}

// Whether a value asks for metadata too: it names them, or it is empty.
#[tactic(auto, unfolding(crate::specs::HeadRules::is_value_of))]
fn metadata_of(value: &[u8]) -> Option<bool>
    ensures { MatchOption result
        (heads.is_good_value (heads.is_value_of (codes "include")) value.now ≡ false)
        (λ metadata. (heads.is_good_value (heads.is_value_of (codes "include")) value.now ≡ true)
        × (metadata ≡ bytes_eq value.now (codes "metadata"))) }
{
    let metadata = value == b"metadata".as_slice();
    if is_text(value) && (value.is_empty() || metadata) {
        return Some(metadata);
    }
    None
}

// Whether a query asks for metadata too.
#[tactic(auto, unfolding(crate::specs::HeadPages::asks_for_metadata, crate::specs::HeadRules::is_bad_parameter, crate::specs::HeadFields::is_bad))]
fn read_include(query: &FieldList) -> Result<bool, ValueFault>
    ensures { MatchResult result
        (λ metadata. (heads.is_bad_parameter query.now (codes "include") (heads.is_value_of (codes "include")) ≡ false)
        × (metadata ≡ pages.asks_for_metadata query.now))
        (RefusesValue
        (heads.is_bad_parameter query.now (codes "include") (heads.is_value_of (codes "include")))
        InvalidQueryParameterValue) }
{
    if query.is_sent_twice(b"include") {
        return Err(ValueFault::Refused(Code::InvalidQueryParameterValue));
    }
    let Some(value) = query.first(b"include") else {
        return Ok(false);
    };
    match metadata_of(value) {
        Some(metadata) => Ok(metadata),
        None => Err(ValueFault::Refused(Code::InvalidQueryParameterValue)),
    }
}

// Whether the name is that of a parameter of a page.
fn is_page_name(name: &[u8]) -> bool
    ensures { result ≡ list_any (bytes_eq name.now) heads.page_names }
{
    name == b"prefix".as_slice()
        || name == b"delimiter".as_slice()
        || name == b"marker".as_slice()
        || name == b"maxresults".as_slice()
        || name == b"include".as_slice()
}

// Whether a query has a parameter of a page. Few queries have one, so this is looked at first.
fn has_page_name(query: &FieldList) -> bool
    ensures { result ≡ list_any (λ f. list_any (bytes_eq f.name) heads.page_names) query.now }
{
    for field in query.fields() {
        if is_page_name(field.name) {
            return true;
        }
    }
    false
}

// The page of a query without parameters of a page.
fn first_page() -> Page
    ensures { result ≡ pages.first_page }
{
    Page {
        prefix: None,
        delimiter: None,
        marker: None,
        max: PAGE_LIMIT,
        metadata: false,
    }
}

// The names that a query with parameters of a page asks for.
#[tactic(auto, unfolding(crate::specs::HeadPages::page_of, crate::specs::HeadRules::has_bad_page))]
fn read_names(alloc: Global, op: Op, query: &FieldList) -> Result<Page, ValueFault>
    ensures { MatchResult result
        (λ page. (heads.has_bad_page query.now ≡ false) × (page ≡ pages.page_of op query.now))
        (RefusesValue (heads.has_bad_page query.now) InvalidQueryParameterValue) }
{
    // In the order of the definition, so that each early end is the first bad parameter.
    let prefix = read_text(alloc, query, "prefix")?;
    let delimiter = read_delimiter(alloc, op, query)?;
    let marker = read_text(alloc, query, "marker")?;
    let max = read_max(query)?;
    let metadata = read_include(query)?;
    Ok(Page {
        prefix,
        delimiter,
        marker,
        max,
        metadata,
    })
}

// The page that was asked for, if the operation lists names.
fn page_by(op: Op, page: Page) -> Option<Page>
    ensures { result ≡ cond (lists_names op) (Some page) None }
{
    if op.lists_names() { Some(page) } else { None }
}

/// The names that a query asks for, if the operation lists names. The delimiter counts if the operation is List Blobs.
///
/// `Refused` if a parameter of a page is given twice or has a bad value, whatever the operation is.
pub(crate) fn read_page(
    alloc: Global,
    op: Op,
    query: &FieldList,
) -> Result<Option<Page>, ValueFault>
    ensures { MatchResult result
        (λ page. (heads.has_bad_page query.now ≡ false) × (page ≡ pages.page_by op query.now))
        (RefusesValue (heads.has_bad_page query.now) InvalidQueryParameterValue) }
{
    if !has_page_name(query) {
        return Ok(page_by(op, first_page()));
    }
    let page = read_names(alloc, op, query)?;
    Ok(page_by(op, page))
}
