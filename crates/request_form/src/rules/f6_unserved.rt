//! Rule F6: headers that ask for what the stamp does not serve.
ghost use Rattle.std.specs.Prelude.{◌≡◌, Some};
ghost use Rattle.request_form.specs.HeadRules as heads;

use crate::parse::head_fields::has_other;
use crate::parse::parsed_head::ParsedHead;
use crate::rules::f3_operation::is_put_blob;
use http_header::{IF_MATCH, IF_MODIFIED_SINCE, IF_NONE_MATCH, IF_UNMODIFIED_SINCE};
use stamp_types::header_names::{BLOB_TYPE, COPY_SOURCE, LEASE_ID, VERSION};
use stamp_types::{FieldList, Op, Verb};

// Whether a header was sent that no operation serves.
#[tactic(auto, unfolding(crate::specs::HeadRules::has_unserved))]
fn has_unserved(fields: &FieldList) -> bool
    ensures { result ≡ heads.has_unserved fields.now }
{
    fields.is_sent(IF_UNMODIFIED_SINCE.as_bytes())
        || fields.is_sent(LEASE_ID.as_bytes())
        || fields.is_sent(COPY_SOURCE.as_bytes())
}

// Whether If-Match or If-None-Match was sent.
#[tactic(auto, unfolding(crate::specs::HeadRules::has_condition))]
fn has_condition(fields: &FieldList) -> bool
    ensures { result ≡ heads.has_condition fields.now }
{
    fields.is_sent(IF_MATCH.as_bytes()) || fields.is_sent(IF_NONE_MATCH.as_bytes())
}

// Whether a condition was sent that the operation does not have.
#[tactic(auto, unfolding(crate::specs::HeadRules::has_unserved_condition))]
fn has_unserved_condition(head: &ParsedHead<'_>, op: Op) -> bool
    requires op { heads.op_of head.now ≡ Some op }
    ensures { result ≡ heads.has_unserved_condition head.now }
{
    !op.has_conditions() && has_condition(&head.fields)
}

// Whether a method that writes asks if something was modified since a date.
#[tactic(auto, unfolding(crate::specs::HeadRules::has_date_of_a_write))]
fn has_date_of_a_write(head: &ParsedHead<'_>, verb: Verb) -> bool
    requires verb { heads.verb_of head.now.method ≡ Some verb }
    ensures { result ≡ heads.has_date_of_a_write head.now }
{
    matches!(verb, Verb::Put | Verb::Delete) && head.fields.is_sent(IF_MODIFIED_SINCE.as_bytes())
}

/// Rule F6: a header asks for what the stamp does not serve.
#[tactic(auto, unfolding(crate::specs::HeadRules::asks_the_unserved))]
pub(crate) fn asks_the_unserved(head: &ParsedHead<'_>, verb: Verb, op: Op) -> bool
    requires verb { heads.verb_of head.now.method ≡ Some verb }
    requires op { heads.op_of head.now ≡ Some op }
    ensures { result ≡ heads.asks_the_unserved head.now }
{
    let fields = &head.fields;
    if has_other(fields, VERSION, "2012-02-12") || has_unserved(fields) {
        return true;
    }
    if has_unserved_condition(head, op) || has_date_of_a_write(head, verb) {
        return true;
    }
    is_put_blob(op) && has_other(fields, BLOB_TYPE, "BlockBlob")
}
