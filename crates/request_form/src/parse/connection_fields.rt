//! What a head says about the connection (RFC 9110, sections 7.6.1 and 10.1.1; RFC 9112, section 9).
ghost use Rattle.std.specs.Prelude.{◌≡◌, bytes_eq, codes};
ghost use Rattle.std.specs.List.{list_any};
ghost use Rattle.stamp_values.specs.Fields.{trimmed};
ghost use Rattle.request_form.specs.HeadForms.{is_newer, expects_of, closes_of};
ghost use Rattle.request_form.specs.HeadForms as head_forms;
ghost use Rattle.request_form.specs.Targets.{lowered};

use crate::parse::parsed_head::{ParsedHead, Version};
use http_header::{CONNECTION, EXPECT};
use stamp_types::{FieldList, FieldRef, trimmed};

fn is_newer(version: Version) -> bool
    ensures { result ≡ is_newer version }
{
    matches!(version, Version::Http11)
}

// The option of a Connection header that ends the connection, in any case.
fn is_close(option: &[u8]) -> bool
    ensures { result ≡ bytes_eq (lowered (trimmed option.now)) (codes "close") }
{
    trimmed(option).eq_ignore_ascii_case(b"close")
}

#[tactic(auto, unfolding(crate::specs::HeadForms::has_close))]
fn has_close(value: &[u8]) -> bool
    ensures { result ≡ head_forms.has_close value.now }
{
    value
        .split(|byte| *byte == b',')
        .any(|option| is_close(option))
}

fn asks_to_close(field: &FieldRef<'_>) -> bool
    ensures { result ≡ head_forms.asks_to_close field.now }
{
    field.name == CONNECTION.as_bytes() && has_close(field.value)
}

fn some_asks_to_close(fields: &FieldList) -> bool
    ensures { result ≡ list_any head_forms.asks_to_close fields.now }
{
    for field in fields.fields() {
        if asks_to_close(&field) {
            return true;
        }
    }
    false
}

fn asks_to_go_on(field: &FieldRef<'_>) -> bool
    ensures { result ≡ head_forms.asks_to_go_on field.now }
{
    field.name == EXPECT.as_bytes() && field.value.eq_ignore_ascii_case(b"100-continue")
}

fn some_asks_to_go_on(fields: &FieldList) -> bool
    ensures { result ≡ list_any head_forms.asks_to_go_on fields.now }
{
    for field in fields.fields() {
        if asks_to_go_on(&field) {
            return true;
        }
    }
    false
}

/// Whether the client waits for the interim reply before it sends the body. A client of HTTP/1.0 never waits.
#[tactic(auto, unfolding(crate::specs::HeadForms::expects_of))]
pub(crate) fn expects(head: &ParsedHead<'_>) -> bool
    ensures { result ≡ expects_of head.now }
{
    is_newer(head.version) && some_asks_to_go_on(&head.fields)
}

/// Whether the connection ends after the reply: always with HTTP/1.0, and else if the client asks for it.
#[tactic(auto, unfolding(crate::specs::HeadForms::closes_of))]
pub(crate) fn closes(head: &ParsedHead<'_>) -> bool
    ensures { result ≡ closes_of head.now }
{
    !is_newer(head.version) || some_asks_to_close(&head.fields)
}
