//! Request heads as they are read (RFC 9112, sections 2 to 5).
ghost use Rattle.std.specs.Prelude.{◌≡◌, ◌≤◌, All, IfOk, IfSome, IsUtf8, None, length};
ghost use Rattle.httparse.specs.Grammar.{RequestHead};
ghost use Rattle.httparse.specs.Spans.{IsWithin, IsHeaderWithin, IsRequestWithin, IsRequestAt, span_bytes};
ghost use Rattle.stamp_values.specs.Fields.{fields_len};
ghost use Rattle.request_form.specs.HeadFields.{is_authorization, signed_headers, authorization_values};
ghost use Rattle.request_form.specs.Heads.{IsHead, IsNoHead, head_limit, parsed_of, version_of};
ghost use Rattle.request_form.specs.HeadSpans.{field_at, fields_at, parts_at};

use crate::parse::parsed_head::{ParsedHead, Version};
use http_header::AUTHORIZATION;
use httparse::Status;
use httparse::spans::{EMPTY_HEADER_SPAN, HeaderSpan, RequestSpans, Span, parse_request};
use stamp_types::{Bytes, FieldList, Items};
use std::alloc::{AllocError, Global};

/// The most bytes of a head.
pub const HEAD_LIMIT: usize = 16_384;

// The most header lines of a head.
const FIELDS_LIMIT: usize = 64;

// The header lines of a head.
#[derive(Drop)]
struct HeaderLines {
    // All headers but Authorization.
    fields: FieldList,
    // The values of the Authorization headers.
    authorization: Items<Bytes>,
}

fn version(minor: u8) -> Version
    ensures { result ≡ version_of minor }
{
    if minor == 0 {
        Version::Http10
    } else {
        Version::Http11
    }
}

fn read_span(alloc: Global, text: &[u8], span: Span) -> Result<Bytes, AllocError>
    requires { IsWithin (length text.now) span }
    ensures { IfOk result (λ b. b ≡ span_bytes text.now span) }
{
    Ok(Bytes::new(span.of(text).to_vec(alloc)?))
}

// Names have no case (RFC 9110, section 5.1).
fn is_authorization(text: &[u8], header: HeaderSpan) -> bool
    requires { IsHeaderWithin (length text.now) header }
    ensures { result ≡ is_authorization (field_at text.now header) }
{
    header
        .name
        .of(text)
        .eq_ignore_ascii_case(AUTHORIZATION.as_bytes())
}

#[tactic(auto, unfolding(crate::specs::HeadFields::signed_headers, crate::specs::HeadFields::authorization_values))]
fn read_headers(
    alloc: Global,
    text: &[u8],
    headers: &[HeaderSpan],
) -> Result<HeaderLines, AllocError>
    requires { All (IsHeaderWithin (length text.now)) headers.now }
    ensures fields { IfOk result (λ lines.
        lines.fields ≡ signed_headers (fields_at text.now headers.now)) }
    ensures authorization { IfOk result (λ lines.
        lines.authorization ≡ authorization_values (fields_at text.now headers.now)) }
{
    // The names and values of a head are not longer than its text.
    let mut fields = FieldList::with_room(alloc, text.len(), headers.len())?;
    let mut authorization = Vec::new(alloc);
    for header in headers {
        if is_authorization(text, *header) {
            authorization.push(read_span(alloc, text, header.value)?)?;
        } else {
            fields.push(header.name.of(text), header.value.of(text))?;
        }
    }
    Ok(HeaderLines {
        fields,
        authorization: Items::new(authorization),
    })
}

#[tactic(auto, unfolding(crate::specs::HeadSpans::parts_at))]
fn read_parts<'a>(
    alloc: Global,
    text: &'a [u8],
    headers: &[HeaderSpan],
    head: RequestSpans,
) -> Result<ParsedHead<'a>, AllocError>
    requires whole { head.len ≡ length text.now }
    requires within { IsRequestWithin text.now headers.now head }
    ensures { IfOk result (λ p. p ≡ parts_at text.now headers.now head) }
{
    let lines = read_headers(alloc, text, &headers[..head.headers])?;
    Ok(ParsedHead {
        method: head.method.of(text),
        target: head.path.of(text),
        version: version(head.version),
        fields: lines.fields,
        authorization: lines.authorization,
    })
}

// The spans of the parts of a head that is the whole text.
fn find_parts(text: &[u8], headers: &mut [HeaderSpan; FIELDS_LIMIT]) -> Option<RequestSpans>
    ensures whole { IfSome result (λ r. r.len ≡ length text.now) }
    ensures within { IfSome result (λ r. IsRequestWithin text.now headers.new r) }
    ensures head { IfSome result (λ r.
        (h : RequestHead) × IsHead text.now h × IsRequestAt text.now headers.new r h) }
    ensures none { result ≡ None → IsNoHead text.now }
{
    if text.len() > HEAD_LIMIT {
        return None;
    }
    match parse_request(text, headers) {
        Ok(Status::Complete(head)) if head.len == text.len() => Some(head),
        _ => None,
    }
}

/// The parts of a request head, or `None` if the bytes are not a head: they do not have its form, more bytes follow it, it is
/// longer than 16,384 bytes, or it has more than 64 header lines. Lines may end in LF alone, and empty lines may come first
/// (RFC 9112, section 2.2).
///
/// `AllocError` if memory runs out.
pub(crate) fn parse_head(alloc: Global, text: &[u8]) -> Result<Option<ParsedHead<'_>>, AllocError>
    ensures head { IfOk result (λ o. IfSome o (λ p.
        (h : RequestHead) × IsHead text.now h × (p ≡ parsed_of h))) }
    ensures none { IfOk result (λ o. o ≡ None → IsNoHead text.now) }
    ensures short { IfOk result (λ o. IfSome o (λ p.
        fields_len p.fields ≤ head_limit)) }
    ensures target { IfOk result (λ o. IfSome o (λ p.
        (length p.target ≤ head_limit) × IsUtf8 p.target)) }
{
    let mut headers = [EMPTY_HEADER_SPAN; FIELDS_LIMIT];
    let Some(head) = find_parts(text, &mut headers) else {
        return Ok(None);
    };
    Ok(Some(read_parts(alloc, text, &headers, head)?))
}
