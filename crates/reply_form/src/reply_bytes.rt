//! Replies as bytes.
ghost use Rattle.std.specs.Prelude.{◌≡◌, ◌++◌, IfOk, OnOk, codes};
ghost use Rattle.std.specs.List.{concat};
ghost use Rattle.moment_text.specs.Http.{http_text};
ghost use Rattle.reply_form.specs.HeaderLines.{line, reply_line};
ghost use Rattle.reply_form.specs.ReplyBytes.{phrase, status_line, rule_line, connection_line, length_line, is_not_modified, is_head, sends_body, head_bytes, reply_bytes};

use crate::header_line::{append_headers, append_line, append_number_line};
use http::StatusCode;
use itoa::Buffer;
use moment_text::write_http;
use stamp_types::header_names::printed::{CONNECTION, CONTENT_LENGTH, DATE};
use stamp_types::header_names::{RULE, VERSION};
use stamp_types::{Moment, Reply, Rule, Share, Status, Verb};
use std::alloc::{AllocError, Global};

// Room for a head with a few headers. A longer head makes the list grow.
const HEAD_ROOM: usize = 512;

// The standard phrase of a status (RFC 9110, section 15).
#[tactic(auto, unfolding(crate::specs::ReplyBytes::phrase))]
fn phrase(status: Status) -> &'static str
    ensures { result.now ≡ phrase status }
{
    let Ok(code) = StatusCode::from_u16(status.number()) else {
        return "";
    };
    code.canonical_reason().unwrap_or("")
}

#[tactic(auto, unfolding(crate::specs::ReplyBytes::status_line))]
fn append_status_line(out: &mut Vec<u8>, status: Status) -> Result<(), AllocError>
    ensures { OnOk result (out.new.items ≡ out.old.items ++ status_line status) }
{
    let mut digits = Buffer::new();
    out.extend_from_slice(b"HTTP/1.1 ")?;
    out.extend_from_slice(digits.format(status.number()).as_bytes())?;
    out.extend_from_slice(b" ")?;
    out.extend_from_slice(phrase(status).as_bytes())?;
    out.extend_from_slice(b"\r\n")
}

fn append_rule(out: &mut Vec<u8>, rule: Option<Rule>) -> Result<(), AllocError>
    ensures { OnOk result (out.new.items ≡ out.old.items ++ rule_line rule) }
{
    match rule {
        Some(rule) => append_line(out, RULE, rule.label().as_bytes()),
        None => Ok(()),
    }
}

fn append_connection(out: &mut Vec<u8>, close: bool) -> Result<(), AllocError>
    ensures { OnOk result (out.new.items ≡ out.old.items ++ connection_line close) }
{
    if close {
        append_line(out, CONNECTION, b"close")
    } else {
        Ok(())
    }
}

// The line of the length that the reply gives; a reply of 304 has no such line (RFC 9110, section
// 15.4.5). The reply to HEAD has the same line as the reply to GET (RFC 9110, section 9.3.2).
fn append_length(out: &mut Vec<u8>, status: Status, length: u64) -> Result<(), AllocError>
    ensures { OnOk result (out.new.items ≡ out.old.items ++ length_line status length) }
{
    if is_not_modified(status) {
        return Ok(());
    }
    append_number_line(out, CONTENT_LENGTH, length)
}

fn append_date(out: &mut Vec<u8>, moment: Moment) -> Result<(), AllocError>
    ensures { OnOk result
        (out.new.items ≡ out.old.items ++ line (codes "Date") (http_text moment)) }
{
    append_line(out, DATE, &write_http(moment))
}

// The line of the version of the Blob service that the stamp speaks.
fn append_version(out: &mut Vec<u8>) -> Result<(), AllocError>
    ensures { OnOk result
        (out.new.items ≡ out.old.items ++ line (codes "x-ms-version") (codes "2012-02-12")) }
{
    append_line(out, VERSION, b"2012-02-12")
}

// The first lines of each reply: the status line, the date and the version.
fn append_opening(out: &mut Vec<u8>, status: Status, moment: Moment) -> Result<(), AllocError>
    ensures { OnOk result
        (out.new.items
        ≡ out.old.items ++ status_line status ++ line (codes "Date") (http_text moment)
        ++ line (codes "x-ms-version") (codes "2012-02-12")) }
{
    append_status_line(out, status)?;
    append_date(out, moment)?;
    append_version(out)?;
    Ok(())
}

#[tactic(auto, unfolding(crate::specs::ReplyBytes::head_bytes))]
fn append_head(
    out: &mut Vec<u8>,
    reply: &Reply,
    moment: Moment,
    close: bool,
) -> Result<(), AllocError>
    ensures { OnOk result (out.new.items ≡ out.old.items ++ head_bytes reply.now moment close) }
{
    append_opening(out, reply.status, moment)?;
    append_rule(out, reply.rule)?;
    append_headers(out, reply.headers.as_slice())?;
    append_connection(out, close)?;
    append_length(out, reply.status, reply.length)?;
    out.extend_from_slice(b"\r\n")?;
    Ok(())
}

fn is_not_modified(status: Status) -> bool
    ensures { result ≡ is_not_modified status }
{
    matches!(status, Status::NotModified)
}

fn is_head(verb: Option<Verb>) -> bool
    ensures { result ≡ is_head verb }
{
    matches!(verb, Some(Verb::Head))
}

/// Whether a reply of the status to a request of the verb sends its body. A reply of 304 does not
/// send its body, and a reply to HEAD does not (RFC 9110, sections 9.3.2 and 15.4.5).
///
/// `verb` is `None` if the stamp does not serve the method, or if the head can't be read.
pub fn sends_body(status: Status, verb: Option<Verb>) -> bool
    ensures { result ≡ sends_body status verb }
{
    !(is_not_modified(status) || is_head(verb))
}

fn append_shares(out: &mut Vec<u8>, shares: &[Share]) -> Result<(), AllocError>
    ensures { OnOk result (out.new.items ≡ out.old.items ++ concat shares.now) }
{
    for share in shares {
        out.extend_from_slice(share.as_slice())?;
    }
    Ok(())
}

/// A reply up to and including the empty line. A caller that writes the shares of the body itself,
/// if `sends_body` says so, copies no body. The order of the lines is our own choice.
///
/// `moment` is when the request was judged, and `close` is whether the connection ends after the
/// reply. `AllocError` if memory runs out.
pub fn write_head(
    alloc: Global,
    reply: &Reply,
    moment: Moment,
    close: bool,
) -> Result<Vec<u8>, AllocError>
    ensures { IfOk result (λ bytes. bytes.items ≡ head_bytes reply.now moment close) }
{
    let mut out = Vec::with_capacity(alloc, HEAD_ROOM)?;
    append_head(&mut out, reply, moment, close)?;
    Ok(out)
}

// Room for a reply with a few headers, as it is sent. All of it is taken at once: a list that grows is moved.
fn room_of(reply: &Reply, verb: Option<Verb>) -> usize {
    if sends_body(reply.status, verb) {
        HEAD_ROOM.saturating_add(reply.body.len())
    } else {
        HEAD_ROOM
    }
}

/// A reply as it is sent: its head, and its body if `sends_body` says so (RFC 9110, section 15).
///
/// `moment` is when the request was judged, and `close` is whether the connection ends after the
/// reply. `AllocError` if memory runs out.
#[tactic(auto, unfolding(crate::specs::ReplyBytes::reply_bytes))]
pub fn write_reply(
    alloc: Global,
    reply: &Reply,
    moment: Moment,
    verb: Option<Verb>,
    close: bool,
) -> Result<Vec<u8>, AllocError>
    ensures { IfOk result (λ bytes. bytes.items ≡ reply_bytes reply.now moment verb close) }
{
    let mut out = Vec::with_capacity(alloc, room_of(reply, verb))?;
    append_head(&mut out, reply, moment, close)?;
    if !sends_body(reply.status, verb) {
        return Ok(out);
    }
    append_shares(&mut out, reply.body.as_slice())?;
    Ok(out)
}
