//! Heads for tests, and the requests that they ask for.

use request_form::{HeadFault, read_head};
use stamp_types::{Body, Code, Request, Rule};
use std::alloc::Global;
use std::process::Abort;

// The bytes of a head: its first lines, and one more line or more.
fn head_text(rt: &impl Abort, alloc: Global, start: &str, lines: &str) -> Vec<u8> {
    let mut text = start.as_bytes().to_vec(alloc).expect(rt, "memory");
    text.extend_from_slice(lines.as_bytes())
        .expect(rt, "memory");
    text.extend_from_slice(b"\r\n\r\n").expect(rt, "memory");
    text
}

/// The request of a head without a body, or the rule and the code that refuse the head.
pub(crate) fn request(
    rt: &impl Abort,
    alloc: Global,
    start: &str,
    lines: &str,
) -> Result<Request, (Rule, Code)> {
    let text = head_text(rt, alloc, start, lines);
    let head = match read_head(alloc, text.as_slice()) {
        Ok(head) => head,
        Err(HeadFault::Denied(denial)) => return Err((denial.rule, denial.code)),
        Err(HeadFault::NoMemory) => panic!(rt; "memory"),
    };
    assert!(rt; head.body_len() == 0);
    Ok(head.with_body(Body::empty()))
}
