//! Bodies of refusals.
ghost use Rattle.std.specs.Prelude.{◌≡◌, IfOk};
ghost use Rattle.stamp_types.specs.Replies.{error_body};

use crate::code::Code;
use crate::rule::Rule;
use std::alloc::{AllocError, Global};

// How many bytes the longest error has: its code has 26 bytes, and its rule has 3 bytes.
const ERROR_ROOM: usize = 131;

/// The error in XML that a refusal sends ("Status and Error Codes"), on one line.
///
/// `AllocError` if memory runs out for it.
#[tactic(auto, unfolding(crate::specs::Replies::error_body))]
pub fn write_error(alloc: Global, code: Code, rule: Rule) -> Result<Vec<u8>, AllocError>
    ensures { IfOk result (λ text. text.items ≡ error_body code rule) }
{
    let mut text = Vec::with_capacity(alloc, ERROR_ROOM)?;
    text.extend_from_slice(b"<?xml version=\"1.0\" encoding=\"utf-8\"?><Error><Code>")?;
    text.extend_from_slice(code.text().as_bytes())?;
    text.extend_from_slice(b"</Code><Message>Refused by rule ")?;
    text.extend_from_slice(rule.label().as_bytes())?;
    text.extend_from_slice(b".</Message></Error>")?;
    Ok(text)
}
