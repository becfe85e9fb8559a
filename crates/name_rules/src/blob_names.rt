//! The name of a blob in a path.
ghost use Rattle.std.specs.Prelude.{◌≡◌, MatchOption, MatchResult, Ok, Err, false, string_bytes, true};
ghost use Rattle.stamp_values.specs.Texts.{is_utf8};
ghost use Rattle.name_rules.specs.BlobNames.{decoded_name, name_of, FaultOf};

use crate::escapes::decoded;
use stamp_values::{Text, char_count};
use std::alloc::{AllocError, Global};
use thiserror::Error;

/// Why a path does not name a blob.
#[derive(Clone, Copy, Debug, PartialEq, Eq, Error)]
pub enum NameFault {
    /// The name has no bytes.
    #[error("the name is empty")]
    Empty,
    /// The name has more than 1,024 characters.
    #[error("the name has more than 1,024 characters")]
    TooLong,
    /// The bytes of the name are not UTF-8.
    #[error("the name is not UTF-8")]
    NotUtf8,
    /// The name has a control character.
    #[error("the name has a control character")]
    Control,
    /// Memory ran out.
    #[error("out of memory")]
    NoMemory,
}

// The bytes as a text, if they are UTF-8.
fn utf8_text(bytes: Vec<u8>) -> Option<String>
    ensures { MatchOption result (is_utf8 bytes.items ≡ false)
        (λ text. (is_utf8 bytes.items ≡ true) × (string_bytes text ≡ bytes.items)) }
{
    match String::from_utf8(bytes) {
        Ok(text) => Some(text),
        Err(_error) => None,
    }
}

// The bytes as the name of a blob.
#[tactic(auto, unfolding(crate::specs::BlobNames::decoded_name))]
fn named(bytes: Vec<u8>) -> Result<Text, NameFault>
    ensures { MatchResult result
        (λ name. decoded_name bytes.items ≡ Ok name)
        (λ fault. decoded_name bytes.items ≡ Err fault) }
{
    if bytes.is_empty() {
        return Err(NameFault::Empty);
    }
    let Some(text) = utf8_text(bytes) else {
        return Err(NameFault::NotUtf8);
    };
    if 1024 < char_count(text.as_bytes()) {
        return Err(NameFault::TooLong);
    }
    match Text::new(text) {
        Some(name) => Ok(name),
        None => Err(NameFault::Control),
    }
}

/// The name of a blob as a text: what a path has after the container, percent-decoded once (RFC 3986, section 2.1).
///
/// The first of the faults `Empty`, `NotUtf8`, `TooLong` and `Control` that the name has. `NoMemory` if memory runs out.
pub fn blob_text(alloc: Global, rest: &[u8]) -> Result<Text, NameFault>
    ensures { MatchResult result (λ name. name_of rest.now ≡ Ok name) (FaultOf rest.now) }
{
    match decoded(alloc, rest) {
        Ok(bytes) => named(bytes),
        Err(AllocError) => Err(NameFault::NoMemory),
    }
}

/// The name of a blob: what a path has after the container, percent-decoded once (RFC 3986, section 2.1).
///
/// The first of the faults `Empty`, `NotUtf8`, `TooLong` and `Control` that the name has, as `blob_text` answers it. `NoMemory` if
/// memory runs out.
pub fn blob_name(alloc: Global, rest: &[u8]) -> Result<String, NameFault>
    ensures { MatchResult result
        (λ name. name_of rest.now ≡ Ok (string_bytes name)) (FaultOf rest.now) }
{
    match blob_text(alloc, rest) {
        Ok(name) => Ok(name.into_string()),
        Err(fault) => Err(fault),
    }
}
