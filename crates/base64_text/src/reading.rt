//! The text of bytes in Base64, and the bytes of a text.
ghost use Rattle.std.specs.Prelude.{◌≡◌, ◌≢◌, ◌++◌, ℕ, List, IfOk, IfSome, None, OnOk, option_map, string_bytes};
ghost use Rattle.base64_text.specs.Base64.{standard, base64_of, decoded_of, IsBytes};
ghost use Rattle.base64_text.specs.Base64 as base64;

use base64::DecodeAllocError;
use base64::engine::general_purpose::STANDARD;
use std::alloc::{AllocError, Global};

/// The bytes whose Base64 is the text (RFC 4648, section 4), or `None` if the text is not the Base64 of any bytes. The text has
/// to be padded, without any other byte, and no bit may be left over. An empty text gives no bytes.
///
/// `AllocError` if memory runs out.
pub fn decoded_base64(alloc: Global, text: &[u8]) -> Result<Option<Vec<u8>>, AllocError>
    ensures value { IfOk result (λ o. option_map (λ v. v.items) o ≡ decoded_of standard text.now) }
    ensures read { IfOk result (λ o. IfSome o (λ v. text.now ≡ base64_of v.items)) }
    ensures bytes { IfOk result (λ o. IfSome o (λ v. IsBytes v.items)) }
    ensures refused { IfOk result (λ o. o ≡ None
        → (bytes : List ℕ) → IsBytes bytes → text.now ≢ base64_of bytes) }
{
    match STANDARD.decode(alloc, text) {
        Ok(bytes) => Ok(Some(bytes)),
        Err(DecodeAllocError::DecodeError(_)) => Ok(None),
        Err(DecodeAllocError::OutOfMemory) => Err(AllocError),
    }
}

/// The Base64 of the bytes, padded (RFC 4648, section 4).
///
/// `AllocError` if memory runs out.
pub fn write_base64(alloc: Global, bytes: &[u8]) -> Result<String, AllocError>
    ensures { IfOk result (λ text. string_bytes text ≡ base64_of bytes.now) }
{
    STANDARD.encode(alloc, bytes)
}

/// Appends the Base64 of the bytes, padded (RFC 4648, section 4).
///
/// `AllocError` if memory runs out.
pub fn append_base64(out: &mut String, bytes: &[u8]) -> Result<(), AllocError>
    ensures { OnOk result
        (string_bytes out.new ≡ string_bytes out.old ++ base64_of bytes.now) }
{
    STANDARD.encode_string(bytes, out)
}

/// The Base64 of 16 bytes, as many as an MD5 has: 24 characters with the padding (RFC 4648, section 4). The call takes no memory.
pub fn base64_of_16(bytes: &[u8; 16]) -> [u8; 24]
    ensures { result ≡ base64_of bytes.now }
{
    let mut text = [0; 24];
    let _written = STANDARD.encode_slice(bytes, &mut text);
    text
}

/// The Base64 of 32 bytes, as many as a SHA-256 has: 44 characters with the padding (RFC 4648, section 4). The call takes no memory.
pub fn base64_of_32(bytes: &[u8; 32]) -> [u8; 44]
    ensures { result ≡ base64_of bytes.now }
{
    let mut text = [0; 44];
    let _written = STANDARD.encode_slice(bytes, &mut text);
    text
}

/// Whether the text is the strict Base64 of so many bytes. Both ends are in the range.
///
/// `AllocError` if memory runs out.
#[tactic(auto, unfolding(crate::specs::Base64::is_base64_within))]
pub fn is_base64_within(
    alloc: Global,
    least: usize,
    most: usize,
    text: &[u8],
) -> Result<bool, AllocError>
    ensures { IfOk result (λ b. b ≡ base64.is_base64_within least most text.now) }
{
    match decoded_base64(alloc, text)? {
        Some(bytes) => Ok((least..=most).contains(&bytes.len())),
        None => Ok(false),
    }
}
