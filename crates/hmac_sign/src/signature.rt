//! The authentication code of a message, as a text.
ghost use Rattle.std.specs.Prelude.{◌≡◌, IfOk, string_bytes};
ghost use Rattle.hmac_sign.specs.Signature.{signature_of};

use crate::hmac;
use base64_text::write_base64;
use std::alloc::{AllocError, Global};

/// The signature of `message` under `key`: its HMAC in Base64, 44 characters.
///
/// `AllocError` if memory runs out for the text. RFC 2104, section 2; RFC 4648, section 4.
pub fn sign(alloc: Global, key: &[u8], message: &[u8]) -> Result<String, AllocError>
    ensures { IfOk result (λ text. string_bytes text ≡ signature_of key.now message.now) }
{
    write_base64(alloc, &hmac(key, message))
}
