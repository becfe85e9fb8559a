//! Keys as texts in Base64.
ghost use Rattle.std.specs.Prelude.{◌≡◌, ◌≢◌, ℕ, List, Err, IfOk};
ghost use Rattle.hmac_sign.specs.Signature.{IsBytes, base64_of};
ghost use Rattle.hmac_sign.specs.declared.secret.SecretFault.TheVariants as fault;

use base64_text::decoded_base64;
use std::alloc::{AllocError, Global};
use thiserror::Error;

/// Why a text did not give a key.
#[derive(Clone, Copy, Debug, PartialEq, Eq, Error)]
pub enum SecretFault {
    /// The text is not the Base64 of any bytes.
    #[error("the key is not Base64")]
    NotBase64,
    /// Memory ran out.
    #[error("out of memory")]
    NoMemory,
}

impl From<AllocError> for SecretFault {
    ghost from_gives = { λ _ e. e ≡ fault.NoMemory };

    fn from(_error: AllocError) -> Self {
        Self::NoMemory
    }
}

/// The key whose Base64 is the text. The text has to be padded, without any other byte, and no bit may be left over. An empty
/// text gives the empty key.
///
/// `NotBase64` for each other text. `NoMemory` if memory runs out.
///
/// RFC 4648, section 4, and sections 3.1 to 3.5 for the texts that are refused.
pub fn read_key(alloc: Global, text: &[u8]) -> Result<Vec<u8>, SecretFault>
    ensures read { IfOk result (λ key. text.now ≡ base64_of key.items) }
    ensures bytes { IfOk result (λ key. IsBytes key.items) }
    ensures refused { (result ≡ Err SecretFault.NotBase64)
        → (key : List ℕ) → IsBytes key → text.now ≢ base64_of key }
{
    match decoded_base64(alloc, text)? {
        Some(key) => Ok(key),
        None => Err(SecretFault::NotBase64),
    }
}
