//! Keyed hashes: HMAC over SHA-256, its Base64 text, and keys given in Base64.
#![tactic(auto)]

mod code;
mod laws;
mod secret;
mod signature;
mod signing_key;

pub use code::hmac;
pub use laws::different_bytes_have_different_texts;
pub use secret::{SecretFault, read_key};
pub use signature::sign;
pub use signing_key::SigningKey;
