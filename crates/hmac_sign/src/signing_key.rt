//! Keys that are ready to sign.
ghost use Rattle.std.specs.Prelude.{◌≡◌, IfOk, nat_eq, string_bytes};
ghost use Rattle.std.specs.Cmp as Cmp;
ghost use Rattle.std.specs.Cmp.Lexicographic.{pointwise, nat_list_eq_equiv};
ghost use Rattle.hmac_sign.specs.Hmac.{hmac_of};
ghost use Rattle.hmac_sign.specs.Signature.{signature_of};

use crate::code::{code_of, padded_hashers};
use base64_text::{base64_of_32, write_base64};
use sha2::Sha256;
use std::alloc::{AllocError, Global};
use std::fmt;
use std::marker::Model;

/// A key of any length, seen as its bytes.
///
/// The key's two padded blocks are hashed once, when the key is made, and not again for each message. RFC 2104, section 4.
#[derive(Drop)]
pub struct SigningKey {
    bytes: Vec<u8>,
    inner: Sha256,
    outer: Sha256,
}

impl Model for SigningKey {
    ghost use Rattle.std.specs.Prelude.{List, ℕ};
    ghost use Rattle.sha2.specs.Hashers.{Holds256};
    ghost use Rattle.hmac_sign.specs.Hmac.{inner_block, outer_block};

    ghost Value = { List ℕ };

    ghost view = { λ k. k.bytes.items };

    ghost invariant = { λ k. Holds256 k.inner (inner_block k.bytes.items)
        × Holds256 k.outer (outer_block k.bytes.items) };
}

impl SigningKey {
    /// The key of these bytes. The call takes no memory.
    pub fn new(bytes: Vec<u8>) -> Self
        ensures { result ≡ bytes.items }
    {
        let (inner, outer) = padded_hashers(&bytes);
        Self {
            bytes,
            inner,
            outer,
        }
    }

    /// The HMAC of `message` under this key, over SHA-256. The call takes no memory.
    ///
    /// RFC 2104, section 2.
    pub fn hmac(&self, message: &[u8]) -> [u8; 32]
        ensures { result ≡ hmac_of self.now message.now }
    {
        let inner = self.inner.clone().unwrap();
        let outer = self.outer.clone().unwrap();
        code_of(inner, outer, message)
    }

    /// The signature of `message` under this key: its HMAC in Base64. The call takes no memory.
    ///
    /// RFC 2104, section 2; RFC 4648, section 4.
    pub fn signature(&self, message: &[u8]) -> [u8; 44]
        ensures { result ≡ signature_of self.now message.now }
    {
        base64_of_32(&self.hmac(message))
    }

    /// The signature of `message` under this key as a text: its HMAC in Base64, 44 characters.
    ///
    /// `AllocError` if memory runs out for the text. RFC 2104, section 2; RFC 4648, section 4.
    pub fn sign(&self, alloc: Global, message: &[u8]) -> Result<String, AllocError>
        ensures { IfOk result (λ text. string_bytes text ≡ signature_of self.now message.now) }
    {
        write_base64(alloc, &self.hmac(message))
    }
}

impl Clone for SigningKey {
    ghost is_clone = { λ x y. y ≡ x };

    fn clone(&self) -> Result<Self, AllocError> {
        Ok(Self {
            bytes: self.bytes.clone()?,
            inner: self.inner.clone()?,
            outer: self.outer.clone()?,
        })
    }
}

// Two keys that give the same signatures may have different bytes: a key longer than a block signs as its digest does.
impl PartialEq for SigningKey {
    ghost eq = { pointwise nat_eq };

    ghost laws = { Cmp.partial_equiv_from_equiv nat_list_eq_equiv };

    fn eq(&self, other: &Self) -> bool {
        self.bytes.as_slice() == other.bytes.as_slice()
    }
}

impl Eq for SigningKey {
    ghost laws = { nat_list_eq_equiv };
}

// A derived `Debug` would print the bytes of the key.
impl fmt::Debug for SigningKey {
    ghost use Rattle.std.specs.Prelude.{Some, codes};

    ghost debug_output = { λ _. Some (codes "SigningKey(..)") };

    fn fmt<W: fmt::Write>(&self, f: &mut fmt::Formatter<W>) -> fmt::Result {
        f.write_str("SigningKey(..)")
    }
}
