//! Laws of the definitions.
ghost use Rattle.std.specs.Prelude.{◌≡◌, ℕ, List};
ghost use Rattle.hmac_sign.specs.Signature.{IsBytes, base64_of};

/// Different bytes have different texts in padded Base64, so a text gives at most one key. RFC 4648, section 4.
pub fn different_bytes_have_different_texts()
    ensures { (bytes others : List ℕ) → IsBytes bytes → IsBytes others
        → base64_of bytes ≡ base64_of others → bytes ≡ others }
{}
