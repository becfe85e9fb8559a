//! Escapes of a request target (RFC 3986, section 2.1).
ghost use Rattle.std.specs.Prelude.{◌≡◌, IfOk};
ghost use Rattle.name_rules.specs.BlobNames.{percent_decode};

use percent_encoding::percent_decode;
use std::alloc::{AllocError, Global};

/// The bytes with each escape decoded (RFC 3986, section 2.1). A `%` without two hexadecimal digits stays, and so does a `+`.
///
/// `AllocError` if memory runs out.
pub fn decoded(alloc: Global, text: &[u8]) -> Result<Vec<u8>, AllocError>
    ensures { IfOk result (λ v. v.items ≡ percent_decode text.now) }
{
    let mut bytes = Vec::new(alloc);
    percent_decode(text).append_to(&mut bytes)?;
    Ok(bytes)
}
