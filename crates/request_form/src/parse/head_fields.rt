//! What the header lines of a head say.
ghost use Rattle.std.specs.Prelude.{◌≡◌, IfOk, MatchOption, Some, bytes_eq, false, option_map, true};
ghost use Rattle.std.specs.Str.Parse.{digits_value};
ghost use Rattle.base64_text.specs.Base64.{standard, decoded_of};
ghost use Rattle.request_form.specs.HeadFields as heads;

use base64_text::decoded_base64;
use stamp_types::FieldList;
use stamp_types::header_names::{META_PREFIX, OWN_PREFIX};
use std::alloc::{AllocError, Global};

/// Whether a value other than this one was sent under the name.
#[tactic(auto, unfolding(crate::specs::HeadFields::has_bad))]
pub(crate) fn has_other(fields: &FieldList, name: &str, value: &str) -> bool
    ensures { result ≡ heads.has_bad fields.now name.now (λ v. bytes_eq v value.now) }
{
    for field in fields.fields() {
        if field.name == name.as_bytes() && field.value != value.as_bytes() {
            return true;
        }
    }
    false
}

/// Whether all bytes are digits. A text without bytes passes.
pub(crate) fn are_digits(text: &[u8]) -> bool
    ensures { result ≡ heads.are_digits text.now }
{
    text.iter().all(|byte| byte.is_ascii_digit())
}

// Whether the text is 1 to 19 digits.
#[tactic(auto, unfolding(crate::specs::HeadFields::is_number))]
fn is_number(text: &[u8]) -> bool
    ensures { result ≡ heads.is_number text.now }
{
    (1..=19).contains(&text.len()) && are_digits(text)
}

// The number that the digits write, below 10^19.
fn digits_number(digits: &[u8]) -> u64
    requires { heads.is_number digits.now ≡ true }
    ensures { result ≡ digits_value 10 digits.now }
{
    let mut number = 0;
    for digit in digits {
        number = number * 10 + u64::from(*digit - b'0');
    }
    number
}

/// The number that a text of 1 to 19 digits writes; `None` for any other text.
pub(crate) fn number(text: &[u8]) -> Option<u64>
    ensures { MatchOption result (heads.is_number text.now ≡ false)
        (λ n. (heads.is_number text.now ≡ true) × (n ≡ digits_value 10 text.now)) }
{
    if is_number(text) {
        Some(digits_number(text))
    } else {
        None
    }
}

/// The MD5 that a text is the strict Base64 of (RFC 1864), or `None` if the text is not the Base64 of an MD5.
///
/// `AllocError` if memory runs out.
#[tactic(auto, unfolding(base64_text::specs::Base64::is_base64_within))]
pub(crate) fn md5_of(alloc: Global, text: &[u8]) -> Result<Option<[u8; 16]>, AllocError>
    ensures { IfOk result (λ o. MatchOption o (heads.is_md5 text.now ≡ false)
        (λ md5. (heads.is_md5 text.now ≡ true) × (decoded_of standard text.now ≡ Some md5))) }
{
    let Some(bytes) = decoded_base64(alloc, text)? else {
        return Ok(None);
    };
    match bytes.as_slice().as_array::<16>() {
        Some(md5) => Ok(Some(*md5)),
        None => Ok(None),
    }
}

/// Whether the name is that of one of the service's own headers.
pub(crate) fn is_own_name(name: &[u8]) -> bool
    ensures { result ≡ heads.is_own_name name.now }
{
    name.starts_with(OWN_PREFIX)
}

/// Whether the name is that of a header of metadata.
pub(crate) fn is_meta(name: &[u8]) -> bool
    ensures { result ≡ heads.is_meta name.now }
{
    name.starts_with(META_PREFIX)
}
