//! Bytes as texts.
ghost use Rattle.std.specs.Prelude.{◌≡◌, ◌&&◌, IfOk, MatchOption, false, true};
ghost use Rattle.stamp_values.specs.Texts.{is_clean, is_utf8, is_visible};

use stamp_types::{Text, Visible};
use std::alloc::{AllocError, Global};

// The bytes as a text, if they are UTF-8.
fn utf8_text(bytes: &[u8]) -> Option<&str>
    ensures { MatchOption result (is_utf8 bytes.now ≡ false)
        (λ text. (is_utf8 bytes.now ≡ true) × (text.now ≡ bytes.now)) }
{
    match str::from_utf8(bytes) {
        Ok(text) => Some(text),
        Err(_error) => None,
    }
}

/// The bytes as a text, or `None` if they are not UTF-8 or a control character is among them.
///
/// `AllocError` if memory runs out.
pub(crate) fn clean(alloc: Global, bytes: &[u8]) -> Result<Option<Text>, AllocError>
    ensures { IfOk result (λ o. MatchOption o ((is_utf8 bytes.now && is_clean bytes.now) ≡ false)
        (λ t. ((is_utf8 bytes.now && is_clean bytes.now) ≡ true) × (t ≡ bytes.now))) }
{
    let Some(text) = utf8_text(bytes) else {
        return Ok(None);
    };
    Ok(Text::new(String::from_str(alloc, text)?))
}

/// The bytes as a text of printable ASCII, or `None` if another byte is among them.
///
/// `AllocError` if memory runs out.
pub(crate) fn visible(alloc: Global, bytes: &[u8]) -> Result<Option<Visible>, AllocError>
    ensures { IfOk result (λ o. MatchOption o (is_visible bytes.now ≡ false)
        (λ v. (is_visible bytes.now ≡ true) × (v ≡ bytes.now))) }
{
    // Most headers that a blob can keep are not sent.
    if bytes.is_empty() {
        return Ok(Some(Visible::empty(alloc)));
    }
    let Ok(text) = str::from_utf8(bytes) else {
        return Ok(None);
    };
    match Text::new(String::from_str(alloc, text)?) {
        Some(text) => Ok(Visible::new(text)),
        None => Ok(None),
    }
}
