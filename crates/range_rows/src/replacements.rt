//! The texts that come in the place of headers of a blob.
ghost use Rattle.std.specs.Prelude.{◌≡◌, IfOk, IsTrue};
ghost use Rattle.stamp_values.specs.Texts.{is_visible};
ghost use Rattle.range_rows.specs.Replaced.{can_be_shown, nothing_replaced, or_own};

use stamp_types::{Text, Visible};
use std::alloc::{AllocError, Global};
use std::marker::Model;

/// The texts that come in the place of headers of a blob, in the reply to Get Blob and to Get Blob Properties. An empty text
/// replaces nothing. Each text is of printable ASCII.
#[derive(Drop)]
pub struct Replacements<'a> {
    cache_control: &'a [u8],
    disposition: &'a [u8],
    encoding: &'a [u8],
    language: &'a [u8],
    content_type: &'a [u8],
}

impl<'a> Model for Replacements<'a> {
    ghost use Rattle.std.specs.Prelude.{IsTrue};
    ghost use Rattle.range_rows.specs.Replaced.{Replaced, can_be_shown};

    ghost Value = { Replaced };

    ghost view = { λ r. record {
      cache_control = r.cache_control.now;
      disposition = r.disposition.now;
      encoding = r.encoding.now;
      language = r.language.now;
      content_type = r.content_type.now;
    } };

    ghost invariant = { λ r. IsTrue (can_be_shown (record {
      cache_control = r.cache_control.now;
      disposition = r.disposition.now;
      encoding = r.encoding.now;
      language = r.language.now;
      content_type = r.content_type.now;
    })) };
}

impl<'a> Replacements<'a> {
    /// No header is replaced.
    pub fn none() -> Self
        ensures { result ≡ nothing_replaced }
    {
        Self {
            cache_control: &[],
            disposition: &[],
            encoding: &[],
            language: &[],
            content_type: &[],
        }
    }

    /// The headers that these texts replace. A caller can test each of them with `is_visible`.
    pub fn new(
        cache_control: &'a [u8],
        disposition: &'a [u8],
        encoding: &'a [u8],
        language: &'a [u8],
        content_type: &'a [u8],
    ) -> Self
        requires { IsTrue (can_be_shown (record {
          cache_control = cache_control.now;
          disposition = disposition.now;
          encoding = encoding.now;
          language = language.now;
          content_type = content_type.now;
        })) }
        ensures { result ≡ record {
          cache_control = cache_control.now;
          disposition = disposition.now;
          encoding = encoding.now;
          language = language.now;
          content_type = content_type.now;
        } }
    {
        Self {
            cache_control,
            disposition,
            encoding,
            language,
            content_type,
        }
    }

    pub(crate) fn cache_control(&self) -> &'a [u8]
        ensures value { result.now ≡ self.now.cache_control }
        ensures visible { IsTrue (is_visible result.now) }
    {
        self.cache_control
    }

    pub(crate) fn disposition(&self) -> &'a [u8]
        ensures value { result.now ≡ self.now.disposition }
        ensures visible { IsTrue (is_visible result.now) }
    {
        self.disposition
    }

    pub(crate) fn encoding(&self) -> &'a [u8]
        ensures value { result.now ≡ self.now.encoding }
        ensures visible { IsTrue (is_visible result.now) }
    {
        self.encoding
    }

    pub(crate) fn language(&self) -> &'a [u8]
        ensures value { result.now ≡ self.now.language }
        ensures visible { IsTrue (is_visible result.now) }
    {
        self.language
    }

    pub(crate) fn content_type(&self) -> &'a [u8]
        ensures value { result.now ≡ self.now.content_type }
        ensures visible { IsTrue (is_visible result.now) }
    {
        self.content_type
    }
}

/// Bytes of printable ASCII as a text.
#[tactic(auto, using(crate::proofs::VisibleLemmas::visible_utf8, crate::proofs::VisibleLemmas::visible_clean))]
pub(crate) fn visible(alloc: Global, bytes: &[u8]) -> Result<Visible, AllocError>
    requires { IsTrue (is_visible bytes.now) }
    ensures { IfOk result (λ text. text ≡ bytes.now) }
{
    let Ok(text) = str::from_utf8(bytes) else {
        unreachable!("printable ASCII is UTF-8")
    };
    let Some(clean) = Text::new(String::from_str(alloc, text)?) else {
        unreachable!("printable ASCII is a text")
    };
    match Visible::new(clean) {
        Some(visible) => Ok(visible),
        None => unreachable!("printable ASCII is visible"),
    }
}

/// The text that a header shows: the replacement, or the blob's own text if the replacement is empty.
pub(crate) fn shown(alloc: Global, replacement: &[u8], own: &Visible) -> Result<Visible, AllocError>
    requires { IsTrue (is_visible replacement.now) }
    ensures { IfOk result (λ text. text ≡ or_own replacement.now own.now) }
{
    if replacement.is_empty() {
        own.clone()
    } else {
        visible(alloc, replacement)
    }
}
