//! The headers that are kept with a blob.
ghost use Rattle.std.specs.Prelude.{◌≡◌, ◌↔◌, IsErr, IsSome, IfSome, IfOk, IsTrue};
ghost use Rattle.stamp_types.specs.PropsFields.{is_kept_text, is_kept, is_props, type_or_default, md5_or, kept_fields};

use crate::args::Kept;
use stamp_values::{KEPT_LIMIT, Shared, Visible};
use std::alloc::{AllocError, Global};
use std::marker::Model;

// The headers, as they are shared.
#[derive(PartialEq, Eq, Drop)]
struct Parts {
    content_type: Visible,
    encoding: Visible,
    language: Visible,
    cache_control: Visible,
    md5: Option<[u8; 16]>,
}

impl Model for Parts {
    ghost use Rattle.stamp_types.specs.PropsFields.{PropsFields};

    ghost Value = { PropsFields };

    ghost view = { λ p. record {
      content_type = p.content_type;
      encoding = p.encoding;
      language = p.language;
      cache_control = p.cache_control;
      md5 = p.md5;
    } };

    ghost inverse = { λ v. record {
      content_type = v.content_type;
      encoding = v.encoding;
      language = v.language;
      cache_control = v.cache_control;
      md5 = v.md5;
    } };
}

/// The headers that are kept with a blob. The content type is never empty, and each text has at
/// most 16,384 bytes.
///
/// A copy is one more owner of the same headers: it takes no memory.
#[derive(Clone, PartialEq, Eq, Drop)]
pub struct Props {
    parts: Shared<Parts>,
}

impl Model for Props {
    ghost use Rattle.std.specs.Prelude.{IsTrue};
    ghost use Rattle.stamp_types.specs.PropsFields.{PropsFields, is_props};

    ghost Value = { PropsFields };

    ghost view = { λ p. p.parts };

    ghost invariant = { λ p. IsTrue (is_props p.parts) };

    ghost inverse = { λ v. record { parts = v } };
}

fn is_kept_text(text: &Visible) -> bool
    ensures { result ≡ is_kept_text text.now }
{
    text.as_str().len() <= KEPT_LIMIT
}

fn type_or_default(alloc: Global, content_type: Visible) -> Result<Visible, AllocError>
    ensures { IfOk result (λ t. t ≡ type_or_default content_type) }
{
    if content_type.as_str().is_empty() {
        Visible::octet_stream(alloc)
    } else {
        Ok(content_type)
    }
}

// Whether the headers are within their limits.
fn is_props(parts: &Parts) -> bool
    ensures { result ≡ is_props parts.now }
{
    !parts.content_type.as_str().is_empty()
        && is_kept_text(&parts.content_type)
        && is_kept_text(&parts.encoding)
        && is_kept_text(&parts.language)
        && is_kept_text(&parts.cache_control)
}

impl Props {
    /// What a request asks to be kept. An empty content type becomes `application/octet-stream`. If
    /// the request asks for no MD5, `otherwise` is kept: on Put Blob the MD5 of the body, on Put
    /// Block List no MD5.
    ///
    /// `AllocError` if memory runs out for the default type, or for the allocation that shares the
    /// headers.
    pub fn new(alloc: Global, kept: Kept, otherwise: Option<[u8; 16]>) -> Result<Self, AllocError>
        requires { IsTrue (is_kept kept) }
        ensures { IfOk result (λ p. p ≡ kept_fields kept otherwise) }
    {
        let parts = Parts {
            content_type: type_or_default(alloc, kept.content_type)?,
            encoding: kept.encoding,
            language: kept.language,
            cache_control: kept.cache_control,
            md5: kept.md5.or(otherwise),
        };
        Ok(Self {
            parts: Shared::new(alloc, parts)?,
        })
    }

    /// The headers as a record of the log has them, or `None` if the content type is empty, or if a
    /// text has more than 16,384 bytes.
    ///
    /// `AllocError` if memory runs out for the allocation that shares them.
    pub fn from_parts(
        alloc: Global,
        content_type: Visible,
        encoding: Visible,
        language: Visible,
        cache_control: Visible,
        md5: Option<[u8; 16]>,
    ) -> Result<Option<Self>, AllocError>
        ensures valid { IfOk result (λ o. IsSome o ↔ IsTrue (is_props (record {
          content_type = content_type;
          encoding = encoding;
          language = language;
          cache_control = cache_control;
          md5 = md5;
        }))) }
        ensures value { IfOk result (λ o. IfSome o (λ p. p ≡ record {
          content_type = content_type;
          encoding = encoding;
          language = language;
          cache_control = cache_control;
          md5 = md5;
        })) }
        ensures refused { IsErr result → IsTrue (is_props (record {
          content_type = content_type;
          encoding = encoding;
          language = language;
          cache_control = cache_control;
          md5 = md5;
        })) }
    {
        let parts = Parts {
            content_type,
            encoding,
            language,
            cache_control,
            md5,
        };
        if !is_props(&parts) {
            drop(parts);
            return Ok(None);
        }
        let parts = Shared::new(alloc, parts)?;
        Ok(Some(Self { parts }))
    }

    /// Never empty (Content-Type).
    pub fn content_type(&self) -> &Visible
        ensures value { result.now ≡ self.now.content_type }
        ensures valid { IsTrue (is_props self.now) }
    {
        &self.parts.get().content_type
    }

    /// Content-Encoding.
    pub fn encoding(&self) -> &Visible
        ensures { result.now ≡ self.now.encoding }
    {
        &self.parts.get().encoding
    }

    /// Content-Language.
    pub fn language(&self) -> &Visible
        ensures { result.now ≡ self.now.language }
    {
        &self.parts.get().language
    }

    /// Cache-Control.
    pub fn cache_control(&self) -> &Visible
        ensures { result.now ≡ self.now.cache_control }
    {
        &self.parts.get().cache_control
    }

    /// The 16 bytes of Content-MD5.
    pub fn md5(&self) -> Option<[u8; 16]>
        ensures { result ≡ self.now.md5 }
    {
        self.parts.get().md5
    }
}
