//! Writing tags and elements.
ghost use Rattle.std.specs.Prelude.{◌≡◌, ◌++◌, OnOk};
ghost use Rattle.xml_text.specs.WrittenElements as written;

use crate::escape::append_escaped;
use std::alloc::AllocError;

/// Puts the opening tag of this name at the end. The name is written as it is.
///
/// `AllocError` if memory runs out; a part of the tag may then have been written.
///
/// Extensible Markup Language 1.0, section 3.1.
#[tactic(auto, unfolding(crate::specs::WrittenElements::opening_text))]
pub fn append_opening(out: &mut Vec<u8>, name: &str) -> Result<(), AllocError>
    ensures { OnOk result (out.new.items ≡ out.old.items ++ written.opening_text name.now) }
{
    out.extend_from_slice(b"<")?;
    out.extend_from_slice(name.as_bytes())?;
    out.extend_from_slice(b">")?;
    Ok(())
}

/// Puts the closing tag of this name at the end. The name is written as it is.
///
/// `AllocError` if memory runs out; a part of the tag may then have been written.
#[tactic(auto, unfolding(crate::specs::WrittenElements::closing_text))]
pub fn append_closing(out: &mut Vec<u8>, name: &str) -> Result<(), AllocError>
    ensures { OnOk result (out.new.items ≡ out.old.items ++ written.closing_text name.now) }
{
    out.extend_from_slice(b"</")?;
    out.extend_from_slice(name.as_bytes())?;
    out.extend_from_slice(b">")?;
    Ok(())
}

/// Puts an element of this name with this text at the end. `&`, `<` and `>` of the text are written as references.
///
/// `AllocError` if memory runs out; a part of the element may then have been written.
#[tactic(auto, unfolding(crate::specs::WrittenElements::element_text))]
pub fn append_element(out: &mut Vec<u8>, name: &str, text: &[u8]) -> Result<(), AllocError>
    ensures { OnOk result (out.new.items ≡ out.old.items ++ written.element_text name.now text.now) }
{
    append_opening(out, name)?;
    append_escaped(out, text)?;
    append_closing(out, name)?;
    Ok(())
}

/// Puts an element of this name with these bytes at the end. The bytes are written as they are, so they are elements, or a text that needs
/// no references.
///
/// `AllocError` if memory runs out; a part of the element may then have been written.
#[tactic(auto, unfolding(crate::specs::WrittenElements::filled_text))]
pub fn append_filled(out: &mut Vec<u8>, name: &str, inner: &[u8]) -> Result<(), AllocError>
    ensures { OnOk result (out.new.items ≡ out.old.items ++ written.filled_text name.now inner.now) }
{
    append_opening(out, name)?;
    out.extend_from_slice(inner)?;
    append_closing(out, name)?;
    Ok(())
}

/// Puts the prolog of a body in UTF-8 at the end.
///
/// `AllocError` if memory runs out. Extensible Markup Language 1.0, section 2.8.
#[tactic(auto, unfolding(crate::specs::WrittenElements::prolog_text))]
pub fn append_prolog(out: &mut Vec<u8>) -> Result<(), AllocError>
    ensures { OnOk result (out.new.items ≡ out.old.items ++ written.prolog_text) }
{
    out.extend_from_slice(b"<?xml version=\"1.0\" encoding=\"utf-8\"?>")
}
