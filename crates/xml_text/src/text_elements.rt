//! Elements of a text alone.
ghost use Rattle.std.specs.Prelude.{◌≡◌, ◌≤◌, length, IfSome};
ghost use Rattle.xml_text.specs.Reading as tags;
ghost use Rattle.xml_text.specs.ElementReading as reading;

use crate::tokens::{Kind, Tag, Tokens};

/// Whether the tag has this kind and this name.
pub fn is_tag(kind: Kind, name: &[u8], tag: Tag<'_>) -> bool
    ensures { result ≡ reading.is_tag kind name.now (tags.tag_of tag.entry) }
{
    tag.kind == kind && tag.name == name
}

// Takes the closing tag of this name.
#[tactic(auto, unfolding(crate::specs::ElementReading::closed_at))]
fn close(text: &mut Tokens<'_>, name: &[u8]) -> Option<()>
    ensures value { tags.Gives tags.taken result text.new.left.now
        (reading.closed_at name.now text.old.left.now) }
    ensures within { IfSome result (λ _. length text.new.left.now ≤ length text.old.left.now) }
{
    let tag = text.tag()?;
    if is_tag(Kind::Closing, name, tag) {
        Some(())
    } else {
        None
    }
}

/// Takes the rest of an element of a text alone after its first tag, and gives the text as it is written.
///
/// `None` if the tag is a closing tag, or if the text is not followed by the closing tag of this name.
pub fn content<'a>(text: &mut Tokens<'a>, tag: Tag<'a>) -> Option<&'a [u8]>
    ensures value { tags.Gives (λ w. reading.value_of w.now) result text.new.left.now
        (reading.content_at tag.entry.kind tag.entry.name.now text.old.left.now) }
    ensures written { tags.Gives (λ w. w.now) result text.new.left.now
        (reading.written_at tag.entry.kind tag.entry.name.now text.old.left.now) }
    ensures within { IfSome result (λ _. length text.new.left.now ≤ length text.old.left.now) }
{
    match tag.kind {
        Kind::Opening => {
            let written = text.text()?;
            close(text, tag.name)?;
            Some(written)
        }
        Kind::Empty => Some(&[]),
        Kind::Closing => None,
    }
}
