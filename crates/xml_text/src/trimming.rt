//! Texts without the white space at their ends.
ghost use Rattle.std.specs.Prelude.{◌≡◌, reverse};
ghost use Rattle.xml_text.specs.Elements.{without_white_front};
ghost use Rattle.xml_text.specs.Elements as elements;

use crate::bytes::is_white;

fn without_front(text: &[u8]) -> &[u8]
    ensures { result.now ≡ without_white_front text.now }
{
    let mut left = text;
    while let [first, rest @ ..] = left {
        if !is_white(*first) {
            return left;
        }
        left = rest;
    }
    left
}

fn without_end(text: &[u8]) -> &[u8]
    ensures { result.now ≡ reverse (without_white_front (reverse text.now)) }
{
    let mut left = text;
    while let [rest @ .., last] = left {
        if !is_white(*last) {
            return left;
        }
        left = rest;
    }
    left
}

/// The text without the white space at both ends.
pub fn without_white_ends(text: &[u8]) -> &[u8]
    ensures { result.now ≡ elements.without_white_ends text.now }
{
    without_end(without_front(text))
}
