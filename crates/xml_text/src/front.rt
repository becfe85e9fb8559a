//! What comes before the root, and which characters a body has.
ghost use Rattle.std.specs.Prelude.{◌≡◌, ◌&&◌, option_map};
ghost use Rattle.stamp_values.specs.Texts.{is_utf8};
ghost use Rattle.xml_text.specs.Bodies as bodies;
ghost use Rattle.xml_text.specs.FrontReading as reading;

use crate::bytes::is_white;
use stamp_values::{is_clean, is_utf8};

/// U+FEFF in UTF-8 (RFC 3629, section 6).
const BYTE_ORDER_MARK: &[u8] = b"\xef\xbb\xbf";

/// What a prolog begins with (Extensible Markup Language 1.0, section 2.8).
const PROLOG_START: &[u8] = b"<?xml";

// Whether no character but tab, line feed and carriage return is a control character. No control character has a byte of white
// space inside, so the parts between white space are tested alone.
fn are_controls_white(body: &[u8]) -> bool
    ensures { result ≡ bodies.are_controls_white body.now }
{
    body.split(|byte| is_white(*byte))
        .all(|part| is_clean(part))
}

/// Whether the body is UTF-8 and has no control character but white space.
pub fn is_clean_text(body: &[u8]) -> bool
    ensures { result ≡ (is_utf8 body.now && bodies.are_controls_white body.now) }
{
    is_utf8(body) && are_controls_white(body)
}

/// The text after the byte order mark, if the text begins with it.
pub fn after_mark(text: &[u8]) -> &[u8]
    ensures { result.now ≡ reading.after_mark text.now }
{
    if text.starts_with(BYTE_ORDER_MARK) {
        &text[BYTE_ORDER_MARK.len()..]
    } else {
        text
    }
}

// The text after the first `?>`.
#[tactic(auto, unfolding(crate::specs::FrontReading::after_end))]
fn after_end(text: &[u8]) -> Option<&[u8]>
    ensures { option_map (λ t. t.now) result ≡ reading.after_end text.now }
{
    let mut left = text;
    while let [first, rest @ ..] = left {
        if *first == b'?' && rest.starts_with(b">") {
            return Some(&rest[1..]);
        }
        left = rest;
    }
    None
}

// The text after the prolog, from what follows `<?xml`.
fn prolog_end(text: &[u8]) -> Option<&[u8]>
    ensures { option_map (λ t. t.now) result ≡ reading.prolog_end text.now }
{
    match text {
        [b'?', b'>', rest @ ..] => Some(rest),
        [first, rest @ ..] if is_white(*first) => after_end(rest),
        _ => None,
    }
}

/// The text after the prolog, if the text begins with a prolog. `None` if the prolog does not have its form.
///
/// Extensible Markup Language 1.0, section 2.8.
pub fn after_prolog(text: &[u8]) -> Option<&[u8]>
    ensures { option_map (λ t. t.now) result ≡ reading.after_prolog text.now }
{
    if text.starts_with(PROLOG_START) {
        prolog_end(&text[PROLOG_START.len()..])
    } else {
        Some(text)
    }
}
