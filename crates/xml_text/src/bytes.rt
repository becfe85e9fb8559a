//! The bytes of an XML text, by their classes, and how far each class goes from the front of a text.
ghost use Rattle.std.specs.Prelude.{◌≡◌, ◌≤◌, ◌==◌, length, not};
ghost use Rattle.std.specs.List.{list_all, prefix_len};
ghost use Rattle.xml_text.specs.Markup.{less_than};
ghost use Rattle.xml_text.specs.Markup as markup;
ghost use Rattle.xml_text.specs.Tokens as tokens;

/// Whether the byte is white space: space, tab, line feed or carriage return.
pub(crate) fn is_white(byte: u8) -> bool
    ensures { result ≡ markup.is_white byte }
{
    byte == b' ' || byte == b'\t' || byte == b'\n' || byte == b'\r'
}

/// Whether the byte may begin and end the value of an attribute.
pub(crate) fn is_delimiter(byte: u8) -> bool
    ensures { result ≡ markup.is_delimiter byte }
{
    byte == b'"' || byte == b'\''
}

fn is_name_start(byte: u8) -> bool
    ensures { result ≡ markup.is_name_start byte }
{
    byte.is_ascii_alphabetic() || byte == b'_' || byte == b':'
}

fn is_name_byte(byte: u8) -> bool
    ensures { result ≡ markup.is_name_byte byte }
{
    is_name_start(byte) || byte.is_ascii_digit() || byte == b'.' || byte == b'-'
}

/// Whether the bytes are the name of an element or an attribute.
pub(crate) fn is_name(name: &[u8]) -> bool
    ensures { result ≡ tokens.is_name name.now }
{
    match name {
        [] => false,
        [first, rest @ ..] => is_name_start(*first) && are_name_bytes(rest),
    }
}

fn are_name_bytes(bytes: &[u8]) -> bool
    ensures { result ≡ list_all markup.is_name_byte bytes.now }
{
    bytes.iter().all(|&byte| is_name_byte(byte))
}

// Whether the text begins with what may follow `&`.
fn begins_reference(text: &[u8]) -> bool
    ensures { result ≡ tokens.begins_reference text.now }
{
    text.starts_with(b"amp;")
        || text.starts_with(b"lt;")
        || text.starts_with(b"gt;")
        || text.starts_with(b"quot;")
        || text.starts_with(b"apos;")
}

/// Whether each `&` begins one of the five references.
pub(crate) fn has_good_references(text: &[u8]) -> bool
    ensures { result ≡ tokens.has_good_references text.now }
{
    let mut left = text;
    while let [first, rest @ ..] = left {
        if *first == b'&' && !begins_reference(rest) {
            return false;
        }
        left = rest;
    }
    true
}

// Whether the text has no `<`.
fn has_no_bracket(text: &[u8]) -> bool
    ensures { result ≡ list_all (λ c. not (c == less_than)) text.now }
{
    text.iter().all(|&byte| byte != b'<')
}

/// Whether the bytes are a text as it is written: no `<`, and `&` in references only.
pub(crate) fn is_text(text: &[u8]) -> bool
    ensures { result ≡ tokens.is_text text.now }
{
    has_no_bracket(text) && has_good_references(text)
}

/// How many bytes of white space are at the front.
pub(crate) fn white_len(text: &[u8]) -> usize
    ensures len { result ≡ prefix_len markup.is_white text.now }
    ensures within { result ≤ length text.now }
{
    text.iter().take_while(|b| is_white(**b)).count()
}

/// How many bytes of a name are at the front.
pub(crate) fn name_len(text: &[u8]) -> usize
    ensures len { result ≡ prefix_len markup.is_name_byte text.now }
    ensures within { result ≤ length text.now }
{
    text.iter().take_while(|b| is_name_byte(**b)).count()
}

/// How many bytes come before the first byte of this value.
pub(crate) fn len_before(stop: u8, text: &[u8]) -> usize
    ensures len { result ≡ prefix_len (λ c. not (c == stop)) text.now }
    ensures within { result ≤ length text.now }
{
    text.iter().take_while(|b| **b != stop).count()
}
