//! The texts of lines, and the bytes that they mean.
ghost use Rattle.std.specs.Prelude.{◌≡◌, ◌<◌, ◌++◌, ◌∷◌, Err, IfSome, IfNone, None, OnOk, IsSomeAnd, length};
ghost use Rattle.std.specs.List.{repeat};
ghost use Rattle.std.specs.Option.{option_map};
ghost use Rattle.replay_cases.specs.Texts as texts;
ghost use Rattle.replay_cases.specs.Texts.{bytes_from, text_bytes};
ghost use Rattle.replay_cases.specs.Texts.TextState.{Escape, Hex};
ghost use Rattle.replay_cases.specs.declared.line_fault.LineFault.{LineFault};

use crate::line_fault::LineFault;

// The value of a hexadecimal digit. The digits above 9 are lower-case letters.
fn digit_value(digit: u8) -> Option<u8>
    ensures value { result ≡ texts.digit_value digit }
    ensures small { IfSome result (λ value. value < 16) }
{
    match digit {
        b'0'..=b'9' => Some(digit - b'0'),
        b'a'..=b'f' => Some(digit - b'a' + 10),
        _ => None,
    }
}

// The byte that two hexadecimal digits mean, and the bytes after them.
fn hex_byte(text: &[u8]) -> Option<(u8, &[u8])>
    ensures read { IfSome result (λ p. bytes_from Hex text.now
        ≡ option_map (λ bs. p.0 ∷ bs) (text_bytes p.1.now)) }
    ensures shorter { IfSome result (λ p. length p.1.now < length text.now) }
    ensures refused { IfNone result (bytes_from Hex text.now ≡ None) }
{
    let (high, rest) = text.split_first()?;
    let high = digit_value(*high)?;
    let (low, rest) = rest.split_first()?;
    let low = digit_value(*low)?;
    Some((high * 16 + low, rest))
}

// The byte that is written with this letter after a backslash.
fn escaped_byte(letter: u8) -> Option<u8>
    ensures { result ≡ texts.escaped_byte letter }
{
    match letter {
        b'r' => Some(b'\r'),
        b'n' => Some(b'\n'),
        b't' => Some(b'\t'),
        b'\\' => Some(b'\\'),
        b's' => Some(b' '),
        _ => None,
    }
}

// The byte that an escape means, and the bytes after the escape. The backslash is not in `text`.
fn escape(text: &[u8]) -> Option<(u8, &[u8])>
    ensures read { IfSome result (λ p. bytes_from Escape text.now
        ≡ option_map (λ bs. p.0 ∷ bs) (text_bytes p.1.now)) }
    ensures shorter { IfSome result (λ p. length p.1.now < length text.now) }
    ensures refused { IfNone result (bytes_from Escape text.now ≡ None) }
{
    let (letter, rest) = text.split_first()?;
    if *letter == b'x' {
        return hex_byte(rest);
    }
    Some((escaped_byte(*letter)?, rest))
}

// The first byte that a text means, and the rest of the text.
fn next_byte(text: &[u8]) -> Option<(u8, &[u8])>
    requires { 0 < length text.now }
    ensures read { IfSome result (λ p. text_bytes text.now
        ≡ option_map (λ bs. p.0 ∷ bs) (text_bytes p.1.now)) }
    ensures shorter { IfSome result (λ p. length p.1.now < length text.now) }
    ensures refused { IfNone result (text_bytes text.now ≡ None) }
{
    let (first, rest) = text.split_first()?;
    if *first == b'\\' {
        return escape(rest);
    }
    Some((*first, rest))
}

/// Adds the bytes that the text means.
///
/// After `Escape` or `NoMemory`, bytes that come before may have been added.
#[tactic(auto, using(crate::proofs::TextLemmas::after_step, crate::proofs::TextLemmas::after_all, crate::proofs::TextLemmas::after_none))]
pub(crate) fn add_text(bytes: &mut Vec<u8>, text: &str) -> Result<(), LineFault>
    ensures added { OnOk result (IsSomeAnd (text_bytes text.now)
        (λ more. bytes.new.items ≡ bytes.old.items ++ more)) }
    ensures refused { result ≡ Err LineFault.Escape → text_bytes text.now ≡ None }
{
    let mut left = text.as_bytes();
    while !left.is_empty() {
        let Some((byte, after)) = next_byte(left) else {
            return Err(LineFault::Escape);
        };
        bytes.push(byte)?;
        left = after;
    }
    Ok(())
}

/// Adds the bytes `count` times.
///
/// `Number` if that is more bytes than can be counted.
#[tactic(auto, using(crate::proofs::TextLemmas::repeat_next))]
pub(crate) fn add_times(bytes: &mut Vec<u8>, count: usize, once: &[u8]) -> Result<(), LineFault>
    ensures added { OnOk result (bytes.new.items ≡ bytes.old.items ++ repeat count once.now) }
{
    let more = once.len().checked_mul(count).ok_or(LineFault::Number)?;
    bytes.reserve(more)?;
    for _ in 0..count {
        bytes.extend_from_slice(once)?;
    }
    Ok(())
}
