//! The values of texts that are written with references.
ghost use Rattle.std.specs.Prelude.{◌≡◌, ◌++◌, ◌∷◌, IfOk};
ghost use Rattle.xml_text.specs.ElementReading as reading;

use crate::trimming::without_white_ends;
use std::alloc::{AllocError, Global};

// The byte that a reference writes, from what follows its `&`.
fn reference_value(rest: &[u8]) -> u8
    ensures { result ≡ reading.reference_value rest.now }
{
    if rest.starts_with(b"amp;") {
        b'&'
    } else if rest.starts_with(b"lt;") {
        b'<'
    } else if rest.starts_with(b"gt;") {
        b'>'
    } else if rest.starts_with(b"quot;") {
        b'"'
    } else {
        b'\''
    }
}

// How many bytes a reference has after its `&`.
fn reference_len(rest: &[u8]) -> usize
    ensures { result ≡ reading.reference_len rest.now }
{
    if rest.starts_with(b"amp;") {
        4
    } else if rest.starts_with(b"lt;") || rest.starts_with(b"gt;") {
        3
    } else {
        5
    }
}

// Puts what the first byte writes at the end, unless this byte is in a reference that was read before. The answer is how many bytes
// of a reference come next.
#[tactic(auto, unfolding(crate::specs::ElementReading::unescaped), using(crate::proofs::UnescapeLemmas::in_reference_next))]
fn append_first(
    out: &mut Vec<u8>,
    in_reference: usize,
    first: u8,
    rest: &[u8],
) -> Result<usize, AllocError>
    ensures { IfOk result (λ n. out.new.items ++ reading.unescaped n rest.now
        ≡ out.old.items ++ reading.unescaped in_reference (first ∷ rest.now)) }
{
    if in_reference != 0 {
        return Ok(in_reference - 1);
    }
    if first == b'&' {
        out.push(reference_value(rest))?;
        return Ok(reference_len(rest));
    }
    out.push(first)?;
    Ok(0)
}

// The value of a text that is written so.
#[tactic(auto, unfolding(crate::specs::ElementReading::unescaped))]
fn unescaped(alloc: Global, written: &[u8]) -> Result<Vec<u8>, AllocError>
    ensures { IfOk result (λ text. text.items ≡ reading.unescaped 0 written.now) }
{
    let mut out = Vec::with_capacity(alloc, written.len())?;
    let mut in_reference = 0;
    let mut left = written;
    while let [first, rest @ ..] = left {
        in_reference = append_first(&mut out, in_reference, *first, rest)?;
        left = rest;
    }
    Ok(out)
}

/// The value of a text that is written so, without the white space at its ends.
///
/// `AllocError` if memory runs out.
#[tactic(auto, unfolding(crate::specs::ElementReading::value_of))]
pub fn value_of(alloc: Global, written: &[u8]) -> Result<Vec<u8>, AllocError>
    ensures { IfOk result (λ text. text.items ≡ reading.value_of written.now) }
{
    let text = unescaped(alloc, written)?;
    without_white_ends(&text).to_vec(alloc)
}
