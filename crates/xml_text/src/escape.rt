//! Writing texts with references.
ghost use Rattle.std.specs.Prelude.{◌≡◌, ◌≤◌, ◌++◌, length, IfOk, OnOk};
ghost use Rattle.std.specs.List.{prefix_len};
ghost use Rattle.xml_text.specs.Escapes.{escaped, escaped_byte};
ghost use Rattle.xml_text.specs.Escapes as escapes;
ghost use Rattle.xml_text.specs.Texts.{piece_bytes};

use std::alloc::AllocError;

fn is_written_as_itself(byte: u8) -> bool
    ensures { result ≡ escapes.is_written_as_itself byte }
{
    byte != b'&' && byte != b'<' && byte != b'>'
}

// How many bytes come before the first byte that is written as a reference.
fn run_len(text: &[u8]) -> usize
    ensures len { result ≡ prefix_len escapes.is_written_as_itself text.now }
    ensures within { result ≤ length text.now }
{
    text.iter()
        .take_while(|b| is_written_as_itself(**b))
        .count()
}

// Puts the bytes before the first byte that is written as a reference at the end, and gives the text from that byte on.
#[tactic(auto, using(crate::proofs::EscapeLemmas::run_joined))]
fn append_run<'a>(out: &mut Vec<u8>, text: &'a [u8]) -> Result<&'a [u8], AllocError>
    ensures written { IfOk result (λ left. out.new.items ++ escaped left.now
        ≡ out.old.items ++ escaped text.now) }
    ensures within { IfOk result (λ left. length left.now ≤ length text.now) }
{
    let (run, left) = text.split_at(run_len(text));
    out.extend_from_slice(run)?;
    Ok(left)
}

// Puts the byte at the end, or the reference that means it.
fn append_byte(out: &mut Vec<u8>, byte: u8) -> Result<(), AllocError>
    ensures { OnOk result (out.new.items ≡ out.old.items ++ piece_bytes (escaped_byte byte)) }
{
    match byte {
        b'&' => out.extend_from_slice(b"&amp;"),
        b'<' => out.extend_from_slice(b"&lt;"),
        b'>' => out.extend_from_slice(b"&gt;"),
        _ => out.extend_from_slice(&[byte]),
    }
}

/// Puts the text at the end. `&`, `<` and `>` are written as references, so a reader of XML reads this text and nothing else.
///
/// `AllocError` if memory runs out; a part of the text may then have been written.
///
/// Extensible Markup Language 1.0, sections 2.4 and 4.6.
pub fn append_escaped(out: &mut Vec<u8>, text: &[u8]) -> Result<(), AllocError>
    ensures { OnOk result (out.new.items ≡ out.old.items ++ escaped text.now) }
{
    let mut left = append_run(out, text)?;
    while let [first, rest @ ..] = left {
        append_byte(out, *first)?;
        left = append_run(out, rest)?;
    }
    Ok(())
}
