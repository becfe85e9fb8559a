//! Texts without spaces and control characters (RFC 3986, section 2.1).
ghost use Rattle.std.specs.Prelude.{◌≡◌, ◌++◌, OnOk};
ghost use Rattle.audit_lines.specs.Lines as lines;
ghost use Rattle.audit_lines.specs.Lines.{escaped_byte};

use std::alloc::AllocError;

// The digits of a byte.
const DIGITS: [u8; 16] = *b"0123456789ABCDEF";

// Whether the byte stands for itself.
fn is_plain(byte: u8) -> bool
    ensures { result ≡ lines.is_plain byte }
{
    32 < byte && byte != b'%' && byte != 127
}

// Appends a byte: as itself, or as a percent sign and its two digits.
#[tactic(auto, unfolding(crate::specs::Lines::escaped_byte))]
fn append_byte(out: &mut Vec<u8>, byte: u8) -> Result<(), AllocError>
    ensures { OnOk result (out.new.items ≡ out.old.items ++ escaped_byte byte) }
{
    if is_plain(byte) {
        out.extend_from_slice(&[byte])
    } else {
        let high = DIGITS[(byte / 16) as usize];
        let low = DIGITS[(byte % 16) as usize];
        out.extend_from_slice(&[b'%', high, low])
    }
}

/// Appends the text, with each space, control character and percent sign as a percent sign and its two digits.
///
/// `AllocError` if memory runs out.
pub(crate) fn append_escaped(out: &mut Vec<u8>, text: &[u8]) -> Result<(), AllocError>
    ensures { OnOk result (out.new.items ≡ out.old.items ++ lines.escaped text.now) }
{
    for byte in text {
        append_byte(out, *byte)?;
    }
    Ok(())
}
