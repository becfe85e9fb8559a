//! Where a byte is in a text, and what is before it and after it.
ghost use Rattle.std.specs.Prelude.{◌≡◌, ◌≤◌, ◌==◌, length};
ghost use Rattle.std.specs.List.{position_or_len, before_first, after_first};

/// The index of the first such byte, or the length.
pub(crate) fn position(bytes: &[u8], wanted: u8) -> usize
    ensures value { result ≡ position_or_len (λ b. b == wanted) bytes.now }
    ensures bound { result ≤ length bytes.now }
{
    for (i, byte) in bytes.iter().enumerate() {
        if *byte == wanted {
            return i;
        }
    }
    bytes.len()
}

/// The bytes before the first such byte, or all bytes.
pub(crate) fn before(bytes: &[u8], mark: u8) -> &[u8]
    ensures { result.now ≡ before_first (λ b. b == mark) bytes.now }
{
    &bytes[..position(bytes, mark)]
}

/// The bytes after the first such byte, or no bytes.
pub(crate) fn after(bytes: &[u8], mark: u8) -> &[u8]
    ensures { result.now ≡ after_first (λ b. b == mark) bytes.now }
{
    let at = position(bytes, mark);
    if at < bytes.len() {
        &bytes[at + 1..]
    } else {
        &[]
    }
}
