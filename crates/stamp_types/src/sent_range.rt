//! Ranges of bytes that are sent.

/// The bytes that a reply of status 206 sends: the index of the first byte, the index of the last
/// byte, and how many bytes the blob has. 4, 5 and 6 is `bytes 4-5/6` (RFC 9110, section 14.4).
#[derive(Clone, Copy, PartialEq, Eq)]
pub struct SentRange {
    pub first: u64,
    pub last: u64,
    pub total: u64,
}
