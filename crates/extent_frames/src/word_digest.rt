//! The digest by words of eight bytes, under a key.
ghost use Rattle.std.specs.Prelude.{◌≡◌, ◌≤◌, length};
ghost use Rattle.extent_frames.specs.WordDigests.{mixed, mixed_words, first_word, words_of, word_digest};

use crate::digest::Digest;

/// The digest by words of eight bytes, under a key (docs/formats/journal.md).
///
/// A folder draws its key once. Clients choose the bytes of blocks, and the key keeps them from choosing bytes that look like a frame.
#[derive(Clone, Copy)]
pub struct WordDigest {
    pub key: u64,
}

impl Digest for WordDigest {
    ghost digest_of = { λ d. word_digest d.key };

    #[tactic(auto, unfolding(crate::specs::WordDigests::word_digest))]
    fn digest(&self, segment: u64, index: u64, entry: &[u8]) -> u64 {
        let sum = mix(self.key ^ segment, index);
        mix(mix_words(sum, entry), entry.len() as u64)
    }
}

/// Mixes a word into a sum.
#[tactic(auto, unfolding(crate::specs::WordDigests::mixed))]
fn mix(sum: u64, word: u64) -> u64
    ensures { result ≡ mixed sum word }
{
    (sum ^ word)
        .wrapping_mul(0x2545_f491_4f6c_dd1d)
        .rotate_left(23)
}

/// Mixes the words of bytes into a sum.
fn mix_words(start: u64, bytes: &[u8]) -> u64
    ensures { result ≡ mixed_words start (words_of bytes.now) }
{
    let mut sum = start;
    let mut left = bytes;
    while let Some((word, rest)) = left.split_first_chunk::<8>() {
        sum = mix(sum, u64::from_be_bytes(*word));
        left = rest;
    }
    if left.is_empty() {
        sum
    } else {
        mix(sum, last_word(left))
    }
}

/// The word of at most eight bytes, with zeros after them.
#[tactic(auto, unfolding(crate::specs::WordDigests::first_word))]
fn last_word(bytes: &[u8]) -> u64
    requires { length bytes.now ≤ 8 }
    ensures { result ≡ first_word bytes.now }
{
    let mut word = [0; 8];
    word[..bytes.len()].copy_from_slice(bytes);
    u64::from_be_bytes(word)
}
