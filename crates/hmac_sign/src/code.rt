//! The authentication code of a message under a key.
ghost use Rattle.std.specs.Prelude.{◌≡◌, ◌≤◌, ◌-◌, ◌++◌, ℕ, List, length, replicate};
ghost use Rattle.sha2.specs.Hashers.{Holds256};
ghost use Rattle.hmac_sign.specs.Hmac.{hmac_of, key_block, masked, inner_block, outer_block};

use sha2::{Digest, Sha256};

/// The block size of SHA-256, in bytes. FIPS 180-4, figure 1.
const BLOCK_SIZE: usize = 64;

/// Combined with each byte of the key's block before the message. RFC 2104, section 2.
const INNER_PAD: u8 = 0x36;

/// Combined with each byte of the key's block before the inner digest. RFC 2104, section 2.
const OUTER_PAD: u8 = 0x5c;

/// The HMAC of `message` under `key`, over SHA-256. The key may have any length. The call takes no memory.
///
/// RFC 2104, section 2.
pub fn hmac(key: &[u8], message: &[u8]) -> [u8; 32]
    ensures { result ≡ hmac_of key.now message.now }
{
    let (inner, outer) = padded_hashers(key);
    code_of(inner, outer, message)
}

/// The inner hasher and the outer hasher of the key, after one block each. RFC 2104, section 4.
pub(crate) fn padded_hashers(key: &[u8]) -> (Sha256, Sha256)
    ensures inner { Holds256 result.0 (inner_block key.now) }
    ensures outer { Holds256 result.1 (outer_block key.now) }
{
    let block = block_of(key);
    (
        Sha256::new_with_prefix(mask(&block, INNER_PAD)),
        Sha256::new_with_prefix(mask(&block, OUTER_PAD)),
    )
}

/// The HMAC of `message` under the key of these two hashers.
pub(crate) fn code_of(mut inner: Sha256, mut outer: Sha256, message: &[u8]) -> [u8; 32]
    ensures { (key : List ℕ) → Holds256 inner (inner_block key) → Holds256 outer (outer_block key)
        → result ≡ hmac_of key message.now }
{
    inner.update(message);
    outer.update(inner.finalize());
    outer.finalize()
}

/// The key as one block. A key longer than a block counts as its digest.
fn block_of(key: &[u8]) -> [u8; BLOCK_SIZE]
    ensures { result ≡ key_block key.now }
{
    if key.len() > BLOCK_SIZE {
        fill(&Sha256::digest(key))
    } else {
        fill(key)
    }
}

/// The bytes, and after them as many zeros as fill a block.
fn fill(bytes: &[u8]) -> [u8; BLOCK_SIZE]
    requires { length bytes.now ≤ 64 }
    ensures { result ≡ bytes.now ++ replicate (64 - length bytes.now) 0 }
{
    let mut block = [0; BLOCK_SIZE];
    block[..bytes.len()].copy_from_slice(bytes);
    block
}

/// The block, with each byte combined with the pad by exclusive or.
fn mask(block: &[u8; BLOCK_SIZE], pad: u8) -> [u8; BLOCK_SIZE]
    ensures { result ≡ masked pad block.now }
{
    let mut masked = *block;
    for i in 0..BLOCK_SIZE {
        masked[i] ^= pad;
    }
    masked
}
