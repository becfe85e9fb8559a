//! The cutting of bytes into pieces.
ghost use Rattle.std.specs.Prelude.{◌≡◌, ℕ, ◌<◌, ◌≤◌, List, IfOk, length, take, drop};
ghost use Rattle.stamp_values.specs.Limits.{piece_limit, put_blob_limit};
ghost use Rattle.stamp_types.specs.declared.piece.Piece.TheVariants as piece;
ghost use Rattle.stamp_types.specs.Pieces.{held};
ghost use Rattle.stamp_types.specs.Pieces as pieces;

use crate::piece::Piece;
use stamp_values::Share;
use std::alloc::{AllocError, Global};

const SLICE: usize = 4_194_304;

// The piece that begins at `at`: 4,194,304 bytes, or all bytes from there if there are fewer.
fn piece_at(share: &Share, at: usize) -> Result<Piece, AllocError>
    requires { at < length share.now }
    ensures { IfOk result (λ p. p ≡ piece.Bytes (take piece_limit (drop at share.now))) }
{
    let count = (share.len() - at).min(SLICE);
    Ok(Piece::Bytes(share.slice(at, at + count)?))
}

/// Cuts bytes into slices of 4,194,304 bytes and the rest. No byte is copied.
///
/// `AllocError` if memory runs out for the list, or if the allocation can have no further owner.
pub(crate) fn cut(alloc: Global, share: &Share) -> Result<Vec<Piece>, AllocError>
    requires { length share.now ≤ put_blob_limit }
    ensures { IfOk result (λ ps. ps.items ≡ pieces.cut share.now) }
{
    let mut pieces = Vec::new(alloc);
    let mut at = 0;
    while at < share.len() {
        pieces.push(piece_at(share, at)?)?;
        at += SLICE;
    }
    Ok(pieces)
}

/// The pieces that bytes are cut into hold exactly these bytes, in their order.
pub fn cut_pieces_hold_the_bytes()
    ensures { (bytes : List ℕ) → held (pieces.cut bytes) ≡ bytes }
{}
