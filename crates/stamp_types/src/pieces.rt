//! Content in pieces.
ghost use Rattle.std.specs.Prelude.{◌≡◌, ◌↔◌, ◌≤◌, IsSome, IfSome, IfOk, IsTrue, [], length};
ghost use Rattle.std.specs.List.{list_all};
ghost use Rattle.stamp_values.specs.Limits.{put_blob_limit};
ghost use Rattle.stamp_types.specs.Pieces.{is_piece, is_pieces, pieces_len, is_held, is_placed};
ghost use Rattle.stamp_types.specs.Pieces as pieces;

use crate::cut::cut;
use crate::piece::Piece;
use stamp_values::{Items, PIECE_LIMIT, PIECES_LIMIT, Share};
use std::alloc::{AllocError, Global};
use std::marker::Model;

/// Content of at most 67,108,864 bytes, seen as its pieces in their order: at most 16 pieces, each
/// of 1 to 4,194,304 bytes.
#[derive(PartialEq, Eq, Drop)]
pub struct Pieces {
    pieces: Items<Piece>,
    // how many bytes the pieces have together
    total: u64,
}

impl Model for Pieces {
    ghost use Rattle.std.specs.Prelude.{◌≡◌, List, IsTrue};
    ghost use Rattle.std.proofs.Common.{sym};
    ghost use Rattle.stamp_types.specs.declared.piece.Piece.{Piece};
    ghost use Rattle.stamp_types.specs.Pieces.{is_pieces, pieces_len};

    ghost Value = { List Piece };

    ghost view = { λ p. p.pieces };

    ghost invariant = { λ p. IsTrue (is_pieces p.pieces) × (p.total ≡ pieces_len p.pieces) };

    ghost inverse = { λ ps. record { pieces = ps; total = pieces_len ps } };

    ghost inverse_ok = { λ p h. (λ i. record { pieces = p.pieces; total = sym h.1 i }) };
}

impl Clone for Pieces {
    ghost is_clone = { λ x y. y ≡ x };

    fn clone(&self) -> Result<Self, AllocError> {
        Ok(Self {
            pieces: self.pieces.clone()?,
            total: self.total,
        })
    }
}

fn is_piece(piece: &Piece) -> bool
    ensures { result ≡ is_piece piece.now }
{
    (1..=u64::from(PIECE_LIMIT)).contains(&piece.len())
}

fn are_pieces(pieces: &[Piece]) -> bool
    ensures { result ≡ list_all is_piece pieces.now }
{
    pieces.iter().all(|piece| is_piece(piece))
}

fn is_pieces(pieces: &[Piece]) -> bool
    ensures { result ≡ is_pieces pieces.now }
{
    pieces.len() <= PIECES_LIMIT && are_pieces(pieces)
}

// How many bytes the pieces have together.
fn total_len(pieces: &[Piece]) -> u64
    requires { IsTrue (is_pieces pieces.now) }
    ensures { result ≡ pieces_len pieces.now }
{
    let mut total = 0;
    for piece in pieces {
        total += piece.len();
    }
    total
}

impl Pieces {
    /// The pieces, or `None` if there are more than 16 pieces, or if a piece is empty or longer
    /// than 4,194,304 bytes.
    pub fn new(pieces: Vec<Piece>) -> Option<Self>
        ensures valid { IsSome result ↔ IsTrue (is_pieces pieces.items) }
        ensures value { IfSome result (λ p. p ≡ pieces.items) }
    {
        if is_pieces(&pieces) {
            let total = total_len(&pieces);
            Some(Self {
                pieces: Items::new(pieces),
                total,
            })
        } else {
            None
        }
    }

    /// Bytes cut into slices of 4,194,304 bytes and the rest. No byte is copied.
    ///
    /// `AllocError` if memory runs out for the list, or if the allocation can have no further
    /// owner.
    pub fn cut(alloc: Global, share: &Share) -> Result<Self, AllocError>
        requires { length share.now ≤ put_blob_limit }
        ensures { IfOk result (λ p. p ≡ pieces.cut share.now) }
    {
        let pieces = cut(alloc, share)?;
        Ok(Self {
            pieces: Items::new(pieces),
            total: share.len() as u64,
        })
    }

    /// No content.
    pub fn empty(alloc: Global) -> Self
        ensures { result ≡ [] }
    {
        Self {
            pieces: Items::new(Vec::new(alloc)),
            total: 0,
        }
    }

    /// How many bytes the pieces have together.
    pub fn len(&self) -> u64
        ensures { result ≡ pieces_len self.now }
    {
        self.total
    }

    /// The pieces in their order.
    pub fn as_slice(&self) -> &[Piece]
        ensures value { result.now ≡ self.now }
        ensures valid { IsTrue (is_pieces self.now) }
    {
        let _pieces = &self.pieces;
        self.pieces.as_slice()
    }

    /// Whether each piece holds its bytes.
    pub fn is_held(&self) -> bool
        ensures { result ≡ is_held self.now }
    {
        self.as_slice().iter().all(|piece| piece.is_held())
    }

    /// Whether each piece is a place in a stream.
    pub fn is_placed(&self) -> bool
        ensures { result ≡ is_placed self.now }
    {
        self.as_slice().iter().all(|piece| piece.is_placed())
    }
}
