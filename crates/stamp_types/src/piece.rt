//! Pieces of content.
ghost use Rattle.std.specs.Prelude.{◌≡◌};

use stamp_values::{Place, Share};

/// A piece of content: its bytes, or the place in a stream where the bytes are and how many bytes
/// there are.
#[derive(Clone, PartialEq, Eq, Drop)]
pub enum Piece {
    Bytes(Share),
    At { place: Place, length: u32 },
}

impl Piece {
    ghost use Rattle.stamp_types.specs.Pieces.{piece_len, is_held_piece, is_placed_piece};

    /// How many bytes the piece has.
    pub fn len(&self) -> u64
        ensures { result ≡ piece_len self.now }
    {
        match self {
            Piece::Bytes(share) => share.len() as u64,
            Piece::At { length, .. } => u64::from(*length),
        }
    }

    /// Whether the piece holds its bytes.
    pub fn is_held(&self) -> bool
        ensures { result ≡ is_held_piece self.now }
    {
        matches!(self, Piece::Bytes(_))
    }

    /// Whether the piece is a place in a stream.
    pub fn is_placed(&self) -> bool
        ensures { result ≡ is_placed_piece self.now }
    {
        matches!(self, Piece::At { .. })
    }
}
