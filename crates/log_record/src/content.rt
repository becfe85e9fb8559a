//! Pieces of content in records.
ghost use Rattle.std.specs.Prelude.{◌≡◌, ◌++◌, OnOk, IsOk};
ghost use Rattle.log_record.specs.Fits as fits;
ghost use Rattle.log_record.specs.Outcomes.{Gives};
ghost use Rattle.log_record.specs.Records as records;
ghost use Rattle.log_record.specs.ReadFields as reading;

use crate::field::{Recorded, append_string};
use crate::left::Left;
use crate::lists::{append_list, read_list};
use crate::record_fault::RecordFault;
use stamp_types::{Piece, Pieces};
use stamp_values::{Place, Share};
use std::alloc::{AllocError, Global};

// Appends a place and how many bytes are there.
fn append_placed(out: &mut Vec<u8>, place: Place, length: u32) -> Result<(), AllocError>
    ensures written { OnOk result (out.new.items ≡ out.old.items ++ records.placed_bytes place length) }
    ensures fits { IsOk result → fits.FitsPlaced place length }
{
    place.extent.append(out)?;
    place.index.append(out)?;
    length.append(out)
}

// Takes a place and how many bytes are there.
#[tactic(auto, unfolding(crate::specs::ReadFields::placed_at))]
fn read_placed(left: &mut Left<'_>) -> Result<(Place, u32), RecordFault>
    ensures { Gives (λ p. (p.0, p.1)) result left.new.bytes.now (reading.placed_at left.old.bytes.now) }
{
    let extent = left.number()?;
    let index = left.number()?;
    let length = left.short_number()?;
    Ok((Place { extent, index }, length))
}

impl Recorded for Piece {
    ghost bytes = { records.piece_bytes };

    ghost at = { reading.piece_at };

    ghost Fits = { fits.FitsPiece };

    fn append(&self, out: &mut Vec<u8>) -> Result<(), AllocError> {
        match self {
            Piece::Bytes(share) => {
                out.extend_from_slice(&[0])?;
                append_string(out, share.as_slice())
            }
            Piece::At { place, length } => {
                out.extend_from_slice(&[1])?;
                append_placed(out, *place, *length)
            }
        }
    }

    #[tactic(auto, unfolding(crate::specs::ReadFields::piece_at))]
    fn read(alloc: Global, left: &mut Left<'_>) -> Result<Self, RecordFault> {
        match left.byte()? {
            0 => {
                let bytes = Vec::from_slice(alloc, left.string()?)?;
                Ok(Piece::Bytes(Share::new(alloc, bytes)?))
            }
            1 => {
                let (place, length) = read_placed(left)?;
                Ok(Piece::At { place, length })
            }
            _ => Err(RecordFault::Form),
        }
    }
}

impl Recorded for Pieces {
    ghost bytes = { records.pieces_bytes };

    ghost at = { reading.pieces_at };

    ghost Fits = { fits.FitsPieces };

    fn append(&self, out: &mut Vec<u8>) -> Result<(), AllocError> {
        append_list(self.as_slice(), out)
    }

    #[tactic(auto, unfolding(crate::specs::ReadFields::pieces_at))]
    fn read(alloc: Global, left: &mut Left<'_>) -> Result<Self, RecordFault> {
        match Pieces::new(read_list(alloc, left)?) {
            Some(pieces) => Ok(pieces),
            None => Err(RecordFault::Form),
        }
    }
}
