//! Content of the data that is read, to be put again. No byte is copied: a block that is read is put as a later block of the same data.
ghost use Rattle.std.specs.Prelude.{◌≡◌, IfOk, IsTrue, length, map};
ghost use Rattle.stamp_types.specs.Pieces.{is_held};
ghost use Rattle.stream_manager.specs.Places.{GoesOn};
ghost use Rattle.stream_manager.specs.Streams.{laid};
ghost use Rattle.partition_stream.specs.Compactions.{read_piece};
ghost use Rattle.partition_stream.specs.Contents.{ArePlaced, AreStored, IsStored};
ghost use Rattle.partition_stream.specs.Counting.{FailsCompaction};
ghost use Rattle.partition_stream.specs.Heard.{HearsCompaction};
ghost use Rattle.partition_stream.specs.Sweeping.{AreFrom};

use crate::data::put_content;
use crate::faults::CompactionFault;
use extent_node::Wire;
use extent_seal::ReadFault;
use stamp_types::{Piece, Pieces};
use std::alloc::Global;
use stream_manager::{StoredFault, Stream};

// The piece with its bytes.
fn read_piece<W: Wire>(
    blobs: &Stream,
    piece: &Piece,
    wire: &mut W,
) -> Result<Piece, CompactionFault>
    requires { IsStored (laid blobs.now) piece.now }
    ensures read { IfOk result (λ p. p ≡ read_piece (laid blobs.now) piece.now) }
    ensures counted { FailsCompaction result (W.faults wire.old) (W.faults wire.new) }
    ensures heard { HearsCompaction result (W.calls wire.old) (W.calls wire.new) (W.faults wire.old) (W.faults wire.new) }
{
    match piece {
        Piece::At { place, .. } => match blobs.read(*place, wire) {
            Ok(block) => Ok(Piece::Bytes(block)),
            Err(ReadFault::Unreachable) => Err(CompactionFault::Unreachable),
            Err(ReadFault::NoMemory) => Err(CompactionFault::NoMemory),
        },
        Piece::Bytes(_) => unreachable!("content that is stored is at places"),
    }
}

// The pieces with their bytes.
#[tactic(auto, using(extent_seal::proofs::HeardLemmas::heard_none))]
fn read_pieces<W: Wire>(
    alloc: Global,
    blobs: &Stream,
    pieces: &[Piece],
    wire: &mut W,
) -> Result<Vec<Piece>, CompactionFault>
    requires { AreStored (laid blobs.now) pieces.now }
    ensures read { IfOk result (λ ps. ps.items ≡ map (read_piece (laid blobs.now)) pieces.now) }
    ensures counted { FailsCompaction result (W.faults wire.old) (W.faults wire.new) }
    ensures heard { HearsCompaction result (W.calls wire.old) (W.calls wire.new) (W.faults wire.old) (W.faults wire.new) }
{
    let mut read = Vec::with_capacity(alloc, pieces.len())?;
    for piece in pieces {
        let bytes = read_piece(blobs, piece, wire)?;
        read.push(bytes)?;
    }
    Ok(read)
}

/// The content with its bytes.
pub(crate) fn read_content<W: Wire>(
    alloc: Global,
    blobs: &Stream,
    content: &Pieces,
    wire: &mut W,
) -> Result<Pieces, CompactionFault>
    requires { AreStored (laid blobs.now) content.now }
    ensures read { IfOk result (λ ps. ps ≡ map (read_piece (laid blobs.now)) content.now) }
    ensures counted { FailsCompaction result (W.faults wire.old) (W.faults wire.new) }
    ensures heard { HearsCompaction result (W.calls wire.old) (W.calls wire.new) (W.faults wire.old) (W.faults wire.new) }
{
    let read = read_pieces(alloc, blobs, content.as_slice(), wire)?;
    match Pieces::new(read) {
        Some(pieces) => Ok(pieces),
        None => unreachable!("as many pieces were read, of the same lengths"),
    }
}

/// Puts content that was read at the end of the data.
pub(crate) fn put_read<W: Wire>(
    alloc: Global,
    blobs: &mut Stream,
    read: &Pieces,
    wire: &mut W,
) -> Result<Pieces, CompactionFault>
    requires { IsTrue (is_held read.now) }
    ensures placed { IfOk result (λ ps. ArePlaced (laid blobs.new) read.now ps) }
    ensures after { IfOk result (λ ps. AreFrom (length blobs.old.sealed) ps) }
    ensures follows { GoesOn (laid blobs.old) (laid blobs.new) }
    ensures limit { blobs.new.limit ≡ blobs.old.limit }
    ensures counted { FailsCompaction result (W.faults wire.old) (W.faults wire.new) }
    ensures heard { HearsCompaction result (W.calls wire.old) (W.calls wire.new) (W.faults wire.old) (W.faults wire.new) }
{
    match put_content(alloc, blobs, read, wire) {
        Ok(placed) => Ok(placed),
        Err(StoredFault::Busy) => Err(CompactionFault::Busy),
        Err(StoredFault::NoMemory) => Err(CompactionFault::NoMemory),
    }
}
