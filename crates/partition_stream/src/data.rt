//! Content that is put into a stream of data, piece by piece.
ghost use Rattle.std.specs.Prelude.{◌≡◌, ◌≢◌, ◌≤◌, ◌⊎◌, Err, IfOk, IsTrue, Some, length};
ghost use Rattle.extent_seal.specs.Heard.{AsksAreHeard};
ghost use Rattle.stamp_types.specs.Pieces.{is_held, is_held_piece, is_pieces, piece_len};
ghost use Rattle.stream_manager.specs.Places.{GoesOn, KeepsPlaces, block_at};
ghost use Rattle.stream_manager.specs.Streams.{laid};
ghost use Rattle.stream_manager.specs.declared.faults.StoredFault.TheVariants.{Busy, NoMemory};
ghost use Rattle.partition_stream.specs.Contents.{ArePlaced, EndsWithBlock, IsPlaced};
ghost use Rattle.partition_stream.specs.Counting.{CallsPut, FailsPut};
ghost use Rattle.partition_stream.specs.Sweeping.{AreFrom, IsFrom};

use extent_node::Wire;
use stamp_types::{Piece, Pieces};
use stamp_values::{Place, Share};
use std::alloc::Global;
use stream_manager::{AppendFault, StoredFault, Stream};

// Puts bytes into the data, as one block.
#[tactic(auto, using(crate::proofs::CallLemmas::busy_faults, crate::proofs::DataLemmas::ends_here))]
fn put_bytes<W: Wire>(blobs: &mut Stream, bytes: &Share, wire: &mut W) -> Result<Place, StoredFault>
    requires { length bytes.now ≤ 4_194_304 }
    ensures placed { IfOk result (λ p. block_at (laid blobs.new) p ≡ Some bytes.now) }
    ensures after { IfOk result (λ p. length blobs.old.sealed ≤ p.extent) }
    ensures kept { KeepsPlaces (laid blobs.old) (laid blobs.new) }
    ensures follows { GoesOn (laid blobs.old) (laid blobs.new) }
    ensures limit { blobs.new.limit ≡ blobs.old.limit }
    ensures called { CallsPut result 1 (length blobs.old.sealed) (length blobs.new.sealed) (W.calls wire.old) (W.calls wire.new) }
    ensures counted { FailsPut result (W.faults wire.old) (W.faults wire.new) }
    ensures heard { result ≢ Err Busy → AsksAreHeard (W.calls wire.old) (W.calls wire.new) (W.faults wire.old) (W.faults wire.new) }
    ensures ends { IfOk result (λ p. EndsWithBlock (laid blobs.new)) }
    ensures unchanged { result ≡ Err NoMemory → blobs.new ≡ blobs.old }
    ensures unheard { result ≡ Err NoMemory → wire.new ≡ wire.old }
{
    match blobs.append(bytes, wire) {
        Ok(place) => Ok(place),
        Err(AppendFault::Busy) => Err(StoredFault::Busy),
        Err(AppendFault::Doubt) => Err(StoredFault::Busy),
        Err(AppendFault::NoMemory) => Err(StoredFault::NoMemory),
        Err(AppendFault::TooLarge) => unreachable!("a piece fits a block"),
    }
}

// Puts a piece into the data, and answers the piece that says where its bytes are.
fn put_piece<W: Wire>(blobs: &mut Stream, piece: &Piece, wire: &mut W) -> Result<Piece, StoredFault>
    requires held { IsTrue (is_held_piece piece.now) }
    requires short { piece_len piece.now ≤ 4_194_304 }
    ensures placed { IfOk result (λ p. IsPlaced (laid blobs.new) piece.now p) }
    ensures after { IfOk result (λ p. IsFrom (length blobs.old.sealed) p) }
    ensures kept { KeepsPlaces (laid blobs.old) (laid blobs.new) }
    ensures follows { GoesOn (laid blobs.old) (laid blobs.new) }
    ensures limit { blobs.new.limit ≡ blobs.old.limit }
    ensures called { CallsPut result 1 (length blobs.old.sealed) (length blobs.new.sealed) (W.calls wire.old) (W.calls wire.new) }
    ensures counted { FailsPut result (W.faults wire.old) (W.faults wire.new) }
    ensures heard { result ≢ Err Busy → AsksAreHeard (W.calls wire.old) (W.calls wire.new) (W.faults wire.old) (W.faults wire.new) }
    ensures ends { IfOk result (λ p. EndsWithBlock (laid blobs.new)) }
    ensures unchanged { result ≡ Err NoMemory → blobs.new ≡ blobs.old }
    ensures unheard { result ≡ Err NoMemory → wire.new ≡ wire.old }
{
    match piece {
        Piece::Bytes(bytes) => {
            let place = put_bytes(blobs, bytes, wire)?;
            Ok(Piece::At {
                place,
                length: bytes.len() as u32,
            })
        }
        Piece::At { .. } => unreachable!("content that comes is bytes"),
    }
}

// Puts pieces into the data, one after the other.
#[tactic(auto, using(stream_manager::proofs::RunLemmas::stays_on, crate::proofs::DataLemmas::twice_on, extent_seal::proofs::HeardLemmas::heard_none, extent_seal::proofs::HeardLemmas::heard_then))]
fn put_pieces<W: Wire>(
    alloc: Global,
    blobs: &mut Stream,
    pieces: &[Piece],
    wire: &mut W,
) -> Result<Vec<Piece>, StoredFault>
    requires held { IsTrue (is_held pieces.now) }
    requires short { IsTrue (is_pieces pieces.now) }
    ensures placed { IfOk result (λ ps. ArePlaced (laid blobs.new) pieces.now ps.items) }
    ensures after { IfOk result (λ ps. AreFrom (length blobs.old.sealed) ps.items) }
    ensures kept { KeepsPlaces (laid blobs.old) (laid blobs.new) }
    ensures follows { GoesOn (laid blobs.old) (laid blobs.new) }
    ensures limit { blobs.new.limit ≡ blobs.old.limit }
    ensures called { CallsPut result (length pieces.now) (length blobs.old.sealed) (length blobs.new.sealed) (W.calls wire.old) (W.calls wire.new) }
    ensures counted { FailsPut result (W.faults wire.old) (W.faults wire.new) }
    ensures heard { result ≢ Err Busy → AsksAreHeard (W.calls wire.old) (W.calls wire.new) (W.faults wire.old) (W.faults wire.new) }
    ensures spent { result ≡ Err NoMemory → ((blobs.new ≡ blobs.old) × (wire.new ≡ wire.old)) ⊎ EndsWithBlock (laid blobs.new) }
{
    let mut placed = Vec::with_capacity(alloc, pieces.len())?;
    for piece in pieces {
        let at = put_piece(blobs, piece, wire)?;
        placed.push(at)?;
    }
    Ok(placed)
}

/// Puts content into the data, and answers the pieces that say where its bytes are.
pub(crate) fn put_content<W: Wire>(
    alloc: Global,
    blobs: &mut Stream,
    content: &Pieces,
    wire: &mut W,
) -> Result<Pieces, StoredFault>
    requires { IsTrue (is_held content.now) }
    ensures placed { IfOk result (λ ps. ArePlaced (laid blobs.new) content.now ps) }
    ensures after { IfOk result (λ ps. AreFrom (length blobs.old.sealed) ps) }
    ensures kept { KeepsPlaces (laid blobs.old) (laid blobs.new) }
    ensures follows { GoesOn (laid blobs.old) (laid blobs.new) }
    ensures limit { blobs.new.limit ≡ blobs.old.limit }
    ensures called { CallsPut result (length content.now) (length blobs.old.sealed) (length blobs.new.sealed) (W.calls wire.old) (W.calls wire.new) }
    ensures counted { FailsPut result (W.faults wire.old) (W.faults wire.new) }
    ensures heard { result ≢ Err Busy → AsksAreHeard (W.calls wire.old) (W.calls wire.new) (W.faults wire.old) (W.faults wire.new) }
    ensures spent { result ≡ Err NoMemory → ((blobs.new ≡ blobs.old) × (wire.new ≡ wire.old)) ⊎ EndsWithBlock (laid blobs.new) }
{
    let placed = put_pieces(alloc, blobs, content.as_slice(), wire)?;
    match Pieces::new(placed) {
        Some(pieces) => Ok(pieces),
        None => unreachable!("as many pieces were put, of the same lengths"),
    }
}
