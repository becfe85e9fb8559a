//! Parts of pieces that are read without the streams.
ghost use Rattle.std.specs.Prelude.{◌≡◌, ◌≢◌, ◌≤◌, ◌<◌, [], true, false, Err, IfOk, IsSomeAnd, length, get_or, slice_range};
ghost use Rattle.extent_seal.specs.Counting.{Grows, all_faults};
ghost use Rattle.extent_seal.specs.Heard.{AsksAreHeard};
ghost use Rattle.extent_seal.specs.declared.sealed.ReadFault.TheVariants.{Unreachable};
ghost use Rattle.stream_manager.specs.Places.{block_at};
ghost use Rattle.stream_manager.specs.Streams.{laid};
ghost use Rattle.partition_stream.specs.Parts.{is_in_last};

use extent_node::Wire;
use extent_seal::ReadFault;
use stamp_values::{Place, Share};
use std::alloc::AllocError;
use std::marker::Model;
use stream_manager::{Handle, Stream};

// Where the bytes of a part are.
#[derive(Drop)]
enum BlockSource {
    // The bytes were read from the last extent.
    Read(Share),
    // The bytes from `from` up to but not including `to` of a block of a sealed extent.
    Sealed {
        handle: Handle,
        index: usize,
        from: usize,
        to: usize,
    },
}

/// A part of a piece. It owns what it reads, so it gives the same bytes whatever becomes of the streams.
///
/// A part of a block in a sealed extent keeps all blocks of this extent in memory.
#[derive(Drop)]
pub struct Part {
    source: BlockSource,
}

impl Model for Part {
    ghost use Rattle.partition_stream.specs.Parts.{IsReadable, KeptPart, part_of};

    ghost Value = { KeptPart };

    ghost view = { λ p. part_of p.source };

    ghost invariant = { λ p. IsReadable p.source };
}

impl Part {
    ghost use Rattle.std.specs.Prelude.{◌≡◌, ◌≢◌, ◌≤◌, ◌<◌, [], true, false, Err, IfOk, IfSome, length, get_or, slice_range};
    ghost use Rattle.std.specs.Option.{is_some, option_copied};
    ghost use Rattle.extent_seal.specs.Counting.{Grows, all_faults};
    ghost use Rattle.extent_seal.specs.Heard.{AsksAreHeard};
    ghost use Rattle.extent_seal.specs.declared.sealed.ReadFault.TheVariants.{Unreachable};

    // The part whose bytes were read.
    fn read(bytes: Share) -> Self
        ensures bytes { result.bytes ≡ bytes }
        ensures read { result.is_read ≡ true }
    {
        Self {
            source: BlockSource::Read(bytes),
        }
    }

    // A part of a block of a sealed extent.
    fn sealed(handle: Handle, index: usize, from: usize, to: usize) -> Self
        requires there { index < length handle.blocks }
        requires order { from ≤ to }
        requires within { to ≤ length (get_or handle.blocks index []) }
        ensures bytes { result.bytes ≡ slice_range (get_or handle.blocks index []) from to }
        ensures read { result.is_read ≡ false }
    {
        Self {
            source: BlockSource::Sealed {
                handle,
                index,
                from,
                to,
            },
        }
    }

    /// The bytes, if they were read already.
    pub fn bytes(&self) -> Option<&Share>
        ensures read { is_some result ≡ self.now.is_read }
        ensures bytes { IfSome (option_copied result) (λ s. s ≡ self.now.bytes) }
    {
        match &self.source {
            BlockSource::Read(bytes) => Some(bytes),
            BlockSource::Sealed { .. } => None,
        }
    }

    /// The bytes. No byte is copied. If they were read already, no node is called.
    ///
    /// Unreachable: every node with a copy of the extent was asked, and answered no. NoMemory: the bytes can have no further owner.
    #[tactic(auto, using(extent_seal::proofs::HeardLemmas::heard_none))]
    pub fn fetch<W: Wire>(&self, wire: &mut W) -> Result<Share, ReadFault>
        ensures read { IfOk result (λ s. s ≡ self.now.bytes) }
        ensures unheard { self.now.is_read ≡ true → wire.new ≡ wire.old }
        ensures unreachable { result ≡ Err Unreachable → all_faults (W.faults wire.old) < all_faults (W.faults wire.new) }
        ensures grown { Grows (W.faults wire.old) (W.faults wire.new) }
        ensures heard { result ≢ Err Unreachable → AsksAreHeard (W.calls wire.old) (W.calls wire.new) (W.faults wire.old) (W.faults wire.new) }
    {
        match &self.source {
            BlockSource::Read(bytes) => shared(bytes),
            BlockSource::Sealed {
                handle,
                index,
                from,
                to,
            } => part_of(handle, *index, *from, *to, wire),
        }
    }
}

// One more owner of the bytes.
fn shared(bytes: &Share) -> Result<Share, ReadFault>
    ensures shared { IfOk result (λ s. s ≡ bytes.now) }
    ensures reached { result ≢ Err Unreachable }
{
    bytes.share().map_err(|_| ReadFault::NoMemory)
}

// Bytes of a block of a sealed extent.
fn part_of<W: Wire>(
    handle: &Handle,
    index: usize,
    from: usize,
    to: usize,
    wire: &mut W,
) -> Result<Share, ReadFault>
    requires there { index < length handle.now.blocks }
    requires order { from ≤ to }
    requires within { to ≤ length (get_or handle.now.blocks index []) }
    ensures read { IfOk result (λ s. s ≡ slice_range (get_or handle.now.blocks index []) from to) }
    ensures unreachable { result ≡ Err Unreachable → all_faults (W.faults wire.old) < all_faults (W.faults wire.new) }
    ensures grown { Grows (W.faults wire.old) (W.faults wire.new) }
    ensures heard { result ≢ Err Unreachable → AsksAreHeard (W.calls wire.old) (W.calls wire.new) (W.faults wire.old) (W.faults wire.new) }
{
    let block = handle.read(index, wire)?;
    match block.slice(from, to) {
        Ok(part) => Ok(part),
        Err(AllocError) => Err(ReadFault::NoMemory),
    }
}

/// Bytes of the block at a place, to be read without the stream. A block of the last extent is read now, since only sealed extents
/// can be shared.
#[tactic(auto, using(extent_seal::proofs::HeardLemmas::heard_none))]
pub(crate) fn part_at<W: Wire>(
    blobs: &mut Stream,
    place: Place,
    start: usize,
    end: usize,
    wire: &mut W,
) -> Result<Part, ReadFault>
    requires stored { IsSomeAnd (block_at (laid blobs.old) place) (λ b. end ≤ length b) }
    requires order { start ≤ end }
    ensures part { IfOk result (λ p. IsSomeAnd (block_at (laid blobs.old) place) (λ b. p.bytes ≡ slice_range b start end)) }
    ensures read { IfOk result (λ p. p.is_read ≡ is_in_last blobs.old place) }
    ensures same { blobs.new ≡ blobs.old }
    ensures unheard { is_in_last blobs.old place ≡ false → wire.new ≡ wire.old }
    ensures unreachable { result ≡ Err Unreachable → all_faults (W.faults wire.old) < all_faults (W.faults wire.new) }
    ensures grown { Grows (W.faults wire.old) (W.faults wire.new) }
    ensures heard { result ≢ Err Unreachable → AsksAreHeard (W.calls wire.old) (W.calls wire.new) (W.faults wire.old) (W.faults wire.new) }
{
    let extent = place.extent as usize;
    let index = place.index as usize;
    if extent < blobs.sealed_count() {
        match blobs.handle(extent) {
            Ok(handle) => Ok(Part::sealed(handle, index, start, end)),
            Err(AllocError) => Err(ReadFault::NoMemory),
        }
    } else {
        let block = blobs.read(place, wire)?;
        match block.slice(start, end) {
            Ok(part) => Ok(Part::read(part)),
            Err(AllocError) => Err(ReadFault::NoMemory),
        }
    }
}
