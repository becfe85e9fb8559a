//! Blocks of a stream, and the answers of its calls, for tests.
ghost use Rattle.std.specs.Prelude.{◌<◌, length};

use crate::sample_places::place;
use extent_node::Script;
use extent_seal::ReadFault;
use stamp_values::{Place, Share};
use std::alloc::Global;
use std::process::Abort;
use stream_manager::{AppendFault, Handle, Settled, StoredFault, Stream};

/// What a call answered.
#[derive(Clone, Copy, Debug, PartialEq, Eq)]
pub(crate) enum Told {
    /// The block is at this extent and this index.
    At(u64, u64),
    TooLarge,
    NoMemory,
    Busy,
    Doubt,
    Clean,
    Dropped,
    /// The first byte of the block that was read, and how many bytes it has.
    Read(u8, usize),
    Unreachable,
    /// There is no block to read.
    Nothing,
}

/// A block of so many equal bytes.
pub(crate) fn block(rt: &impl Abort, alloc: Global, byte: u8, len: usize) -> Share {
    let bytes = vec![in alloc; byte; len].expect(rt, "memory");
    Share::new(alloc, bytes).expect(rt, "memory")
}

fn at(place: Place) -> Told {
    Told::At(place.extent, place.index)
}

/// Appends a block.
pub(crate) fn append(stream: &mut Stream, block: &Share, wire: &mut Script) -> Told {
    match stream.append(block, wire) {
        Ok(place) => at(place),
        Err(AppendFault::TooLarge) => Told::TooLarge,
        Err(AppendFault::NoMemory) => Told::NoMemory,
        Err(AppendFault::Busy) => Told::Busy,
        Err(AppendFault::Doubt) => Told::Doubt,
    }
}

/// Settles a doubt.
pub(crate) fn settle(stream: &mut Stream, wire: &mut Script) -> Told {
    match stream.settle(wire) {
        Ok(Settled::Clean) => Told::Clean,
        Ok(Settled::Kept(place)) => at(place),
        Ok(Settled::Dropped) => Told::Dropped,
        Err(StoredFault::Busy) => Told::Busy,
        Err(StoredFault::NoMemory) => Told::NoMemory,
    }
}

/// Reads the block at a place, if there is one.
pub(crate) fn read(stream: &Stream, extent: u64, index: u64, wire: &mut Script) -> Told {
    let place = place(extent, index);
    if !stream.has_block(place) {
        return Told::Nothing;
    }
    answered(stream.read(place, wire))
}

/// What a read answered.
pub(crate) fn answered(answer: Result<Share, ReadFault>) -> Told {
    match answer {
        Ok(block) => match block.as_slice() {
            [] => Told::Read(0, 0),
            [first, ..] => Told::Read(*first, block.len()),
        },
        Err(ReadFault::Unreachable) => Told::Unreachable,
        Err(ReadFault::NoMemory) => Told::NoMemory,
    }
}

/// A handle of a sealed extent, which has a block.
#[tactic(auto, using(stream_manager::proofs::ReadLemmas::count_of_extents, stream_manager::proofs::ReadLemmas::sealed_extent))]
pub(crate) fn handle_of(rt: &impl Abort, stream: &mut Stream, extent: usize) -> Handle
    ensures { 0 < length result.blocks }
{
    assert!(rt; extent < stream.sealed_count());
    assert!(rt; 0 < stream.extent_len(extent));
    stream.handle(extent).expect(rt, "memory")
}
