//! Changes that are read back, one after the other.
ghost use Rattle.std.specs.Prelude.{◌≡◌, ◌≢◌, ◌<◌, ◌+◌, ◌++◌, ◌∷◌, ⊤, [], All, Some, Err, IfOk, IsSomeAnd, MatchOption};
ghost use Rattle.extent_seal.specs.Counting.{Grows, all_faults};
ghost use Rattle.extent_seal.specs.Heard.{AsksAreHeard};
ghost use Rattle.extent_seal.specs.declared.sealed.ReadFault.TheVariants.{Unreachable};
ghost use Rattle.stream_manager.specs.Places.{block_at, blocks_of};
ghost use Rattle.stream_manager.specs.Streams.{laid};
ghost use Rattle.stream_manager.specs.Walks.{before};
ghost use Rattle.partition_stream.specs.Changes.{change_in, changes_of};
ghost use Rattle.partition_stream.specs.Positions.{IsNextAt};
ghost use Rattle.partition_stream.specs.Storing.{IsRecord};

use extent_node::Wire;
use extent_seal::ReadFault;
use log_record::{RecordFault, read_change};
use stamp_types::Change;
use stamp_values::{Place, Share};
use std::alloc::Global;
use stream_manager::Stream;

// The place of the first block from an index of an extent on, if there is a block.
fn next_block(stream: &Stream, extent: usize, index: usize) -> Option<Place>
    ensures { MatchOption result (before (laid stream.now) extent index ≡ blocks_of (laid stream.now))
        (λ p. IsNextAt (laid stream.now) extent index p) }
{
    let mut number = extent;
    let mut at = index;
    while number < stream.extent_count() {
        if at < stream.extent_len(number) {
            return Some(Place {
                extent: number as u64,
                index: at as u64,
            });
        }
        number += 1;
        at = 0;
    }
    None
}

// The change whose record the block is.
fn change_of(alloc: Global, block: &Share) -> Result<(Change, u64), ReadFault>
    requires { IsRecord block.now }
    ensures read { IfOk result (λ r. change_in block.now ≡ Some r) }
    ensures reached { result ≢ Err Unreachable }
{
    match read_change(alloc, block.as_slice()) {
        Ok(read) => Ok(read),
        Err(RecordFault::NoMemory) => Err(ReadFault::NoMemory),
        Err(RecordFault::Form | RecordFault::Version) => {
            unreachable!("a block of the log is a record")
        }
    }
}

/// A change that was read, and the extent and the index after it.
#[derive(Drop)]
pub(crate) struct Next {
    pub change: Change,
    pub epoch: u64,
    pub extent: usize,
    pub index: usize,
}

// The change whose record is at the place.
fn change_at<W: Wire>(
    stream: &Stream,
    alloc: Global,
    place: Place,
    wire: &mut W,
) -> Result<(Change, u64), ReadFault>
    requires { IsSomeAnd (block_at (laid stream.now) place) (λ b. IsRecord b) }
    ensures read { IfOk result (λ r. IsSomeAnd (block_at (laid stream.now) place) (λ b. change_in b ≡ Some r)) }
    ensures unreachable { (result ≡ Err Unreachable) → all_faults (W.faults wire.old) < all_faults (W.faults wire.new) }
    ensures grown { Grows (W.faults wire.old) (W.faults wire.new) }
    ensures heard { result ≢ Err Unreachable → AsksAreHeard (W.calls wire.old) (W.calls wire.new) (W.faults wire.old) (W.faults wire.new) }
{
    let block = stream.read(place, wire)?;
    change_of(alloc, &block)
}

/// The change of the first block from an index of an extent on, if there is a block.
#[tactic(auto, using(extent_seal::proofs::HeardLemmas::heard_none))]
pub(crate) fn next_in<W: Wire>(
    stream: &Stream,
    alloc: Global,
    extent: usize,
    index: usize,
    wire: &mut W,
) -> Result<Option<Next>, ReadFault>
    requires { All IsRecord (blocks_of (laid stream.now)) }
    ensures next { IfOk result (λ o. MatchOption o (before (laid stream.now) extent index ≡ blocks_of (laid stream.now))
        (λ n. changes_of (before (laid stream.now) n.extent n.index) ≡ changes_of (before (laid stream.now) extent index) ++ (n.change, n.epoch) ∷ [])) }
    ensures unheard { IfOk result (λ o. MatchOption o (wire.new ≡ wire.old) (λ n. ⊤)) }
    ensures unreachable { (result ≡ Err Unreachable) → all_faults (W.faults wire.old) < all_faults (W.faults wire.new) }
    ensures grown { Grows (W.faults wire.old) (W.faults wire.new) }
    ensures heard { result ≢ Err Unreachable → AsksAreHeard (W.calls wire.old) (W.calls wire.new) (W.faults wire.old) (W.faults wire.new) }
{
    match next_block(stream, extent, index) {
        None => Ok(None),
        Some(place) => {
            let (change, epoch) = change_at(stream, alloc, place, wire)?;
            Ok(Some(Next {
                change,
                epoch,
                extent: place.extent as usize,
                index: place.index as usize + 1,
            }))
        }
    }
}
