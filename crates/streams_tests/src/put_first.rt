//! A change whose content is put first, as a partition does it.
ghost use Rattle.std.specs.Prelude.{◌≡◌, IfOk, IsSomeAnd, IsTrue, map};
ghost use Rattle.stamp_types.specs.Changes.{content_of};
ghost use Rattle.stamp_types.specs.Pieces.{is_held, piece_len};
ghost use Rattle.stream_manager.specs.Streams.{laid};
ghost use Rattle.partition_stream.specs.Contents.{AreStored};

use extent_node::Wire;
use partition_stream::{Streams, TakeFault};
use stamp_types::{Change, Pieces};
use stream_manager::StoredFault;

// Puts the content into the data.
fn put<W: Wire>(streams: &mut Streams, content: &Pieces, wire: &mut W) -> Result<Pieces, TakeFault>
    requires { IsTrue (is_held content.now) }
    ensures stored { IfOk result (λ ps. AreStored (laid streams.new.blobs) ps) }
    ensures lengths { IfOk result (λ ps. map piece_len ps ≡ map piece_len content.now) }
{
    match streams.put_data(content, wire) {
        Ok(placed) => Ok(placed),
        Err(StoredFault::Busy) => Err(TakeFault::Busy),
        Err(StoredFault::NoMemory) => Err(TakeFault::NoMemory),
    }
}

// Logs the change, whose content is now where the data has it.
#[tactic(auto, using(crate::proofs::FirstLemmas::stored_placed))]
fn log_placed<W: Wire>(
    streams: &mut Streams,
    change: Change,
    placed: Pieces,
    wire: &mut W,
) -> Result<u64, TakeFault>
    requires stored { AreStored (laid streams.old.blobs) placed }
    requires same { IsSomeAnd (content_of change.act) (λ ps. map piece_len ps ≡ map piece_len placed) }
{
    let change = change.with_content(placed);
    let logged = streams.log_change(&change, 0, wire);
    drop(change);
    logged
}

/// Puts the content into the data, and then logs the change, whose content is now where the data has it.
#[tactic(auto, using(crate::proofs::FirstLemmas::as_long))]
pub(crate) fn put_and_log<W: Wire>(
    streams: &mut Streams,
    change: Change,
    content: &Pieces,
    wire: &mut W,
) -> Result<u64, TakeFault>
    requires held { IsTrue (is_held content.now) }
    requires same { IsSomeAnd (content_of change.act) (λ ps. map piece_len ps ≡ map piece_len content.now) }
{
    match put(streams, content, wire) {
        Ok(placed) => log_placed(streams, change, placed, wire),
        Err(fault) => {
            drop(change);
            Err(fault)
        }
    }
}
