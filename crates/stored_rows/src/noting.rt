//! What is done beside the streams once a change was logged or settled, and once rows were made.
ghost use Rattle.std.specs.Prelude.{◌≡◌, IfOk, IfSome, IsTrue, None, Some};
ghost use Rattle.stamp_types.specs.Pieces.{pieces_len};
ghost use Rattle.stamp_types.specs.World.{part_at, part_value};
ghost use Rattle.row_trees.specs.Fits.{fits};
ghost use Rattle.row_trees.specs.ListedBlocks.{AreFoundFor};
ghost use Rattle.stored_rows.specs.Loaded.{IsFollowed};
ghost use Rattle.stored_rows.specs.Noting.{IfKept, IsKeptBeside, IsLoadedBeside, IsSettledBeside, ended_by, loaded_by, taken_by};

use crate::faults::{Ended, stored_fault_of_read};
use crate::loading::{follow, follow_doubt};
use crate::logging::Unlogged;
use block_blobs::FoundBlocks;
use extent_seal::ReadFault;
use partition_stream::TakeFault;
use row_trees::Rows;
use stamp_types::Change;
use std::alloc::Global;
use stream_manager::{Settled, StoredFault};

/// Keeps the change that is in doubt.
pub(crate) fn keep_doubt(doubt: &mut Option<Change>, kept: Change)
    ensures { doubt.new ≡ Some kept }
{
    drop(doubt.replace(kept));
}

/// Makes a change that was logged in the rows that are loaded, with the blocks that were found for it, or keeps a change that is in doubt. The
/// answer is that of the take.
pub(crate) fn note(
    alloc: Global,
    rows: &mut Option<Rows>,
    doubt: &mut Option<Change>,
    logged: Result<Change, Unlogged>,
    found: Option<FoundBlocks>,
) -> Result<(), TakeFault>
    requires fits { IfOk logged (λ c. IfSome rows.old (λ w. IsTrue (fits (part_value pieces_len (part_at w c.key)) c.act))) }
    requires found { IfOk logged (λ c. IfSome rows.old (λ w. IfSome found (λ blocks. AreFoundFor (part_at w c.key) c.act blocks))) }
    ensures answer { result ≡ taken_by logged }
    ensures noted { IsKeptBeside logged rows.old rows.new doubt.old doubt.new }
{
    match logged {
        Ok(kept) => {
            follow(alloc, rows, kept, found);
            Ok(())
        }
        Err(Unlogged::Doubt(kept)) => {
            drop(found);
            keep_doubt(doubt, kept);
            Err(TakeFault::Doubt)
        }
        Err(Unlogged::Busy) => {
            drop(found);
            Err(TakeFault::Busy)
        }
        Err(Unlogged::NoMemory) => {
            drop(found);
            Err(TakeFault::NoMemory)
        }
    }
}

// Keeps no change any more.
fn keep_none(doubt: &mut Option<Change>)
    ensures { doubt.new ≡ None }
{
    drop(doubt.take());
}

// Makes the change that was in doubt, now that it is kept, and keeps no change any more.
fn follow_kept(alloc: Global, rows: &mut Option<Rows>, doubt: &mut Option<Change>)
    requires { IfSome doubt.old (λ c. IfSome rows.old (λ w. IsTrue (fits (part_value pieces_len (part_at w c.key)) c.act))) }
    ensures followed { IfSome doubt.old (λ c. IsFollowed rows.old c rows.new) }
    ensures none { doubt.new ≡ None }
{
    let kept = doubt.take();
    follow_doubt(alloc, rows, kept);
}

/// Makes a change that was in doubt in the rows that are loaded, if it is kept. The answer is that of the settle.
pub(crate) fn note_settled(
    alloc: Global,
    rows: &mut Option<Rows>,
    doubt: &mut Option<Change>,
    settled: Result<Settled, StoredFault>,
) -> Result<Ended, StoredFault>
    requires { IfKept settled (IfSome doubt.old (λ c. IfSome rows.old (λ w. IsTrue (fits (part_value pieces_len (part_at w c.key)) c.act)))) }
    ensures answer { result ≡ ended_by settled }
    ensures noted { IsSettledBeside settled rows.old rows.new doubt.old doubt.new }
{
    match settled {
        Ok(Settled::Clean) => Ok(Ended::Clean),
        Ok(Settled::Kept(_place)) => {
            follow_kept(alloc, rows, doubt);
            Ok(Ended::Kept)
        }
        Ok(Settled::Dropped) => {
            keep_none(doubt);
            Ok(Ended::Dropped)
        }
        Err(fault) => Err(fault),
    }
}

/// Keeps rows that were made. The answer is that of the load.
pub(crate) fn note_loaded(
    rows: &mut Option<Rows>,
    made: Result<Rows, ReadFault>,
) -> Result<(), StoredFault>
    ensures answer { result ≡ loaded_by made }
    ensures noted { IsLoadedBeside made rows.old rows.new }
{
    match made {
        Ok(loaded) => {
            *rows = Some(loaded);
            Ok(())
        }
        Err(fault) => Err(stored_fault_of_read(fault)),
    }
}
