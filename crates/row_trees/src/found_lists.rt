//! The blocks that are found for a change that a log says.
ghost use Rattle.std.specs.Prelude.{◌≡◌, IfOk, IsErr, IsTrue, None};
ghost use Rattle.stamp_types.specs.Pieces.{pieces_len};
ghost use Rattle.stamp_types.specs.World.{part_at, part_value};
ghost use Rattle.block_blobs.specs.BlockLists.{taken_fault};
ghost use Rattle.block_blobs.specs.FoundBlocks.{AreBlocksOf};
ghost use Rattle.row_trees.specs.Fits.{commits, fits};
ghost use Rattle.row_trees.specs.ListedBlocks.{AreFoundFor};

use crate::found_blob::FoundBlob;
use crate::rows::Rows;
use block_blobs::{BlockFault, FoundBlocks};
use stamp_types::{Act, Change, Taken};
use std::alloc::{AllocError, Global};

// The blocks of the entries of a list that the blob takes.
fn found_in(
    alloc: Global,
    seen: &FoundBlob<'_>,
    entries: &[Taken],
) -> Result<FoundBlocks, AllocError>
    requires { taken_fault seen.now entries.now ≡ None }
    ensures { IfOk result (λ found. AreBlocksOf seen.now entries.now found) }
{
    match seen.listed(alloc, entries) {
        Ok(found) => Ok(found),
        Err(BlockFault::NoMemory) => Err(AllocError),
        Err(_) => unreachable!("the caller has seen that the list takes these blocks"),
    }
}

impl Rows {
    /// The blocks of the list that a change commits, or no blocks if it commits no list.
    ///
    /// `AllocError` if memory runs out for the look-ups, or if the content of a block can have no further
    /// owner.
    #[tactic(auto, using(crate::proofs::BlockFits::list_of_change, crate::proofs::BlockFits::found_for_list))]
    pub fn found_for(&self, alloc: Global, change: &Change) -> Result<FoundBlocks, AllocError>
        requires { IsTrue
            (fits (part_value pieces_len (part_at self.now change.now.key)) change.now.act) }
        ensures found { IfOk result (λ found.
            AreFoundFor (part_at self.now change.now.key) change.now.act found) }
        ensures memory { IsErr result → IsTrue (commits change.now.act) }
    {
        match change.act() {
            Act::PutBlockList(list) => {
                let seen = self.find(change.key()).seen(&list.blob);
                found_in(alloc, &seen, list.entries.as_slice())
            }
            _ => Ok(FoundBlocks::nothing(alloc)),
        }
    }
}
