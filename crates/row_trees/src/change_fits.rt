//! Whether rows make a change.
ghost use Rattle.std.specs.Prelude.{◌≡◌, ◌&&◌, ◌||◌, IfOk, IsErr, IsTrue, is_none, is_some, nat_lt};
ghost use Rattle.stamp_types.specs.ActKinds as kinds;
ghost use Rattle.stamp_types.specs.Pieces.{pieces_len};
ghost use Rattle.stamp_types.specs.World.{blob_in, part_at, part_value};
ghost use Rattle.block_blobs.specs.BlockLists.{taken_fault};
ghost use Rattle.block_blobs.specs.UncommittedBlocks.{block_fault};
ghost use Rattle.row_trees.specs.Fits as fits;
ghost use Rattle.row_trees.specs.Fits.{count_limit};

use crate::container::Container;
use crate::found_blob::FoundBlob;
use crate::rows::Rows;
use block_blobs::BlockFault;
use stamp_types::{Act, Change, PutBlock, PutBlockList, Taken};
use std::alloc::{AllocError, Global};

fn is_row(act: &Act) -> bool
    ensures { result ≡ kinds.is_row act.now }
{
    matches!(act, Act::ContainerRow(_) | Act::StoredBlob(_))
}

fn creates(act: &Act) -> bool
    ensures { result ≡ fits.creates act.now }
{
    matches!(act, Act::CreateContainer(_))
}

// Whether a blob has the blocks of the entries, within the limits of a list.
fn takes(alloc: Global, seen: &FoundBlob<'_>, entries: &[Taken]) -> Result<bool, AllocError>
    ensures { IfOk result (λ answer. answer ≡ is_none (taken_fault seen.now entries.now)) }
{
    match seen.listed(alloc, entries) {
        Ok(_found) => Ok(true),
        Err(BlockFault::NoMemory) => Err(AllocError),
        Err(_) => Ok(false),
    }
}

impl Container {
    // Whether the blob of a Put Block takes the block.
    fn fits_block(&self, put: &PutBlock) -> bool
        ensures { result ≡ is_none (block_fault put.now.id (blob_in self.now put.now.blob).uncommitted) }
    {
        self.seen(&put.blob).block_fault(&put.id).is_none()
    }

    // Whether the blob of a Put Block List has the blocks of its entries, within the limits.
    fn fits_list(&self, alloc: Global, list: &PutBlockList) -> Result<bool, AllocError>
        ensures { IfOk result (λ answer. answer
            ≡ is_none (taken_fault (blob_in self.now list.now.blob) list.now.entries)) }
    {
        let seen = self.seen(&list.blob);
        takes(alloc, &seen, list.entries.as_slice())
    }

    // Whether a change fits its blob, if it is a change of blocks.
    #[tactic(auto, using(crate::proofs::BlockFits::block_fault_sizes))]
    fn fits_blob(&self, alloc: Global, act: &Act) -> Result<bool, AllocError>
        ensures value { IfOk result (λ answer. answer
            ≡ fits.fits_blob (part_value pieces_len self.now) act.now) }
        ensures memory { IsErr result → IsTrue (fits.commits act.now) }
    {
        match act {
            Act::PutBlock(put) => Ok(self.fits_block(put)),
            Act::PutBlockList(list) => self.fits_list(alloc, list),
            _ => Ok(true),
        }
    }
}

impl Rows {
    // Whether the container of a change takes it, whatever blocks its blobs have.
    fn takes_change(&self, change: &Change) -> bool
        ensures { result
            ≡ ((is_some (part_at self.now change.now.key).standing || fits.creates change.now.act)
            && nat_lt (part_at self.now change.now.key).count count_limit) }
    {
        let key = change.key();
        let act = change.act();
        let exists = self.container(key).is_some();
        (exists || creates(act)) && self.count(key) < u64::MAX
    }

    // Whether a change fits its blob, if it is a change of blocks.
    fn fits_blob(&self, alloc: Global, change: &Change) -> Result<bool, AllocError>
        ensures value { IfOk result (λ answer. answer
            ≡ fits.fits_blob (part_value pieces_len (part_at self.now change.now.key)) change.now.act) }
        ensures memory { IsErr result → IsTrue (fits.commits change.now.act) }
    {
        match self.held(change.key()) {
            Some(container) => container.fits_blob(alloc, change.act()),
            None => Container::none(alloc).fits_blob(alloc, change.act()),
        }
    }

    /// Whether the rows make the change, as `take` and `apply` require it: the container exists or
    /// is created, and takes one more change, a block can be put under its id, and the blocks of a
    /// list exist. Rows of a checkpoint always fit.
    ///
    /// `AllocError` if memory runs out while the blocks of a list are looked up, or if the content of
    /// a block can have no further owner.
    pub fn fits(&self, alloc: Global, change: &Change) -> Result<bool, AllocError>
        ensures fits { IfOk result (λ answer. answer
            ≡ fits.fits (part_value pieces_len (part_at self.now change.now.key)) change.now.act) }
        ensures memory { IsErr result → IsTrue (fits.commits change.now.act) }
    {
        if is_row(change.act()) {
            return Ok(true);
        }
        if !self.takes_change(change) {
            return Ok(false);
        }
        self.fits_blob(alloc, change)
    }
}
