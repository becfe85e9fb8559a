//! Lists that want all uncommitted blocks in the order of their ids. The blocks of such a list stay in
//! the blob until the commit moves them, so no content gets one more owner.
ghost use Rattle.std.specs.Prelude.{◌≡◌, ◌<◌, ◌≤◌, IfErr, IfOk, MatchOption, None, OnOk, true};
ghost use Rattle.stamp_values.specs.Limits.{blob_limit};
ghost use Rattle.block_blobs.specs.BlockLists as lists;
ghost use Rattle.block_blobs.specs.Faults.{IsFault};
ghost use Rattle.block_blobs.specs.ResolvedLists.{resolved};

use crate::blob_row::BlobRow;
use crate::block_fault::BlockFault;
use crate::found_blocks::FoundBlocks;
use crate::resolved::Resolved;
use stamp_types::{BLOB_LIMIT, BlockId, BlockSource, Items, Lookup, Pieces, Wanted};
use std::alloc::Global;
use std::collections::btree_map::Iter;

// Whether the wanted block is the uncommitted block of this id, if there is one.
fn wants_id(wanted: &Wanted, id: &BlockId) -> bool
    ensures { result ≡ lists.wants_id wanted.now id.now }
{
    match wanted.lookup {
        Lookup::Committed => false,
        Lookup::Latest | Lookup::Uncommitted => wanted.id == *id,
    }
}

// Whether a list wants these uncommitted blocks, and no others, in their order.
#[tactic(auto, using(crate::proofs::WholeLists::same_next, crate::proofs::WholeLists::other_next, crate::proofs::WholeLists::no_block_left, crate::proofs::WholeLists::block_left, crate::proofs::WholeLists::none_left))]
fn wants_each(wanted: &[Wanted], blocks: Iter<'_, BlockId, Pieces>) -> bool
    ensures { result ≡ lists.want_each wanted.now blocks.entry }
{
    let mut left = wanted;
    let mut later = blocks;
    while let [first, rest @ ..] = left {
        let Some((id, _content)) = later.next() else {
            return false;
        };
        if !wants_id(first, id) {
            return false;
        }
        left = rest;
    }
    match later.next() {
        Some(_block) => false,
        None => true,
    }
}

// How many bytes these uncommitted blocks have together, or `None` if they have more than 268,435,456
// bytes.
#[tactic(auto, using(crate::proofs::WholeLists::len_more, crate::proofs::WholeLists::len_none))]
fn len_of(blocks: Iter<'_, BlockId, Pieces>) -> Option<u64>
    ensures { MatchOption result (blob_limit < lists.entries_len blocks.entry)
        (λ n. (n ≡ lists.entries_len blocks.entry) × (n ≤ blob_limit)) }
{
    let mut later = blocks;
    let mut left = BLOB_LIMIT;
    while let Some((_id, content)) = later.next() {
        let len = content.len();
        if len > left {
            return None;
        }
        left -= len;
    }
    Some(BLOB_LIMIT - left)
}

impl BlobRow {
    /// Whether the list wants all uncommitted blocks, at least one, in the order of their ids. Takes
    /// no memory.
    #[tactic(auto, using(crate::proofs::WholeLists::nothing_wanted, crate::proofs::WholeLists::some_wanted))]
    pub(crate) fn wants_all(&self, wanted: &[Wanted]) -> bool
        ensures { result ≡ lists.wants_all self.now wanted.now }
    {
        !wanted.is_empty() && wants_each(wanted, self.uncommitted())
    }

    /// What resolving a list gives that wants all uncommitted blocks in the order of their ids. Only
    /// `TooLarge` and `NoMemory` come.
    #[tactic(auto, using(crate::proofs::WholeLists::all_are_found, crate::proofs::WholeLists::all_fits, crate::proofs::WholeLists::all_too_large))]
    pub(crate) fn resolve_all(
        &self,
        alloc: Global,
        wanted: &[Wanted],
    ) -> Result<Resolved, BlockFault>
        requires { lists.wants_all self.now wanted.now ≡ true }
        ensures value { IfOk result (λ found. found ≡ resolved self.now wanted.now) }
        ensures fits { OnOk result (lists.wanted_fault self.now wanted.now ≡ None) }
        ensures fault { IfErr result (IsFault (lists.wanted_fault self.now wanted.now)) }
    {
        let _count = self.uncommitted_len();
        let Some(len) = len_of(self.uncommitted()) else {
            return Err(BlockFault::TooLarge);
        };
        let blocks = FoundBlocks::all(alloc, wanted.len(), len)?;
        let sources = vec![in alloc; BlockSource::Uncommitted; wanted.len()]?;
        Ok(Resolved {
            sources: Items::new(sources),
            blocks,
        })
    }
}
