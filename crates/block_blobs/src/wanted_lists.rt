//! Lists of wanted blocks: where a Put Block List finds them.
ghost use Rattle.std.specs.Prelude.{◌≡◌, IfOk, IfErr, OnOk, MatchOption, Some, None, false};
ghost use Rattle.std.specs.Option.{option_map};
ghost use Rattle.block_blobs.specs.BlockLists as lists;
ghost use Rattle.block_blobs.specs.Faults.{IsFault};
ghost use Rattle.block_blobs.specs.FirstBlocks.{blocks_of};
ghost use Rattle.block_blobs.specs.ResolvedLists.{resolved};

use crate::blob_row::BlobRow;
use crate::block_fault::BlockFault;
use crate::committed_blocks::CommittedBlocks;
use crate::found_blocks::FoundBlocks;
use crate::lookups::push_unnamed;
use crate::next_blocks::NextBlocks;
use crate::resolved::Resolved;
use stamp_types::{Block, BlockSource, Items, Lookup, Pieces, Taken, Wanted};
use std::alloc::{AllocError, Global};

// Where a block list looks for a block, in this order.
fn sources_of(lookup: Lookup) -> &'static [BlockSource]
    ensures { result.now ≡ lists.sources_of lookup }
{
    match lookup {
        Lookup::Latest => &[BlockSource::Uncommitted, BlockSource::Committed],
        Lookup::Committed => &[BlockSource::Committed],
        Lookup::Uncommitted => &[BlockSource::Uncommitted],
    }
}

/// The entries of wanted blocks that were found in these sources, in their order. The ids move.
///
/// `AllocError` if memory runs out for the list.
#[tactic(auto, unfolding(crate::specs::BlockLists::entries_from))]
pub fn entries_from(
    alloc: Global,
    wanted: Items<Wanted>,
    sources: &[BlockSource],
) -> Result<Items<Taken>, AllocError>
    ensures { IfOk result (λ entries. entries ≡ lists.entries_from wanted sources.now) }
{
    let mut entries = Vec::with_capacity(alloc, sources.len())?;
    let mut next = wanted.into_vec().into_iter();
    let mut left = sources;
    while let [from, rest @ ..] = left {
        let Some(entry) = next.next() else {
            return Ok(Items::new(entries));
        };
        let taken = Taken {
            id: entry.id,
            from: *from,
        };
        entries.push(taken)?;
        left = rest;
    }
    Ok(Items::new(entries))
}

impl BlobRow {
    // Where a wanted block is found, and its content.
    fn find<'a>(
        &'a self,
        alloc: Global,
        committed: &mut CommittedBlocks<'a>,
        next: &mut NextBlocks<'a>,
        wanted: &'a Wanted,
    ) -> Result<Option<(BlockSource, &'a Pieces)>, AllocError>
        requires committed { committed.old ≡ blocks_of self.now.committed }
        requires uncommitted { next.old ≡ self.now.uncommitted }
        ensures found { IfOk result (λ found. MatchOption found
            (lists.source_of self.now wanted.now ≡ None)
            (λ found. (lists.source_of self.now wanted.now ≡ Some found.0)
            × (lists.found_content self.now wanted.now ≡ Some found.1.now))) }
        ensures same_committed { committed.new ≡ committed.old }
        ensures same { next.new ≡ next.old }
    {
        let sources = sources_of(wanted.lookup);
        for source in sources {
            if let Some(content) = self.content(alloc, committed, next, *source, &wanted.id)? {
                return Ok(Some((*source, content)));
            }
        }
        Ok(None)
    }

    // Where each wanted block is found, in their order, and the blocks without their ids. `NotFound`
    // with the position of the first that is not found. The content of each block has one more owner.
    fn found<'a>(
        &'a self,
        alloc: Global,
        wanted: &'a [Wanted],
    ) -> Result<(Vec<BlockSource>, Vec<Block<Pieces>>), BlockFault>
        ensures sources { IfOk result (λ p.
            p.0.items ≡ lists.found_sources self.now wanted.now) }
        ensures blocks { IfOk result (λ p. p.1.items ≡ lists.found_blocks self.now wanted.now) }
        ensures all { OnOk result (lists.first_missing self.now wanted.now ≡ None) }
        ensures missing { IfErr result
            (IsFault (option_map BlockFault.NotFound (lists.first_missing self.now wanted.now))) }
    {
        let mut sources = Vec::with_capacity(alloc, wanted.len())?;
        let mut blocks = Vec::with_capacity(alloc, wanted.len())?;
        let mut committed = CommittedBlocks::new(self.committed_blocks());
        let mut next = NextBlocks::new(self.uncommitted_blocks());
        for (position, entry) in wanted.iter().enumerate() {
            let Some((from, content)) = self.find(alloc, &mut committed, &mut next, entry)? else {
                return Err(BlockFault::NotFound(position));
            };
            push_unnamed(&mut blocks, content)?;
            sources.push(from)?;
        }
        Ok((sources, blocks))
    }

    // What resolving a list gives that does not want all uncommitted blocks in the order of their ids.
    // The content of each block has one more owner. The faults are those of `resolve`.
    #[tactic(auto, using(crate::proofs::UnnamedBlocks::found_len, crate::proofs::WholeLists::each_are_found))]
    fn resolve_each<'a>(
        &'a self,
        alloc: Global,
        wanted: &'a [Wanted],
    ) -> Result<Resolved, BlockFault>
        requires { lists.wants_all self.now wanted.now ≡ false }
        ensures value { IfOk result (λ found. found ≡ resolved self.now wanted.now) }
        ensures fits { OnOk result (lists.wanted_fault self.now wanted.now ≡ None) }
        ensures fault { IfErr result (IsFault (lists.wanted_fault self.now wanted.now)) }
    {
        let (sources, blocks) = self.found(alloc, wanted)?;
        let blocks = FoundBlocks::new(blocks, wanted.len())?;
        Ok(Resolved {
            sources: Items::new(sources),
            blocks,
        })
    }

    /// Where the block of each entry of a Put Block List is found, in their order, and the blocks
    /// ("Put Block List"). Of committed blocks of one id the first counts. Content of a Put Blob has no
    /// id and is never found. The content of each block has one more owner, unless the list wants all
    /// uncommitted blocks in the order of their ids: these stay in the blob until the commit.
    ///
    /// `NotFound` with the position of the first entry whose block is not found, or else `TooMany`
    /// for more than 50,000 entries, or else `TooLarge` if the blocks found, each as often as it is
    /// listed, have more than 268,435,456 bytes together. `NoMemory` if memory runs out, or if content
    /// can have no further owner.
    pub fn resolve<'a>(
        &'a self,
        alloc: Global,
        wanted: &'a [Wanted],
    ) -> Result<Resolved, BlockFault>
        ensures value { IfOk result (λ found. found ≡ resolved self.now wanted.now) }
        ensures fits { OnOk result (lists.wanted_fault self.now wanted.now ≡ None) }
        ensures fault { IfErr result (IsFault (lists.wanted_fault self.now wanted.now)) }
    {
        if self.wants_all(wanted) {
            self.resolve_all(alloc, wanted)
        } else {
            self.resolve_each(alloc, wanted)
        }
    }
}
