//! Committed blocks by their ids.
ghost use Rattle.std.specs.Prelude.{◌≡◌, IfOk, OnOk, map};
ghost use Rattle.std.specs.Option.{option_copied};
ghost use Rattle.std.specs.Map.Iter.{deref_pair};
ghost use Rattle.std.specs.FinMap as finite;
ghost use Rattle.stamp_values.specs.Order.{name_cmp};
ghost use Rattle.block_blobs.specs.FirstBlocks.{entries_with, first_contents};

use stamp_types::{Block, BlockId, Pieces};
use std::alloc::{AllocError, Global};
use std::collections::BTreeMap;

/// The content of the first of the blocks of each id.
pub(crate) type FirstBlocks<'a> = BTreeMap<&'a BlockId, &'a Pieces>;

// Puts content under an id, in the place of what the id had.
fn put<'a>(
    first: &mut FirstBlocks<'a>,
    id: &'a BlockId,
    content: &'a Pieces,
) -> Result<(), AllocError>
    ensures { OnOk result (map deref_pair first.new.entries
        ≡ finite.put name_cmp id.now content.now (map deref_pair first.old.entries)) }
{
    first.insert(id, content)?;
    Ok(())
}

// Puts the content of a block under its id, if it has an id.
fn put_block<'a>(first: &mut FirstBlocks<'a>, block: &'a Block<Pieces>) -> Result<(), AllocError>
    ensures { OnOk result (map deref_pair first.new.entries
        ≡ entries_with block.now.id block.now.content (map deref_pair first.old.entries)) }
{
    if let Some(id) = &block.id {
        put(first, id, &block.content)?;
    }
    Ok(())
}

/// The blocks by their ids. They are inserted from the last to the first, so of blocks of one id the
/// first is kept.
pub(crate) fn first_blocks<'a>(
    alloc: Global,
    blocks: &'a [Block<Pieces>],
) -> Result<FirstBlocks<'a>, AllocError>
    ensures { IfOk result (λ t. map deref_pair t.entries
        ≡ finite.entries (first_contents blocks.now)) }
{
    let mut first = BTreeMap::new(alloc);
    let mut left = blocks.len();
    while left > 0 {
        left -= 1;
        put_block(&mut first, &blocks[left])?;
    }
    Ok(first)
}

/// The content of the first block of an id.
pub(crate) fn first_content<'a>(first: &FirstBlocks<'a>, id: &'a BlockId) -> Option<&'a Pieces>
    ensures { option_copied result
        ≡ finite.find name_cmp id.now (map deref_pair first.now.entries) }
{
    first.get(&id).copied()
}
