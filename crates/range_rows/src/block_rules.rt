//! The rules of the object on blocks.
ghost use Rattle.std.specs.Prelude.{◌≡◌, ℕ, IfOk, IsErr};
ghost use Rattle.std.specs.Option.{option_and_then};
ghost use Rattle.stamp_values.specs.declared.op.Op.TheVariants as op;
ghost use Rattle.stamp_types.specs.Pieces.{pieces_len};
ghost use Rattle.stamp_types.specs.World.{Part, blob_value};
ghost use Rattle.block_blobs.specs.BlockLists.{wanted_fault};
ghost use Rattle.block_blobs.specs.ResolvedLists.{resolved};
ghost use Rattle.block_blobs.specs.UncommittedBlocks.{block_fault};
ghost use Rattle.range_rows.specs.CauseGroups as groups;
ghost use Rattle.range_rows.specs.JudgedBlocks.{blocks_by, nothing_resolved};
ghost use Rattle.range_rows.specs.NamedBlobs.{target_blob};
ghost use Rattle.range_rows.specs.Readings.{reading_of, wanted_blocks};

use crate::object_rules::refused;
use crate::reading::Reading;
use block_blobs::{BlockFault, FoundBlocks, Resolved};
use row_trees::FoundBlob;
use stamp_types::{Ask, Code, Items, Refusal, Request, Rule, Wanted};
use std::alloc::{AllocError, Global};

/// What was found of the blocks that a request wants, or the refusal because of blocks.
#[derive(Drop)]
pub(crate) enum Blocks {
    Refused(Refusal),
    Found(Resolved),
}

// What was found of the blocks that a block list wants of the blob, or the refusal of the list.
fn judged_list(alloc: Global, seen: &FoundBlob<'_>, wanted: &[Wanted]) -> Result<Blocks, AllocError>
    ensures { IfOk result (λ blocks.
        blocks ≡ blocks_by (groups.list_refusal (wanted_fault seen.now wanted.now))
        (resolved seen.now wanted.now)) }
{
    let refusal = match seen.resolve(alloc, wanted) {
        Ok(found) => return Ok(Blocks::Found(found)),
        Err(BlockFault::NotFound(_)) => refused(Rule::O5, Code::InvalidBlockList),
        Err(BlockFault::TooMany) => refused(Rule::O6, Code::BlockListTooLong),
        Err(BlockFault::TooLarge) => refused(Rule::O6, Code::RequestBodyTooLarge),
        Err(BlockFault::NoMemory) => return Err(AllocError),
        Err(BlockFault::Id | BlockFault::Length) => unreachable!(
            "only a new block has a fault of its id"
        ),
    };
    Ok(Blocks::Refused(refusal))
}

// The refusal of a request that puts a block into the blob, because of the id of the block.
fn id_refusal(seen: &FoundBlob<'_>, ask: &Ask) -> Option<Refusal>
    ensures { result ≡ groups.id_refusal
        (option_and_then (λ id. block_fault id seen.now.uncommitted) ask.now.args.block) }
{
    match &ask.args.block {
        Some(id) => match seen.block_fault(id) {
            Some(BlockFault::Length) => Some(refused(Rule::O6, Code::InvalidBlobOrBlock)),
            Some(BlockFault::TooMany) => Some(refused(Rule::O6, Code::BlockCountExceedsLimit)),
            _ => None,
        },
        None => None,
    }
}

// That nothing was found, or the refusal of a request that wants no blocks, because of the id of the
// block that it puts.
fn judged_id(alloc: Global, seen: &FoundBlob<'_>, ask: &Ask) -> Blocks
    ensures { result ≡ blocks_by (groups.id_refusal
        (option_and_then (λ id. block_fault id seen.now.uncommitted) ask.now.args.block)) nothing_resolved }
{
    match id_refusal(seen, ask) {
        Some(refusal) => Blocks::Refused(refusal),
        None => Blocks::Found(Resolved {
            sources: Items::new(Vec::new(alloc)),
            blocks: FoundBlocks::nothing(alloc),
        }),
    }
}

/// What was found of the blocks that the request wants; or the refusal because of them, or because of
/// the id of the block that the request puts. Only the blocks of a Put Block List are looked up.
///
/// `AllocError` if memory runs out for the look-ups, or if the content of a block can have no further
/// owner.
pub(crate) fn judged_blocks(
    alloc: Global,
    request: &Request,
    reading: &Reading,
    seen: &FoundBlob<'_>,
) -> Result<Blocks, AllocError>
    requires { reading.now ≡ reading_of request.now }
    ensures judged { IfOk result (λ blocks. (p : Part ℕ)
        → blob_value pieces_len seen.now ≡ target_blob p request.now.ask
        → blocks ≡ blocks_by (groups.group_refusal groups.block_causes p request.now)
        (resolved seen.now (wanted_blocks request.now))) }
    ensures memory { IsErr result → request.now.ask.op ≡ op.PutBlockList }
{
    let ask = request.ask();
    match reading {
        Reading::BlockList(wanted) => {
            let blocks = judged_list(alloc, seen, wanted.as_slice())?;
            Ok(blocks)
        }
        _ => Ok(judged_id(alloc, seen, ask)),
    }
}
