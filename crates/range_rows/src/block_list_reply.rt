//! Replies to Get Block List.
ghost use Rattle.std.specs.Prelude.{◌≡◌, ◌∷◌, ◌++◌, IfOk, None, OnOk, Some, map};
ghost use Rattle.stamp_values.specs.Maps.{map_values};
ghost use Rattle.stamp_types.specs.Pieces.{pieces_len};
ghost use Rattle.stamp_types.specs.Replies.{xml_header};
ghost use Rattle.stamp_types.specs.World.{block_value, blob_value};
ghost use Rattle.body_forms.specs.WrittenLists.{block_list_text, block_view};
ghost use Rattle.row_trees.specs.FoundParts.{sized};
ghost use Rattle.range_rows.specs.Frames as frames;
ghost use Rattle.range_rows.specs.ShownBlocks as shown;

use crate::frames::push_dates;
use block_blobs::BlobRow;
use body_forms::{ListedBlock, write_block_list};
use row_trees::FoundBlob;
use stamp_types::{Block, BlockKinds, Header, Pieces, Reply, Visible, text_reply};
use std::alloc::{AllocError, Global};

// Puts a committed block after the list, if the block has an id.
fn push_block<'a>(
    list: &mut Vec<ListedBlock<'a>>,
    block: &'a Block<Pieces>,
) -> Result<(), AllocError>
    ensures { OnOk result (map block_view list.new.items
        ≡ map block_view list.old.items ++ shown.listed_block (block_value pieces_len block.now)) }
{
    if let Some(id) = &block.id {
        let len = block.content.len();
        list.push(ListedBlock { id, len })?;
    }
    Ok(())
}

// The blocks that have an id, in their order.
fn named_blocks(alloc: Global, blocks: &[Block<Pieces>]) -> Result<Vec<ListedBlock<'_>>, AllocError>
    ensures { IfOk result (λ list. map block_view list.items
        ≡ shown.shown_blocks (map (block_value pieces_len) blocks.now)) }
{
    let mut list = Vec::with_capacity(alloc, blocks.len())?;
    let mut left = blocks;
    while let [first, rest @ ..] = left {
        push_block(&mut list, first)?;
        left = rest;
    }
    Ok(list)
}

// The committed blocks that have an id, in their order.
fn committed_blocks(alloc: Global, blob: &BlobRow) -> Result<Vec<ListedBlock<'_>>, AllocError>
    ensures { IfOk result (λ list. map block_view list.items
        ≡ shown.listed_committed (sized blob.now.committed)) }
{
    match blob.committed() {
        Some(committed) => named_blocks(alloc, committed.blocks.as_slice()),
        None => Ok(Vec::new(alloc)),
    }
}

// The uncommitted blocks, in the order of their ids.
fn uncommitted_blocks(alloc: Global, blob: &BlobRow) -> Result<Vec<ListedBlock<'_>>, AllocError>
    ensures { IfOk result (λ list. map block_view list.items
        ≡ shown.listed_uncommitted (map_values pieces_len blob.now.uncommitted)) }
{
    let mut list = Vec::with_capacity(alloc, blob.uncommitted_len())?;
    for (id, content) in blob.uncommitted() {
        let len = content.len();
        list.push(ListedBlock { id, len })?;
    }
    Ok(list)
}

fn committed_text(alloc: Global, blob: &BlobRow) -> Result<Vec<u8>, AllocError>
    ensures { IfOk result (λ text. text.items
        ≡ block_list_text (Some (shown.listed_committed (sized blob.now.committed))) None) }
{
    let committed = committed_blocks(alloc, blob)?;
    write_block_list(alloc, Some(&committed), None)
}

fn uncommitted_text(alloc: Global, blob: &BlobRow) -> Result<Vec<u8>, AllocError>
    ensures { IfOk result (λ text. text.items ≡ block_list_text None
        (Some (shown.listed_uncommitted (map_values pieces_len blob.now.uncommitted)))) }
{
    let uncommitted = uncommitted_blocks(alloc, blob)?;
    write_block_list(alloc, None, Some(&uncommitted))
}

fn text_of_all(alloc: Global, blob: &BlobRow) -> Result<Vec<u8>, AllocError>
    ensures { IfOk result (λ text. text.items
        ≡ block_list_text (Some (shown.listed_committed (sized blob.now.committed)))
        (Some (shown.listed_uncommitted (map_values pieces_len blob.now.uncommitted)))) }
{
    let committed = committed_blocks(alloc, blob)?;
    let uncommitted = uncommitted_blocks(alloc, blob)?;
    write_block_list(alloc, Some(&committed), Some(&uncommitted))
}

// The block lists of these kinds. A list that is not shown is not made.
fn list_text(
    alloc: Global,
    kinds: Option<BlockKinds>,
    blob: &BlobRow,
) -> Result<Vec<u8>, AllocError>
    ensures { IfOk result (λ text.
        text.items ≡ shown.list_text kinds (blob_value pieces_len blob.now)) }
{
    match kinds {
        Some(BlockKinds::Uncommitted) => uncommitted_text(alloc, blob),
        Some(BlockKinds::All) => text_of_all(alloc, blob),
        Some(BlockKinds::Committed) | None => committed_text(alloc, blob),
    }
}

// The headers of the reply: the type of its body, and the size of the committed part, which change
// wrote it, and when, if the blob has one.
#[tactic(auto, using(crate::proofs::AnswerLemmas::sizes_of_blocks))]
fn list_headers(alloc: Global, blob: &BlobRow) -> Result<Vec<Header>, AllocError>
    ensures { IfOk result (λ headers. headers.items
        ≡ xml_header ∷ frames.committed_headers (sized blob.now.committed)) }
{
    let mut headers = Vec::with_capacity(alloc, 4)?;
    headers.push(Header::ContentType(Visible::xml(alloc)?))?;
    if let Some(committed) = blob.committed() {
        headers.push(Header::BlobLength(blob.len()))?;
        push_dates(&mut headers, committed.etag, committed.made)?;
    }
    Ok(headers)
}

// The reply to Get Block List of these kinds, from the row of the blob.
fn row_reply(alloc: Global, kinds: Option<BlockKinds>, blob: &BlobRow) -> Result<Reply, AllocError>
    ensures { IfOk result (λ reply.
        reply ≡ frames.list_frame kinds (blob_value pieces_len blob.now)) }
{
    let headers = list_headers(alloc, blob)?;
    let text = list_text(alloc, kinds, blob)?;
    let reply = text_reply(alloc, headers, text)?;
    Ok(reply)
}

/// The reply to Get Block List of these kinds: committed blocks are shown if a request asks for no
/// kinds. A blob without a row is listed with no block.
///
/// `AllocError` if memory runs out.
pub(crate) fn list_reply(
    alloc: Global,
    kinds: Option<BlockKinds>,
    blob: &FoundBlob<'_>,
) -> Result<Reply, AllocError>
    ensures { IfOk result (λ reply.
        reply ≡ frames.list_frame kinds (blob_value pieces_len blob.now)) }
{
    match blob.row() {
        Some(row) => row_reply(alloc, kinds, row),
        None => row_reply(alloc, kinds, &BlobRow::new(alloc)),
    }
}
