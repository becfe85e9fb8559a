//! Tests of whether the parts of a change fit its act.
ghost use Rattle.std.specs.Prelude.{◌≡◌, ◌↔◌, ◌≤◌, ◌==◌, IsTrue, length, is_some};
ghost use Rattle.std.specs.List.{list_all};
ghost use Rattle.stamp_values.specs.Limits.{blob_limit};
ghost use Rattle.stamp_values.specs.Names as names;
ghost use Rattle.stamp_types.specs.Changes.{is_in_one_piece, is_block, has_ids_or_one, blocks_len, are_blocks, is_committed, is_id_before_next, has_rising_ids, has_ids_of_one_length, are_uncommitted, is_stored_blob, is_act, is_change};

use crate::act::{Act, StoredBlob};
use crate::committed::{Block, Committed, UncommittedBlock};
use crate::pieces::Pieces;
use stamp_values::{
    BLOB_LIMIT, ENTRIES_LIMIT, Key, Text, UNCOMMITTED_LIMIT, account_ok, container_ok, is_blob,
};

fn is_in_one_piece(content: &Pieces) -> bool
    ensures { result ≡ is_in_one_piece content.now }
{
    content.as_slice().len() <= 1
}

fn is_block(block: &Block<Pieces>) -> bool
    ensures { result ≡ is_block block.now }
{
    block.id.is_none() || is_in_one_piece(&block.content)
}

fn are_each_block(blocks: &[Block<Pieces>]) -> bool
    ensures { result ≡ list_all is_block blocks.now }
{
    blocks.iter().all(|block| is_block(block))
}

fn have_ids(blocks: &[Block<Pieces>]) -> bool
    ensures { result ≡ list_all (λ b. is_some b.id) blocks.now }
{
    blocks.iter().all(|block| block.id.is_some())
}

fn has_ids_or_one(blocks: &[Block<Pieces>]) -> bool
    ensures { result ≡ has_ids_or_one blocks.now }
{
    blocks.len() == 1 || have_ids(blocks)
}

// Whether the blocks have at most 268,435,456 bytes together.
fn are_short(blocks: &[Block<Pieces>]) -> bool
    ensures { IsTrue result ↔ (blocks_len blocks.now ≤ blob_limit) }
{
    let mut left = BLOB_LIMIT;
    for block in blocks {
        let count = block.content.len();
        if count > left {
            return false;
        }
        left -= count;
    }
    true
}

fn are_blocks(blocks: &[Block<Pieces>]) -> bool
    ensures { result ≡ are_blocks blocks.now }
{
    blocks.len() <= ENTRIES_LIMIT
        && are_each_block(blocks)
        && has_ids_or_one(blocks)
        && are_short(blocks)
}

fn is_committed(committed: &Option<Committed<Pieces>>) -> bool
    ensures { result ≡ is_committed committed.now }
{
    match committed {
        None => true,
        Some(committed) => are_blocks(committed.blocks.as_slice()),
    }
}

fn is_id_before_next(block: &UncommittedBlock, rest: &[UncommittedBlock]) -> bool
    ensures { result ≡ is_id_before_next block.now rest.now }
{
    match rest {
        [] => true,
        [next, ..] => block.id.cmp(&next.id).is_lt(),
    }
}

fn has_rising_ids(blocks: &[UncommittedBlock]) -> bool
    ensures { result ≡ has_rising_ids blocks.now }
{
    let mut left = blocks;
    while let [first, rest @ ..] = left {
        if !is_id_before_next(first, rest) {
            return false;
        }
        left = rest;
    }
    true
}

fn have_ids_of_length(blocks: &[UncommittedBlock], count: usize) -> bool
    ensures { result ≡ list_all (λ u. length u.id == count) blocks.now }
{
    blocks
        .iter()
        .all(|block| block.id.as_slice().len() == count)
}

fn has_ids_of_one_length(blocks: &[UncommittedBlock]) -> bool
    ensures { result ≡ has_ids_of_one_length blocks.now }
{
    match blocks {
        [] => true,
        [first, rest @ ..] => have_ids_of_length(rest, first.id.as_slice().len()),
    }
}

fn are_in_one_piece(blocks: &[UncommittedBlock]) -> bool
    ensures { result ≡ list_all (λ u. is_in_one_piece u.content) blocks.now }
{
    blocks.iter().all(|block| is_in_one_piece(&block.content))
}

fn are_uncommitted(blocks: &[UncommittedBlock]) -> bool
    ensures { result ≡ are_uncommitted blocks.now }
{
    blocks.len() <= UNCOMMITTED_LIMIT
        && are_in_one_piece(blocks)
        && has_rising_ids(blocks)
        && has_ids_of_one_length(blocks)
}

fn is_blob_name(blob: &Text) -> bool
    ensures { result ≡ names.is_blob blob.now }
{
    is_blob(blob.as_str().as_bytes())
}

fn is_stored_blob(row: &StoredBlob) -> bool
    ensures { result ≡ is_stored_blob row.now }
{
    is_blob_name(&row.blob)
        && (row.committed.is_some() || !row.uncommitted.as_slice().is_empty())
        && is_committed(&row.committed)
        && are_uncommitted(row.uncommitted.as_slice())
}

fn is_act(act: &Act) -> bool
    ensures { result ≡ is_act act.now }
{
    match act {
        Act::CreateContainer(_) => true,
        Act::SetContainerMetadata(_) => true,
        Act::SetAcl(_) => true,
        Act::DeleteContainer => true,
        Act::PutBlob(put) => is_blob_name(&put.blob),
        Act::SetMetadata(set) => is_blob_name(&set.blob),
        Act::DeleteBlob(delete) => is_blob_name(&delete.blob),
        Act::PutBlock(put) => is_blob_name(&put.blob) && is_in_one_piece(&put.content),
        Act::PutBlockList(put) => is_blob_name(&put.blob)
            && put.entries.as_slice().len() <= ENTRIES_LIMIT,
        Act::ContainerRow(row) => row.count >= 1,
        Act::StoredBlob(row) => is_stored_blob(row),
    }
}

/// Whether the names of the account and of the container are good, and the act is good.
pub(crate) fn is_change(key: &Key, act: &Act) -> bool
    ensures { result ≡ is_change (record { key = key.now; act = act.now }) }
{
    account_ok(key.account.as_str().as_bytes())
        && container_ok(key.container.as_str().as_bytes())
        && is_act(act)
}
