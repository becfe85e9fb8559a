//! How many bytes records have, as docs/formats/records.md lays them out. No record is made.

use row_trees::Found;
use stamp_types::{
    Act, Block, Key, Letters, Metadata, Moment, Pieces, Policies, Policy, Props, Standing,
};

/// How many bytes the version, the kind and the epoch have.
const HEAD_BYTES: u64 = 10;

/// How many bytes say the length of a string, or how many items a list has.
const COUNT_BYTES: u64 = 4;

/// How many bytes a number has, or a moment.
const NUMBER_BYTES: u64 = 8;

/// How many bytes an option has beside its value; so has a level.
const OPTION_BYTES: u64 = 1;

/// How many bytes a piece at a place has.
const PIECE_BYTES: u64 = 21;

/// How many bytes the Base64 of an MD5 has.
const MD5_BYTES: usize = 24;

/// How many bytes an entry of a block list has at most.
const ENTRY_BYTES: u64 = 69;

// A string of so many bytes.
const fn string_len(len: usize) -> u64 {
    COUNT_BYTES.saturating_add(len as u64)
}

/// Metadata.
pub(crate) fn metadata_len(metadata: &Metadata) -> u64 {
    let mut len = COUNT_BYTES;
    for meta in metadata.as_slice() {
        len = len
            .saturating_add(string_len(meta.name.as_str().len()))
            .saturating_add(string_len(meta.value.as_str().len()));
    }
    len
}

// The start or the expiry of a policy.
fn moment_len(moment: Option<Moment>) -> u64 {
    match moment {
        Some(_) => OPTION_BYTES.saturating_add(NUMBER_BYTES),
        None => OPTION_BYTES,
    }
}

// The permissions of a policy.
fn letters_len(letters: Option<Letters>) -> u64 {
    match letters {
        Some(letters) => OPTION_BYTES.saturating_add(string_len(letters.as_str().len())),
        None => OPTION_BYTES,
    }
}

// A stored policy.
fn policy_len(policy: &Policy) -> u64 {
    string_len(policy.id.as_str().len())
        .saturating_add(moment_len(policy.start))
        .saturating_add(moment_len(policy.expiry))
        .saturating_add(letters_len(policy.letters))
}

/// Stored policies.
pub(crate) fn policies_len(policies: &Policies) -> u64 {
    let mut len = COUNT_BYTES;
    for policy in policies.as_slice() {
        len = len.saturating_add(policy_len(policy));
    }
    len
}

// An MD5.
fn md5_len(md5: Option<[u8; 16]>) -> u64 {
    match md5 {
        Some(_) => string_len(MD5_BYTES),
        None => string_len(0),
    }
}

// Kept headers.
fn props_len(props: &Props) -> u64 {
    string_len(props.content_type().as_str().len())
        .saturating_add(string_len(props.encoding().as_str().len()))
        .saturating_add(string_len(props.language().as_str().len()))
        .saturating_add(md5_len(props.md5()))
        .saturating_add(string_len(props.cache_control().as_str().len()))
}

// Content, once it is at places.
fn content_len(content: &Pieces) -> u64 {
    let pieces = content.as_slice().len() as u64;
    COUNT_BYTES.saturating_add(PIECE_BYTES.saturating_mul(pieces))
}

/// A block with an id of so many bytes: 0 bytes if the block has no id.
pub(crate) fn block_len(id_len: usize, content: &Pieces) -> u64 {
    string_len(id_len).saturating_add(content_len(content))
}

// A committed block.
fn committed_block_len(block: &Block<Pieces>) -> u64 {
    match &block.id {
        Some(id) => block_len(id.as_slice().len(), &block.content),
        None => block_len(0, &block.content),
    }
}

/// Committed blocks. Each is taken to be as long as the first, since a list may have 50,000: so it is exact if their ids have one length.
pub(crate) fn blocks_len(blocks: &[Block<Pieces>]) -> u64 {
    match blocks.first() {
        Some(first) => all_blocks_len(committed_block_len(first), blocks.len() as u64),
        None => all_blocks_len(0, 0),
    }
}

/// So many committed blocks, each of which has `each` bytes.
pub(crate) const fn all_blocks_len(each: u64, count: u64) -> u64 {
    COUNT_BYTES.saturating_add(each.saturating_mul(count))
}

/// The one block of content that Put Blob brings.
pub(crate) fn whole_len(content: &Pieces) -> u64 {
    COUNT_BYTES.saturating_add(block_len(0, content))
}

/// A committed part whose blocks have so many bytes.
pub(crate) fn committed_len(props: &Props, metadata: &Metadata, blocks_len: u64) -> u64 {
    NUMBER_BYTES
        .saturating_add(NUMBER_BYTES)
        .saturating_add(props_len(props))
        .saturating_add(metadata_len(metadata))
        .saturating_add(blocks_len)
}

/// What each record of a container has before its fields: version, kind, epoch and key. It is the `head` of the functions below.
pub(crate) fn head_of(key: &Key) -> u64 {
    HEAD_BYTES
        .saturating_add(string_len(key.account.as_str().len()))
        .saturating_add(string_len(key.container.as_str().len()))
}

/// The row of a blob, whose name and whose committed part have so many bytes, without its uncommitted blocks.
pub(crate) const fn blob_len(head: u64, name_len: usize, committed_len: u64) -> u64 {
    head.saturating_add(string_len(name_len))
        .saturating_add(OPTION_BYTES)
        .saturating_add(committed_len)
        .saturating_add(COUNT_BYTES)
}

// The row of a container, with what it has if it exists.
const fn container_len(head: u64, standing_len: u64) -> u64 {
    head.saturating_add(NUMBER_BYTES)
        .saturating_add(OPTION_BYTES)
        .saturating_add(standing_len)
}

// What a container has that exists: two numbers, its level, metadata and policies.
const fn standing_len(metadata_len: u64, policies_len: u64) -> u64 {
    NUMBER_BYTES
        .saturating_add(NUMBER_BYTES)
        .saturating_add(OPTION_BYTES)
        .saturating_add(metadata_len)
        .saturating_add(policies_len)
}

/// The row of a container that was deleted.
pub(crate) const fn deleted_len(head: u64) -> u64 {
    container_len(head, 0)
}

/// The row of a container that has metadata of so many bytes, and no policy.
pub(crate) const fn created_len(head: u64, metadata_len: u64) -> u64 {
    container_len(head, standing_len(metadata_len, COUNT_BYTES))
}

// The row of a container that exists.
fn existing_len(head: u64, standing: &Standing) -> u64 {
    let metadata = metadata_len(&standing.metadata);
    let policies = policies_len(&standing.acl.policies);
    container_len(head, standing_len(metadata, policies))
}

/// The row of a container that was found, without its blobs. 0 if the container never was: it has no row.
pub(crate) fn found_len(head: u64, found: &Found<'_>) -> u64 {
    if found.count() == 0 {
        return 0;
    }
    match found.standing() {
        Some(standing) => existing_len(head, standing),
        None => deleted_len(head),
    }
}

// What the record of an act has after the key.
fn act_len(act: &Act) -> u64 {
    match act {
        Act::CreateContainer(create) => metadata_len(&create.metadata),
        Act::SetContainerMetadata(set) => metadata_len(&set.metadata),
        Act::SetAcl(set) => policies_len(&set.acl.policies),
        Act::PutBlob(put) => string_len(put.blob.as_str().len())
            .saturating_add(props_len(&put.props))
            .saturating_add(metadata_len(&put.metadata))
            .saturating_add(content_len(&put.content)),
        Act::SetMetadata(set) => {
            string_len(set.blob.as_str().len()).saturating_add(metadata_len(&set.metadata))
        }
        Act::DeleteBlob(delete) => string_len(delete.blob.as_str().len()),
        Act::PutBlock(put) => string_len(put.blob.as_str().len()).saturating_add(block_len(
            put.id.as_slice().len(),
            &put.content,
        )),
        Act::PutBlockList(list) => {
            let entries = list.entries.as_slice().len() as u64;
            string_len(list.blob.as_str().len())
                .saturating_add(props_len(&list.props))
                .saturating_add(metadata_len(&list.metadata))
                .saturating_add(COUNT_BYTES)
                .saturating_add(ENTRY_BYTES.saturating_mul(entries))
        }
        _ => 0,
    }
}

/// How many bytes the record of an act has at most, which is not a row of a checkpoint.
pub(crate) fn record_bound(head: u64, act: &Act) -> u64 {
    // a moment and a level
    head.saturating_add(NUMBER_BYTES)
        .saturating_add(OPTION_BYTES)
        .saturating_add(act_len(act))
}
