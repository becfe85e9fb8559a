//! How many bytes the streams have, and to how many of them something refers. No answer depends on these numbers.
ghost use Rattle.std.specs.Prelude.{◌≡◌};

use crate::cursor::Cursor;
use crate::record_len::{
    all_blocks_len, blob_len, block_len, blocks_len, committed_len, created_len, deleted_len,
    found_len, head_of, metadata_len, policies_len, record_bound, whole_len,
};
use crate::sweep::Sweep;
use block_blobs::{FoundBlocks, ListContent};
use partition_stream::TakeFault;
use row_trees::{Found, FoundBlob, Rows};
use stamp_types::{Act, Change, Committed, Key, Pieces, PutBlob, PutBlockList, StoredBlob, Text};
use std::alloc::Global;

/// How many bytes of memory a record takes beside its own, with those that its content takes beside its bytes: three replicas list a block,
/// and its owners are counted. So many short records are not kept for long either.
const BESIDE_BYTES: u64 = 256;

/// How many bytes more than a third of those that exist streams may have to which nothing refers: 16 MiB.
const SPARED_BYTES: u64 = 16_777_216;

/// How many bytes more than a sixteenth of those that exist streams may have to which nothing refers if memory is short: 1 MiB.
const LITTLE_BYTES: u64 = 1_048_576;

/// What exists of a blob, of a container or of all rows.
#[derive(Clone, Copy)]
pub(crate) struct Size {
    // the records of a checkpoint, without uncommitted blocks
    rows: u64,
    // the uncommitted blocks in these records
    entries: u64,
    // committed content
    committed: u64,
    // the content of uncommitted blocks
    pending: u64,
}

impl Size {
    pub(crate) const fn none() -> Self {
        Self::of_rows(0)
    }

    // A record of a checkpoint, or a part of one.
    const fn of_rows(rows: u64) -> Self {
        Self {
            rows,
            entries: 0,
            committed: 0,
            pending: 0,
        }
    }

    pub(crate) const fn and(self, other: Self) -> Self {
        Self {
            rows: self.rows.saturating_add(other.rows),
            entries: self.entries.saturating_add(other.entries),
            committed: self.committed.saturating_add(other.committed),
            pending: self.pending.saturating_add(other.pending),
        }
    }

    const fn without(self, other: Self) -> Self {
        Self {
            rows: self.rows.saturating_sub(other.rows),
            entries: self.entries.saturating_sub(other.entries),
            committed: self.committed.saturating_sub(other.committed),
            pending: self.pending.saturating_sub(other.pending),
        }
    }

    // The uncommitted blocks.
    const fn blocks(self) -> Self {
        Self {
            rows: 0,
            committed: 0,
            ..self
        }
    }

    /// How many bytes of content.
    pub(crate) const fn content(self) -> u64 {
        self.committed.saturating_add(self.pending)
    }

    /// How many bytes the records have, with those that they take beside their own.
    const fn records(self) -> u64 {
        self.rows.saturating_add(self.entries)
    }
}

/// How many bytes a change brings, frees and adds, as the rows are before it. No answer depends on these numbers.
#[derive(Clone, Copy)]
pub struct ChangeWeight {
    // the content that it brings
    content: u64,
    // what it takes away
    freed: Size,
    // what it adds
    added: Size,
}

/// What the streams have, and what exists of it.
///
/// What was written is counted exactly, but for a record that was not logged, or of which nobody knows whether it was: it counts as if it
/// had been written. A row that a sweep writes counts once it is logged. All that exists is counted exactly too, with two exceptions. An
/// uncommitted block counts only once the rows were counted or a sweep came to its row, and as it was then. The committed blocks of a list
/// are each taken to be as long in their row as the first. So what is wasted is rather counted too high.
#[derive(Clone, Copy)]
pub(crate) struct Waste {
    // the content that was put into the data
    content: u64,
    // the records of the log and of the rows
    records: u64,
    existing: Size,
}

impl Waste {
    pub(crate) const fn none() -> Self {
        Self {
            content: 0,
            records: 0,
            existing: Size::none(),
        }
    }

    /// Whether the bytes to which nothing refers are more than a third of those that exist and 16 MiB.
    pub(crate) const fn is_wasteful(self) -> bool {
        let existing = self
            .existing
            .content()
            .saturating_add(self.existing.records());
        let written = self.content.saturating_add(self.records);
        written.saturating_sub(existing) > (existing / 3).saturating_add(SPARED_BYTES)
    }

    /// Whether the bytes to which nothing refers are more than 1 MiB and a sixteenth of those that exist: so much is collected if memory is
    /// short. With a lower bound each deletion of a small blob would have all rows written again.
    pub(crate) const fn has_garbage(self) -> bool {
        let existing = self
            .existing
            .content()
            .saturating_add(self.existing.records());
        let written = self.content.saturating_add(self.records);
        written.saturating_sub(existing) > (existing / 16).saturating_add(LITTLE_BYTES)
    }

    /// After a change was taken, was not taken, or is in doubt. Its record has `written` bytes.
    pub(crate) fn after(
        self,
        weight: ChangeWeight,
        written: u64,
        taken: Result<(), TakeFault>,
    ) -> Self {
        let added = match taken {
            Ok(()) => weight.added,
            Err(_) => Size::none(),
        };
        let freed = match taken {
            Ok(()) | Err(TakeFault::Doubt) => weight.freed,
            Err(_) => Size::none(),
        };
        Self {
            content: self.content.saturating_add(weight.content),
            records: self
                .records
                .saturating_add(written)
                .saturating_add(BESIDE_BYTES),
            existing: self.existing.without(freed).and(added),
        }
    }

    /// After the rows were counted.
    const fn counted(self, existing: Size) -> Self {
        Self { existing, ..self }
    }

    /// After the log and the rows were written anew: their records are those of the rows.
    pub(crate) const fn after_checkpoint(self) -> Self {
        Self {
            records: self.existing.records(),
            ..self
        }
    }

    /// After a sweep began. It counts the uncommitted blocks anew, each as it comes to their row.
    pub(crate) const fn at_mark(self) -> Self {
        Self {
            existing: Size {
                entries: 0,
                pending: 0,
                ..self.existing
            },
            ..self
        }
    }

    /// After a row of this size was written again before the sweep came to it: it comes to the row later, and counts its blocks then.
    pub(crate) const fn after_touch(self, row: Size) -> Self {
        Self {
            content: self.content.saturating_add(row.content()),
            records: self.records.saturating_add(row.records()),
            ..self
        }
    }

    /// After a sweep came to a row of this size, and wrote it again.
    pub(crate) const fn after_row(self, row: Size) -> Self {
        Self {
            existing: self.existing.and(row.blocks()),
            ..self.after_touch(row)
        }
    }

    /// After what was written before a sweep began is given up.
    pub(crate) const fn after_sweep(self, began: Self) -> Self {
        Self {
            content: self.content.saturating_sub(began.content),
            records: self.records.saturating_sub(began.records),
            ..self
        }
    }
}

// The uncommitted blocks of a blob, and its content.
fn content_size(blob: &FoundBlob<'_>) -> Size {
    let mut size = Size {
        committed: blob.len(),
        ..Size::none()
    };
    let Some(row) = blob.row() else {
        return size;
    };
    for (id, content) in row.uncommitted() {
        size = size.and(Size {
            entries: block_len(id.as_slice().len(), content),
            pending: content.len(),
            ..Size::none()
        });
    }
    size
}

// How many bytes the committed part of a blob has in its row.
fn committed_part(committed: Option<&Committed<Pieces>>) -> u64 {
    match committed {
        Some(committed) => committed_len(
            &committed.props,
            &committed.metadata,
            blocks_len(committed.blocks.as_slice()),
        ),
        None => 0,
    }
}

// What exists of a blob whose name has so many bytes.
fn blob_size(head: u64, name_len: usize, blob: &FoundBlob<'_>) -> Size {
    if blob.row().is_none() {
        return Size::none();
    }
    let row = blob_len(head, name_len, committed_part(blob.committed()));
    content_size(blob).and(Size::of_rows(row))
}

// What exists of a container with all its blobs.
fn container_size(alloc: Global, head: u64, found: &Found<'_>) -> Size {
    let mut size = Size::of_rows(found_len(head, found));
    for (name, blob) in found.blobs_from(&Vec::new(alloc)) {
        size = size.and(blob_size(head, name.len(), &blob));
    }
    size
}

// What each row of a container takes before its fields.
fn row_head(key: &Key) -> u64 {
    BESIDE_BYTES.saturating_add(head_of(key))
}

/// The size of the own row of a container.
pub(crate) fn container_row_size(key: &Key, found: &Found<'_>) -> Size {
    Size::of_rows(found_len(row_head(key), found))
}

// The committed part of the row of a blob.
fn committed_size(row: &StoredBlob) -> Size {
    let mut size = Size::none();
    let Some(committed) = &row.committed else {
        return size;
    };
    for block in committed.blocks.as_slice() {
        size = size.and(Size {
            committed: block.content.len(),
            ..Size::none()
        });
    }
    size
}

/// The size of the row of a blob that is written again: what exists of the blob.
pub(crate) fn blob_row_size(key: &Key, row: &StoredBlob) -> Size {
    let committed = committed_part(row.committed.as_ref());
    let len = blob_len(row_head(key), row.blob.as_str().len(), committed);
    let mut size = committed_size(row).and(Size::of_rows(len));
    for block in row.uncommitted.as_slice() {
        size = size.and(Size {
            entries: block_len(block.id.as_slice().len(), &block.content),
            pending: block.content.len(),
            ..Size::none()
        });
    }
    size
}

// The uncommitted blocks of a container in rows that the cursor has not passed.
fn blocks_beyond(alloc: Global, key: &Key, found: &Found<'_>, cursor: &Cursor) -> Size {
    let mut size = Size::none();
    for (name, blob) in found.blobs_from(&Vec::new(alloc)) {
        if !cursor.is_past_blob(key, name) {
            size = size.and(content_size(&blob).blocks());
        }
    }
    size
}

// The uncommitted blocks of a container that a sweep counts when it comes to their rows, if a sweep is under way.
fn blocks_left(alloc: Global, key: &Key, found: &Found<'_>, sweep: &Option<Sweep>) -> Size {
    match sweep {
        Some(under_way) => blocks_beyond(alloc, key, found, &under_way.cursor),
        None => Size::none(),
    }
}

// The size of all containers, without the blocks that a sweep counts later.
fn rows_size(alloc: Global, rows: &Rows, sweep: &Option<Sweep>) -> Size {
    let first = Key {
        account: Text::empty(alloc),
        container: Text::empty(alloc),
    };
    let mut size = Size::none();
    for (key, found) in rows.containers_from(&first) {
        let whole = container_size(alloc, row_head(key), &found);
        size = size.and(whole.without(blocks_left(alloc, key, &found, sweep)));
    }
    size
}

/// Counts what exists in the rows, if they are in memory. Takes time with their number. If a sweep is under way, the uncommitted blocks to whose rows it
/// has not come are left out: it counts them when it comes to their rows.
pub(crate) fn recounted(
    alloc: Global,
    waste: Waste,
    rows: &Option<Rows>,
    sweep: &Option<Sweep>,
) -> Waste {
    match rows {
        Some(rows) => waste.counted(rows_size(alloc, rows, sweep)),
        None => waste,
    }
}

// How many bytes the metadata of a container has, if the container exists.
fn container_metadata(found: &Found<'_>) -> u64 {
    match found.standing() {
        Some(standing) => metadata_len(&standing.metadata),
        None => 0,
    }
}

// How many bytes the policies of a container have, if the container exists.
fn container_policies(found: &Found<'_>) -> u64 {
    match found.standing() {
        Some(standing) => policies_len(&standing.acl.policies),
        None => 0,
    }
}

// How many bytes the metadata of a blob has, if the blob has a committed part.
fn blob_metadata(blob: &FoundBlob<'_>) -> u64 {
    match blob.committed() {
        Some(committed) => metadata_len(&committed.metadata),
        None => 0,
    }
}

// The size of a blob of this name.
fn named_size(head: u64, name: &Text, blob: &FoundBlob<'_>) -> Size {
    blob_size(head, name.as_str().len(), blob)
}

// The part of a container and of its named blob that an act takes away or replaces.
fn freed_by(
    alloc: Global,
    head: u64,
    container: &Found<'_>,
    blob: &FoundBlob<'_>,
    act: &Act,
) -> Size {
    match act {
        Act::CreateContainer(_) => Size::of_rows(found_len(head, container)),
        Act::SetContainerMetadata(_) => Size::of_rows(container_metadata(container)),
        Act::SetAcl(_) => Size::of_rows(container_policies(container)),
        Act::DeleteContainer => container_size(alloc, head, container),
        Act::PutBlob(put) => named_size(head, &put.blob, blob),
        Act::SetMetadata(_) => Size::of_rows(blob_metadata(blob)),
        Act::DeleteBlob(delete) => named_size(head, &delete.blob, blob),
        Act::PutBlockList(list) => named_size(head, &list.blob, blob),
        _ => Size::none(),
    }
}

// What exists of a blob after Put Blob.
fn put_size(head: u64, put: &PutBlob) -> Size {
    let committed = committed_len(&put.props, &put.metadata, whole_len(&put.content));
    Size {
        committed: put.content.len(),
        ..Size::of_rows(blob_len(head, put.blob.as_str().len(), committed))
    }
}

// The row that the first block of a blob makes, without the block.
fn first_block(head: u64, name: &Text, blob: &FoundBlob<'_>) -> Size {
    if blob.row().is_some() {
        return Size::none();
    }
    Size::of_rows(blob_len(head, name.as_str().len(), 0))
}

// How many bytes the first uncommitted block of a blob has, once it is committed under an id of so many bytes.
fn first_uncommitted_len(id_len: usize, blob: &FoundBlob<'_>) -> u64 {
    let Some(row) = blob.row() else {
        return 0;
    };
    let mut blocks = row.uncommitted();
    match blocks.next() {
        Some((_id, content)) => block_len(id_len, content),
        None => 0,
    }
}

// How many bytes the first block of a list has, once it is committed under an id of so many bytes.
fn first_listed_len(id_len: usize, blob: &FoundBlob<'_>, found: &FoundBlocks) -> u64 {
    match &found.content {
        ListContent::AllUncommitted(_) => first_uncommitted_len(id_len, blob),
        ListContent::Blocks(blocks) => match blocks.as_slice().first() {
            Some(block) => block_len(id_len, &block.content),
            None => 0,
        },
    }
}

// How many bytes the blocks of a list have, once it is committed. Each is taken to be as long as the first.
fn listed_len(list: &PutBlockList, blob: &FoundBlob<'_>, found: &FoundBlocks) -> u64 {
    let entries = list.entries.as_slice();
    match entries.first() {
        Some(entry) => {
            let each = first_listed_len(entry.id.as_slice().len(), blob, found);
            all_blocks_len(each, entries.len() as u64)
        }
        None => all_blocks_len(0, 0),
    }
}

// The size of a blob after these blocks are its list.
fn list_size(head: u64, list: &PutBlockList, blob: &FoundBlob<'_>, found: &FoundBlocks) -> Size {
    let blocks = listed_len(list, blob, found);
    let committed = committed_len(&list.props, &list.metadata, blocks);
    Size {
        committed: found.len,
        ..Size::of_rows(blob_len(head, list.blob.as_str().len(), committed))
    }
}

// The size that an act adds, with the blocks that were found for its list, but without an uncommitted block.
fn added_by(head: u64, blob: &FoundBlob<'_>, found: &FoundBlocks, act: &Act) -> Size {
    match act {
        Act::CreateContainer(create) => {
            Size::of_rows(created_len(head, metadata_len(&create.metadata)))
        }
        Act::SetContainerMetadata(set) => Size::of_rows(metadata_len(&set.metadata)),
        Act::SetAcl(set) => Size::of_rows(policies_len(&set.acl.policies)),
        Act::DeleteContainer => Size::of_rows(deleted_len(head)),
        Act::PutBlob(put) => put_size(head, put),
        Act::SetMetadata(set) => Size::of_rows(metadata_len(&set.metadata)),
        Act::PutBlock(put) => first_block(head, &put.blob, blob),
        Act::PutBlockList(list) => list_size(head, list, blob, found),
        _ => Size::none(),
    }
}

// How many bytes of content come with an act.
fn content_len(act: &Act) -> u64 {
    match act.content() {
        Some(content) => content.len(),
        None => 0,
    }
}

/// How many bytes the record of a change has at most.
pub(crate) fn bound_of(change: &Change) -> u64 {
    record_bound(head_of(change.key()), change.act())
}

impl ChangeWeight {
    /// The weight of no change.
    pub const fn none() -> Self {
        Self {
            content: 0,
            freed: Size::none(),
            added: Size::none(),
        }
    }

    /// The weight of a change for which nothing was found: only the content that it brings is known.
    pub fn of_content(change: &Change) -> Self {
        Self {
            content: content_len(change.act()),
            ..Self::none()
        }
    }

    /// The weight of a change by what was found for it: its container, the blob that it names, and the blocks of its list. No row is looked up
    /// again. The weight of a Delete Container takes time with the blobs of the container.
    pub fn of(
        alloc: Global,
        container: &Found<'_>,
        blob: &FoundBlob<'_>,
        found: &FoundBlocks,
        change: &Change,
    ) -> Self {
        let act = change.act();
        let head = row_head(change.key());
        Self {
            freed: freed_by(alloc, head, container, blob, act),
            added: added_by(head, blob, found, act),
            ..Self::of_content(change)
        }
    }
}

/// The finding of a decision for a change: the blocks that the change takes, if it commits a list, and the weight of the change.
#[derive(Drop)]
pub struct FoundForChange {
    pub blocks: FoundBlocks,
    pub weight: ChangeWeight,
}

/// The blob that an act names, as it was found in its container.
pub(crate) fn named_by<'a>(container: &Found<'a>, act: &Act) -> FoundBlob<'a> {
    match act {
        Act::PutBlob(put) => container.seen(&put.blob),
        Act::SetMetadata(set) => container.seen(&set.blob),
        Act::DeleteBlob(delete) => container.seen(&delete.blob),
        Act::PutBlock(put) => container.seen(&put.blob),
        Act::PutBlockList(list) => container.seen(&list.blob),
        _ => FoundBlob::nothing(),
    }
}
