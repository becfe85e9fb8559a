//! When rows that streams keep waste more than what exists: by the records that changes really write, and by the rows that really exist.
use crate::partition_samples::Told;
use crate::sample_acts::delete_blob;
use crate::sample_fields::{bare, hello, id, meta, metadata, noon, red, text};
use crate::sample_wires::script;
use crate::stored_checkpoint_tests::made;
use crate::stored_samples::{change_of, create, load, stored};
use crate::stored_sweep_samples::sweep;
use log_record::write_change;
use row_trees::{Found, FoundBlob};
use stamp_types::{
    Acl, Act, BlockSource, Change, CreateContainer, Items, Key, Letters, Level, Metadata, Piece,
    Pieces, Policies, Policy, Props, PutBlob, PutBlock, PutBlockList, SetAcl, SetContainerMetadata,
    SetMetadata, Share, Taken, Text, Visible,
};
use std::alloc::Global;
use std::process::Abort;
use stored_rows::StoredRows;

// How many bytes may be wasted beside a third of those that exist: 16 MiB.
const SPARED: u64 = 16_777_216;

// How many bytes more a record counts than it has.
const BESIDE: u64 = 256;

// The most bytes of a piece.
const PIECE: usize = 4_194_304;

const LONGEST_ID: &[u8] = b"iiiiiiiiiiiiiiiiiiiiiiiiiiiiiiiiiiiiiiiiiiiiiiiiiiiiiiiiiiiiiiii";

// A text of so many letters.
fn letters(rt: &impl Abort, alloc: Global, len: usize) -> Text {
    let text = "x".repeat(alloc, len).expect(rt, "memory");
    Text::new(text).expect(rt, "a clean text")
}

fn header(rt: &impl Abort, alloc: Global, len: usize) -> Visible {
    Visible::new(letters(rt, alloc, len)).expect(rt, "a visible text")
}

// Four kept headers of so many bytes each, and an MD5.
fn headers(rt: &impl Abort, alloc: Global, len: usize) -> Props {
    Props::from_parts(
        alloc,
        header(rt, alloc, len),
        header(rt, alloc, len),
        header(rt, alloc, len),
        header(rt, alloc, len),
        Some([7; 16]),
    )
    .expect(rt, "memory")
    .expect(rt, "kept headers")
}

// Metadata of 2,000 bytes.
fn much(rt: &impl Abort, alloc: Global) -> Metadata {
    let value = "x".repeat(alloc, 1_995).expect(rt, "memory");
    let metas = vec![in alloc; meta(rt, alloc, "color", value.as_str())].expect(rt, "memory");
    metadata(rt, alloc, metas)
}

// The change that puts the blob of this name without content, with these headers.
fn put_props(rt: &impl Abort, alloc: Global, blob: Text, props: Props) -> Change {
    let act = Act::PutBlob(PutBlob {
        blob,
        moment: noon(rt),
        props,
        metadata: red(rt, alloc),
        content: Pieces::empty(alloc),
    });
    change_of(rt, alloc, "pics", act)
}

// The same with four headers of so many bytes each.
fn put_headers(rt: &impl Abort, alloc: Global, blob: Text, len: usize) -> Change {
    put_props(rt, alloc, blob, headers(rt, alloc, len))
}

/// Content of so many bytes, in pieces of these bytes. At most five pieces are made.
pub(crate) fn content(rt: &impl Abort, alloc: Global, body: &Share, len: usize) -> Pieces {
    let mut pieces = Vec::new(alloc);
    let mut left = len;
    for _ in 0..5 {
        let end = if left < body.len() { left } else { body.len() };
        if end > 0 {
            let bytes = body.slice(0, end).expect(rt, "memory");
            pieces.push(Piece::Bytes(bytes)).expect(rt, "memory");
        }
        left = left.saturating_sub(end);
    }
    assert!(rt; left == 0);
    Pieces::new(pieces).expect(rt, "good pieces")
}

/// The change that puts the blob `a.txt` of so many bytes.
pub(crate) fn put_bytes(rt: &impl Abort, alloc: Global, body: &Share, len: usize) -> Change {
    let act = Act::PutBlob(PutBlob {
        blob: text(rt, alloc, "a.txt"),
        moment: noon(rt),
        props: bare(rt, alloc),
        metadata: red(rt, alloc),
        content: content(rt, alloc, body, len),
    });
    change_of(rt, alloc, "pics", act)
}

pub(crate) fn delete(rt: &impl Abort, alloc: Global) -> Change {
    change_of(rt, alloc, "pics", delete_blob(rt, alloc))
}

fn policy(rt: &impl Abort, alloc: Global, letter: &str) -> Policy {
    Policy {
        id: Text::new(letter.repeat(alloc, 64).expect(rt, "memory")).expect(rt, "a clean text"),
        start: Some(noon(rt)),
        expiry: None,
        letters: Letters::new(true, true, false, true),
    }
}

// Five policies with ids of 64 characters.
fn five_policies(rt: &impl Abort, alloc: Global) -> Policies {
    let policies = vec![in alloc;
        policy(rt, alloc, "a"),
        policy(rt, alloc, "b"),
        policy(rt, alloc, "c"),
        policy(rt, alloc, "d"),
        policy(rt, alloc, "e"),
    ]
    .expect(rt, "memory");
    Policies::new(Items::new(policies)).expect(rt, "good policies")
}

// A thousand entries, each of the block of the longest id.
fn thousand(rt: &impl Abort, alloc: Global) -> Items<Taken> {
    let mut entries = Vec::with_capacity(alloc, 1_000).expect(rt, "memory");
    for _ in 0..1_000 {
        let entry = Taken {
            id: id(rt, alloc, LONGEST_ID),
            from: BlockSource::Uncommitted,
        };
        entries.push(entry).expect(rt, "memory");
    }
    Items::new(entries)
}

fn put_block(rt: &impl Abort, alloc: Global, blob: Text) -> Change {
    let act = Act::PutBlock(PutBlock {
        blob,
        id: id(rt, alloc, LONGEST_ID),
        content: hello(rt, alloc),
    });
    change_of(rt, alloc, "pics", act)
}

fn put_list(rt: &impl Abort, alloc: Global, blob: Text) -> Change {
    let act = Act::PutBlockList(PutBlockList {
        blob,
        moment: noon(rt),
        props: headers(rt, alloc, 100),
        metadata: much(rt, alloc),
        entries: thousand(rt, alloc),
    });
    change_of(rt, alloc, "pics", act)
}

fn set_blob_metadata(rt: &impl Abort, alloc: Global, blob: Text) -> Change {
    let act = Act::SetMetadata(SetMetadata {
        blob,
        moment: noon(rt),
        metadata: much(rt, alloc),
    });
    change_of(rt, alloc, "pics", act)
}

fn create_with(rt: &impl Abort, alloc: Global, name: &str) -> Change {
    let act = Act::CreateContainer(CreateContainer {
        moment: noon(rt),
        level: Level::Blob,
        metadata: much(rt, alloc),
    });
    change_of(rt, alloc, name, act)
}

fn set_container(rt: &impl Abort, alloc: Global, name: &str) -> Change {
    let act = Act::SetContainerMetadata(SetContainerMetadata {
        moment: noon(rt),
        metadata: much(rt, alloc),
    });
    change_of(rt, alloc, name, act)
}

fn set_policies(rt: &impl Abort, alloc: Global, name: &str) -> Change {
    let act = Act::SetAcl(SetAcl {
        moment: noon(rt),
        acl: Acl {
            level: Level::Container,
            policies: five_policies(rt, alloc),
        },
    });
    change_of(rt, alloc, name, act)
}

// The change of this number of one kind of changes. Each but the first replaces what another one left, or is made beside it.
fn headers_step(rt: &impl Abort, alloc: Global, number: u64) -> Change {
    match number {
        0 => put_headers(rt, alloc, letters(rt, alloc, 1_024), 2_500),
        1 => put_headers(rt, alloc, letters(rt, alloc, 1_024), 2_000),
        2 => put_headers(rt, alloc, letters(rt, alloc, 1), 1),
        _ => set_blob_metadata(rt, alloc, letters(rt, alloc, 1_024)),
    }
}

fn container_step(rt: &impl Abort, alloc: Global, number: u64) -> Change {
    match number {
        0 => create_with(rt, alloc, "other"),
        1 => set_container(rt, alloc, "pics"),
        2 => set_policies(rt, alloc, "pics"),
        _ => set_container(rt, alloc, "other"),
    }
}

fn list_step(rt: &impl Abort, alloc: Global, number: u64) -> Change {
    match number {
        0 | 2 => put_block(rt, alloc, letters(rt, alloc, 100)),
        _ => put_list(rt, alloc, letters(rt, alloc, 100)),
    }
}

fn deletion_step(rt: &impl Abort, alloc: Global, number: u64) -> Change {
    match number {
        0 => put_headers(rt, alloc, letters(rt, alloc, 500), 1_000),
        1 => change_of(rt, alloc, "pics", Act::DeleteContainer),
        2 => create_with(rt, alloc, "pics"),
        _ => put_headers(rt, alloc, letters(rt, alloc, 500), 1_000),
    }
}

// Two blobs of one uncommitted block each, one of which is put again.
fn block_step(rt: &impl Abort, alloc: Global, number: u64) -> Change {
    match number {
        0 | 1 => put_block(rt, alloc, letters(rt, alloc, 100)),
        2 => put_block(rt, alloc, letters(rt, alloc, 1_000)),
        _ => put_headers(rt, alloc, letters(rt, alloc, 1), 1),
    }
}

fn step(rt: &impl Abort, alloc: Global, kind: u64, number: u64) -> Change {
    match kind {
        0 => headers_step(rt, alloc, number),
        1 => container_step(rt, alloc, number),
        2 => list_step(rt, alloc, number),
        3 => block_step(rt, alloc, number),
        _ => deletion_step(rt, alloc, number),
    }
}

// How many bytes the record of a change counts, with its content. A piece has 21 bytes in the log, and 5 beside its own here.
fn change_bytes(rt: &impl Abort, alloc: Global, change: &Change) -> u64 {
    let record = write_change(alloc, change, 7).expect(rt, "memory");
    let pieces = match change.content() {
        Some(content) => content.as_slice().len() as u64,
        None => 0,
    };
    (record.len() as u64)
        .saturating_add(pieces.saturating_mul(16))
        .saturating_add(BESIDE)
}

// Makes a change, and answers how many bytes it counts.
fn counted(rt: &impl Abort, alloc: Global, stored: &mut StoredRows, change: Change) -> u64 {
    let bytes = change_bytes(rt, alloc, &change);
    made(rt, alloc, stored, change);
    assert!(rt; !stored.is_wasteful());
    bytes
}

/// A container, and four changes of one kind.
pub(crate) fn fill(rt: &impl Abort, alloc: Global, stored: &mut StoredRows, kind: u64) -> u64 {
    let mut bytes = counted(rt, alloc, stored, create(rt, alloc, "pics"));
    for number in 0..4 {
        let more = counted(rt, alloc, stored, step(rt, alloc, kind, number));
        bytes = bytes.saturating_add(more);
    }
    bytes
}

// How many bytes a row counts.
fn row_bytes(rt: &impl Abort, alloc: Global, key: &Key, act: Act) -> u64 {
    let key = key.clone().expect(rt, "memory");
    let change = Change::new(key, act).expect(rt, "a good row");
    change_bytes(rt, alloc, &change)
}

// How many bytes a blob counts, with its content.
fn blob_bytes(rt: &impl Abort, alloc: Global, key: &Key, name: &[u8], blob: &FoundBlob<'_>) -> u64 {
    let name = String::from_utf8(name.to_vec(alloc).expect(rt, "memory")).expect(rt, "letters");
    let name = Text::new(name).expect(rt, "a name");
    let row = blob.row().expect(rt, "a row");
    let mut bytes = blob.len();
    for (_id, content) in row.uncommitted() {
        bytes = bytes.saturating_add(content.len());
    }
    let row = row.row(alloc, name).expect(rt, "memory");
    bytes.saturating_add(row_bytes(rt, alloc, key, Act::StoredBlob(row)))
}

fn container_bytes(rt: &impl Abort, alloc: Global, key: &Key, found: &Found<'_>) -> u64 {
    let row = found.row().expect(rt, "memory");
    let mut bytes = row_bytes(rt, alloc, key, Act::ContainerRow(row));
    for (name, blob) in found.blobs_from(&Vec::new(alloc)) {
        bytes = bytes.saturating_add(blob_bytes(rt, alloc, key, name, &blob));
    }
    bytes
}

/// How many bytes count that exist.
pub(crate) fn existing(rt: &impl Abort, alloc: Global, stored: &StoredRows) -> u64 {
    let first = Key {
        account: Text::empty(alloc),
        container: Text::empty(alloc),
    };
    let rows = stored.rows().expect(rt, "rows that are loaded");
    let mut bytes: u64 = 0;
    for (key, found) in rows.containers_from(&first) {
        bytes = bytes.saturating_add(container_bytes(rt, alloc, key, &found));
    }
    bytes
}

/// Counts the rows again.
pub(crate) fn reload(rt: &impl Abort, alloc: Global, stored: &mut StoredRows) {
    let mut wire = script(rt, alloc, &[], &[]);
    stored.unload();
    assert_eq!(rt; load(stored, &mut wire), Told::Done);
}

// How many bytes a blob has whose put and whose deletion leave so many bytes wasted as are spared and a third of those that exist, and so many
// more.
fn len_until_due(rt: &impl Abort, alloc: Global, written: u64, existing: u64, more: u64) -> u64 {
    let records = change_bytes(rt, alloc, &put_bytes(rt, alloc, &Share::empty(), 0))
        .saturating_add(change_bytes(rt, alloc, &delete(rt, alloc)))
        .saturating_add(written);
    let len = SPARED
        .saturating_add(existing)
        .saturating_add(existing / 3)
        .saturating_add(more)
        .saturating_sub(records);
    // The record of the put has 21 bytes for each piece.
    let pieces = if len > 16_777_216 + 84 { 5 } else { 4 };
    assert!(rt; len > 12_582_912 + 84);
    len.saturating_sub(pieces * 21)
}

/// A sweep is due at the very byte.
pub(crate) fn is_due_at(
    rt: &impl Abort,
    alloc: Global,
    stored: &mut StoredRows,
    body: &Share,
    written: u64,
    more: u64,
) {
    let existing = existing(rt, alloc, stored);
    let len = len_until_due(rt, alloc, written, existing, more);
    let len = usize::try_from(len).ok().expect(rt, "a length");
    made(rt, alloc, stored, put_bytes(rt, alloc, body, len));
    assert!(rt; !stored.is_wasteful());
    made(rt, alloc, stored, delete(rt, alloc));
    assert!(rt; stored.is_wasteful() == (more == 1));
}

// The same after changes of one kind.
fn waste_until_due(
    rt: &impl Abort,
    alloc: Global,
    stored: &mut StoredRows,
    body: &Share,
    kind: u64,
    more: u64,
) {
    let written = fill(rt, alloc, stored, kind);
    if more > 1 {
        reload(rt, alloc, stored);
    }
    is_due_at(rt, alloc, stored, body, written, more % 2);
    sweep(rt, alloc, stored);
    assert!(rt; !stored.is_wasteful() && !stored.has_garbage());
}

/// The bytes of a piece of the most bytes.
pub(crate) fn long_body(rt: &impl Abort, alloc: Global) -> Share {
    let bytes = vec![in alloc; 7; PIECE].expect(rt, "memory");
    Share::new(alloc, bytes).expect(rt, "memory")
}

// As counted when changes were made (0 and 1), and as counted again from the rows (2 and 3): at the byte before, and at this byte.
fn each_is_due(rt: &impl Abort, alloc: Global, kind: u64, first: u64) {
    let body = long_body(rt, alloc);
    for more in first..4 {
        let mut stored = stored(rt, alloc);
        waste_until_due(rt, alloc, &mut *stored, &body, kind, more);
    }
}

#[test]
fn kept_headers_and_metadata_of_blobs_are_counted(rt: HostRuntime) {
    each_is_due(&rt, rt.alloc(), 0, 0);
}

#[test]
fn metadata_and_policies_of_containers_are_counted(rt: HostRuntime) {
    each_is_due(&rt, rt.alloc(), 1, 0);
}

#[test]
fn block_lists_are_counted(rt: HostRuntime) {
    each_is_due(&rt, rt.alloc(), 2, 0);
}

// They count only from when the rows are counted again.
#[test]
fn uncommitted_blocks_are_counted_again(rt: HostRuntime) {
    each_is_due(&rt, rt.alloc(), 3, 2);
}

#[test]
fn deleted_containers_are_counted(rt: HostRuntime) {
    each_is_due(&rt, rt.alloc(), 4, 0);
}

// The name of a blob: two letters.
fn name(rt: &impl Abort, alloc: Global, number: u16) -> Text {
    let letters = [b'a' + (number / 20) as u8, b'a' + (number % 20) as u8];
    let name = String::from_utf8(letters.to_vec(alloc).expect(rt, "memory")).expect(rt, "letters");
    Text::new(name).expect(rt, "a name")
}

// Blobs with 48,000 bytes of headers, each under its own name or all under one name. Answers how many were put before a sweep was due.
fn put_until_due(rt: &impl Abort, alloc: Global, stored: &mut StoredRows, is_one: bool) -> u16 {
    made(rt, alloc, stored, create(rt, alloc, "pics"));
    let props = headers(rt, alloc, 12_000);
    for number in 0..400 {
        if stored.is_wasteful() {
            return number;
        }
        let blob = name(rt, alloc, if is_one { 0 } else { number });
        made(
            rt,
            alloc,
            stored,
            put_props(rt, alloc, blob, props.clone().expect(rt, "memory")),
        );
    }
    400
}

#[test]
fn headers_that_are_replaced_are_wasted_and_those_that_exist_are_not(rt: HostRuntime) {
    let mut own = stored(&rt, rt.alloc());
    assert!(rt; put_until_due(&rt, rt.alloc(), &mut *own, false) == 400);
    let mut one = stored(&rt, rt.alloc());
    // Each put counts 48,000 bytes and some 400 more: 347 puts have 16 MiB and four thirds of the one that exists.
    assert!(rt; (346..=349).contains(&put_until_due(&rt, rt.alloc(), &mut *one, true)));
}
