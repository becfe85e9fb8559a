//! What no clause says of a blob: that its calls succeed if memory is left, and a few rows by hand.

use crate::sample_blobs::{content, id, long_content, put_blob, put_block_list, set_metadata};
use crate::sample_parts::entry;
use block_blobs::{BlobRow, BlockFault, entries_from};
use stamp_types::{Block, Items, Lookup, Piece, Pieces, UncommittedBlock, Wanted};
use std::alloc::Global;
use std::process::Abort;

// The ids whose Base64 is `AAAA` and `BBBB`.
pub(crate) const A: &[u8] = &[0, 0, 0];

pub(crate) const B: &[u8] = &[4, 16, 65];

pub(crate) type Entry = (Lookup, &'static [u8]);

fn put(
    rt: &impl Abort,
    alloc: Global,
    row: &mut BlobRow,
    bytes: &[u8],
    text: &str,
) -> Result<(), BlockFault> {
    row.put_block(&id(rt, alloc, bytes), content(rt, alloc, text))
}

pub(crate) fn wanted(rt: &impl Abort, alloc: Global, entries: &[Entry]) -> Vec<Wanted> {
    let mut wanted = Vec::new(alloc);
    for wants in entries {
        let (lookup, bytes) = *wants;
        let wants = entry(lookup, id(rt, alloc, bytes));
        wanted.push(wants).expect(rt, "memory");
    }
    wanted
}

#[tactic(auto, using(block_blobs::proofs::FoundLemmas::resolved_fits, block_blobs::proofs::FoundLemmas::resolved_found))]
fn commit_wanted(
    rt: &impl Abort,
    alloc: Global,
    row: &mut BlobRow,
    wanted: Vec<Wanted>,
) -> Result<(), BlockFault> {
    let found = row.resolve(alloc, &wanted)?;
    let entries = entries_from(alloc, Items::new(wanted), found.sources.as_slice())?;
    let list = put_block_list(rt, alloc, entries);
    row.commit(alloc, list, found.blocks, 7);
    Ok(())
}

fn commit(
    rt: &impl Abort,
    alloc: Global,
    row: &mut BlobRow,
    entries: &[Entry],
) -> Result<(), BlockFault> {
    let wanted = wanted(rt, alloc, entries);
    commit_wanted(rt, alloc, row, wanted)
}

fn is_block(block: &Block<Pieces>, text: &str) -> bool {
    match block.content.as_slice() {
        [] => text.is_empty(),
        [Piece::Bytes(share)] => share.as_slice() == text.as_bytes(),
        _ => false,
    }
}

fn are_blocks(blocks: &[Block<Pieces>], texts: &[&str]) -> bool {
    blocks.len() == texts.len()
        && blocks
            .iter()
            .zip(texts)
            .all(|(block, text)| is_block(block, text))
}

// Whether the content is these blocks, and no block is uncommitted.
fn has_content(row: &BlobRow, texts: &[&str]) -> bool {
    match row.committed() {
        Some(committed) => {
            are_blocks(committed.blocks.as_slice(), texts) && row.uncommitted_len() == 0
        }
        None => false,
    }
}

fn puts(rt: &impl Abort, alloc: Global, row: &mut BlobRow, bytes: &[u8], text: &str) {
    assert!(rt; put(rt, alloc, row, bytes, text).is_ok());
}

// A commit gives these blocks, and no block stays uncommitted.
fn commits(rt: &impl Abort, alloc: Global, row: &mut BlobRow, entries: &[Entry], texts: &[&str]) {
    assert!(rt; commit(rt, alloc, row, entries).is_ok());
    assert!(rt; has_content(row, texts));
}

// The block of the only entry is not found, and the content stays.
fn misses(rt: &impl Abort, alloc: Global, row: &mut BlobRow, entry: Entry, texts: &[&str]) {
    assert!(rt; commit(rt, alloc, row, &[entry]) == Err(BlockFault::NotFound(0)));
    assert!(rt; has_content(row, texts));
}

#[test]
fn a_list_is_committed_whole_or_not_at_all(rt: HostRuntime) {
    let alloc = rt.alloc();
    let mut row = BlobRow::new(alloc);
    puts(&rt, alloc, &mut row, A, "one");
    puts(&rt, alloc, &mut row, B, "two");
    let twice: [Entry; 2] = [(Lookup::Latest, A), (Lookup::Latest, A)];
    commits(&rt, alloc, &mut row, &twice, &["one", "one"]);
    assert_eq!(rt; row.len(), 6);
    misses(
        &rt,
        alloc,
        &mut row,
        (Lookup::Committed, B),
        &["one", "one"],
    );
    commits(&rt, alloc, &mut row, &[], &[]);
    assert_eq!(rt; row.len(), 0);
}

// What a list takes of the two blocks `AAAA`, `one`, and `BBBB`, `two`.
fn takes(rt: &impl Abort, alloc: Global, entries: &[Entry], texts: &[&str]) {
    let mut row = BlobRow::new(alloc);
    puts(rt, alloc, &mut row, B, "two");
    puts(rt, alloc, &mut row, A, "one");
    commits(rt, alloc, &mut row, entries, texts);
}

#[test]
fn a_list_takes_the_blocks_that_it_names_in_its_order(rt: HostRuntime) {
    let alloc = rt.alloc();
    let (a, b): (Entry, Entry) = ((Lookup::Latest, A), (Lookup::Uncommitted, B));
    takes(&rt, alloc, &[a, b], &["one", "two"]);
    takes(&rt, alloc, &[a], &["one"]);
    takes(&rt, alloc, &[b], &["two"]);
    takes(&rt, alloc, &[b, a], &["two", "one"]);
    takes(&rt, alloc, &[a, b, a], &["one", "two", "one"]);
}

// A blob whose block `AAAA` is committed as `old`, and uncommitted as `new`.
fn old_and_new(rt: &impl Abort, alloc: Global) -> BlobRow {
    let mut row = BlobRow::new(alloc);
    puts(rt, alloc, &mut row, A, "old");
    commits(rt, alloc, &mut row, &[(Lookup::Latest, A)], &["old"]);
    puts(rt, alloc, &mut row, A, "new");
    row
}

fn gives(rt: &impl Abort, alloc: Global, entries: &[Entry], texts: &[&str], first: &str) {
    let mut row = old_and_new(rt, alloc);
    commits(rt, alloc, &mut row, entries, texts);
    commits(rt, alloc, &mut row, &[(Lookup::Committed, A)], &[first]);
}

#[test]
fn each_entry_is_looked_up_where_it_says(rt: HostRuntime) {
    let alloc = rt.alloc();
    let (latest, committed): (Entry, Entry) = ((Lookup::Latest, A), (Lookup::Committed, A));
    gives(&rt, alloc, &[latest], &["new"], "new");
    gives(&rt, alloc, &[(Lookup::Uncommitted, A)], &["new"], "new");
    gives(&rt, alloc, &[committed], &["old"], "old");
    // Of the committed blocks of one id, the first counts.
    gives(&rt, alloc, &[latest, committed], &["new", "old"], "new");
}

#[test]
fn a_block_that_is_put_again_is_replaced(rt: HostRuntime) {
    let alloc = rt.alloc();
    let mut row = BlobRow::new(alloc);
    puts(&rt, alloc, &mut row, A, "one");
    puts(&rt, alloc, &mut row, A, "four");
    assert_eq!(rt; row.uncommitted_len(), 1);
    assert_eq!(rt; row.uncommitted().count(), 1);
    commits(&rt, alloc, &mut row, &[(Lookup::Uncommitted, A)], &["four"]);
}

// What becomes of a block under the second id after a block of no bytes under the first id.
// Committed ids do not count.
fn meets(rt: &impl Abort, alloc: Global, first: &'static [u8], second: &[u8], fits: bool) {
    let mut row = BlobRow::new(alloc);
    puts(rt, alloc, &mut row, first, "");
    let met = put(rt, alloc, &mut row, second, "two");
    assert!(rt;
        met == if fits {
            Ok(())
        } else {
            Err(BlockFault::Length)
        }
    );
    commits(rt, alloc, &mut row, &[(Lookup::Latest, first)], &[""]);
    puts(rt, alloc, &mut row, second, "two");
}

#[test]
fn uncommitted_ids_have_one_length(rt: HostRuntime) {
    let alloc = rt.alloc();
    meets(&rt, alloc, &[1], &[2], true);
    meets(&rt, alloc, &[1], &[2; 64], false);
    meets(&rt, alloc, &[2; 64], &[1], false);
    meets(&rt, alloc, &[2; 64], &[3; 64], true);
}

fn has_fault(
    rt: &impl Abort,
    alloc: Global,
    row: &BlobRow,
    bytes: &[u8],
    fault: Option<BlockFault>,
) {
    assert!(rt; row.block_fault(&id(rt, alloc, bytes)) == fault);
}

#[test]
fn a_fault_is_known_before_a_block_is_put(rt: HostRuntime) {
    let alloc = rt.alloc();
    let mut row = BlobRow::new(alloc);
    has_fault(&rt, alloc, &row, &[2; 64], None);
    puts(&rt, alloc, &mut row, &[1], "one");
    has_fault(&rt, alloc, &row, &[2; 64], Some(BlockFault::Length));
    has_fault(&rt, alloc, &row, &[2], None);
    // Committed ids do not count.
    commits(&rt, alloc, &mut row, &[(Lookup::Latest, &[1])], &["one"]);
    has_fault(&rt, alloc, &row, &[2; 64], None);
}

fn replace(rt: &impl Abort, alloc: Global, row: &mut BlobRow) {
    assert!(rt; row.replace(alloc, put_blob(rt, alloc, "hello"), 8).is_ok());
    assert!(rt; has_content(row, &["hello"]));
    assert_eq!(rt; row.len(), 5);
}

#[test]
fn a_put_blob_has_no_id_and_drops_all_blocks(rt: HostRuntime) {
    let alloc = rt.alloc();
    let mut row = old_and_new(&rt, alloc);
    replace(&rt, alloc, &mut row);
    misses(&rt, alloc, &mut row, (Lookup::Latest, A), &["hello"]);
    row.set_metadata(set_metadata(alloc), 9);
    assert!(rt; has_content(&row, &["hello"]));
    row.remove(alloc);
    assert!(rt; row.committed().is_none());
}

#[test]
fn a_stored_blob_has_its_blocks(rt: HostRuntime) {
    let alloc = rt.alloc();
    let block = UncommittedBlock {
        id: id(&rt, alloc, A),
        content: content(&rt, alloc, "one"),
    };
    let blocks = Items::new(vec![in alloc; block].expect(&rt, "memory"));
    let mut row = BlobRow::stored(alloc, None, blocks).expect(&rt, "memory");
    assert_eq!(rt; row.uncommitted_len(), 1);
    commits(&rt, alloc, &mut row, &[(Lookup::Uncommitted, A)], &["one"]);
}

fn put_number(
    rt: &impl Abort,
    alloc: Global,
    row: &mut BlobRow,
    number: u32,
) -> Result<(), BlockFault> {
    put(rt, alloc, row, &number.to_be_bytes(), "")
}

#[test]
fn a_blob_has_at_most_50_000_uncommitted_blocks(rt: HostRuntime) {
    let alloc = rt.alloc();
    let mut row = BlobRow::new(alloc);
    for number in 0..50_000 {
        put_number(&rt, alloc, &mut row, number).expect(&rt, "a block");
    }
    // The ids are the numbers from 0 to 49,999: 49,999 is [0, 0, 195, 79].
    has_fault(
        &rt,
        alloc,
        &row,
        &[0, 0, 195, 80],
        Some(BlockFault::TooMany),
    );
    has_fault(&rt, alloc, &row, &[0, 0, 195, 79], None);
    has_fault(&rt, alloc, &row, &[0], Some(BlockFault::Length));
    assert!(rt; put_number(&rt, alloc, &mut row, 50_000) == Err(BlockFault::TooMany));
    assert!(rt; put_number(&rt, alloc, &mut row, 49_999).is_ok());
    assert_eq!(rt; row.uncommitted_len(), 50_000);
}

fn push(rt: &impl Abort, alloc: Global, wanted: &mut Vec<Wanted>, bytes: &'static [u8]) {
    wanted
        .push(entry(Lookup::Latest, id(rt, alloc, bytes)))
        .expect(rt, "memory");
}

// So many entries of `AAAA`, and then one of `BBBB`.
fn many(rt: &impl Abort, alloc: Global, count: usize) -> Vec<Wanted> {
    let mut wanted = Vec::new(alloc);
    for _ in 0..count {
        push(rt, alloc, &mut wanted, A);
    }
    push(rt, alloc, &mut wanted, B);
    wanted
}

fn put_long(rt: &impl Abort, alloc: Global, row: &mut BlobRow, bytes: &[u8], count: usize) {
    let content = long_content(rt, alloc, count);
    assert!(rt; row.put_block(&id(rt, alloc, bytes), content).is_ok());
}

// A list of so many entries of a block `AAAA` of so many bytes, and one entry of a block `BBBB`, which
// is absent if it has no bytes.
fn ends(
    rt: &impl Abort,
    alloc: Global,
    count: usize,
    first: usize,
    second: usize,
) -> Result<(), BlockFault> {
    let mut row = BlobRow::new(alloc);
    put_long(rt, alloc, &mut row, A, first);
    if second > 0 {
        put_long(rt, alloc, &mut row, B, second);
    }
    let wanted = many(rt, alloc, count);
    commit_wanted(rt, alloc, &mut row, wanted)
}

#[test]
fn a_list_is_within_its_limits(rt: HostRuntime) {
    let alloc = rt.alloc();
    assert!(rt; ends(&rt, alloc, 49_999, 3, 3) == Ok(()));
    assert!(rt; ends(&rt, alloc, 50_000, 3, 3) == Err(BlockFault::TooMany));
    assert!(rt; ends(&rt, alloc, 50_000, 3, 0) == Err(BlockFault::NotFound(50_000)));
    assert!(rt; ends(&rt, alloc, 63, 4_194_304, 4_194_304) == Ok(()));
    assert!(rt; ends(&rt, alloc, 64, 4_194_304, 1) == Err(BlockFault::TooLarge));
}
