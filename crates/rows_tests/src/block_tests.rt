//! What Put Block and Put Block List leave in a container as changes, which of these changes fit,
//! and how bodies are read, against values that were written by hand.

use crate::sample_blobs::{content, id};
use crate::sample_requests::{asked, body, key, moment, pics, props, request, store, text};
use body_forms::BodyFault;
use range_rows::{ObjectRules, Reading};
use row_trees::Rows;
use stamp_types::{
    Act, Args, Block, BlockSource, Body, Bytes, Change, Code, Items, Lookup, Metadata, Op, Piece,
    Pieces, Policy, PutBlock, PutBlockList, Refusal, Request, Rule, StoredBlob, Taken,
    UncommittedBlock, Wanted,
};
use std::alloc::Global;
use std::process::Abort;

// The ids whose Base64 is `AAAA` and `BBBB`.
const A: &[u8] = &[0, 0, 0];

const B: &[u8] = &[4, 16, 65];

// An id of another length.
const SHORT: &[u8] = &[0];

type Entry = (&'static [u8], BlockSource);

/// What a step does to its blob.
#[derive(Clone, Copy)]
enum Kind {
    // Puts a block of this word under this id.
    Put(&'static [u8], &'static str),
    // Commits these blocks.
    Commit(&'static [Entry]),
}

// The ETag and the blocks that readers of a blob see, if they see anything.
type Seen = Option<(u64, &'static [&'static str])>;

/// A change of a blob of the container `pics`, whether it fits, and what is seen of the blob after
/// it. A change that does not fit is not made.
#[derive(Clone, Copy)]
struct Step {
    blob: &'static str,
    kind: Kind,
    fits: bool,
    seen: Seen,
}

fn planned(blob: &'static str, kind: Kind, fits: bool, seen: Seen) -> Step {
    Step {
        blob,
        kind,
        fits,
        seen,
    }
}

const TWO_ONE_TWO: Seen = Some((4, &["two", "one", "two"]));

// The container has seen one change before the first step.
fn steps() -> [Step; 12] {
    [
        // A blob of blocks alone is not seen.
        planned("a", Kind::Put(A, "one"), true, None),
        planned("a", Kind::Put(SHORT, "three"), false, None),
        planned(
            "a",
            Kind::Commit(&[(B, BlockSource::Uncommitted)]),
            false,
            None,
        ),
        planned("a", Kind::Put(B, "two"), true, None),
        planned(
            "a",
            Kind::Commit(&[
                (B, BlockSource::Uncommitted),
                (A, BlockSource::Uncommitted),
                (B, BlockSource::Uncommitted),
            ]),
            true,
            TWO_ONE_TWO,
        ),
        // No block is uncommitted after a commit, and committed ids may have another length.
        planned(
            "a",
            Kind::Commit(&[(A, BlockSource::Uncommitted)]),
            false,
            TWO_ONE_TWO,
        ),
        planned("a", Kind::Put(SHORT, "three"), true, TWO_ONE_TWO),
        planned(
            "a",
            Kind::Commit(&[
                (A, BlockSource::Committed),
                (SHORT, BlockSource::Uncommitted),
            ]),
            true,
            Some((6, &["one", "three"])),
        ),
        // Names that no change used before.
        planned(
            "b",
            Kind::Commit(&[(A, BlockSource::Committed)]),
            false,
            None,
        ),
        planned("b", Kind::Commit(&[]), true, Some((7, &[]))),
        planned("c", Kind::Put(B, "four"), true, None),
        planned(
            "c",
            Kind::Commit(&[(B, BlockSource::Uncommitted)]),
            true,
            Some((9, &["four"])),
        ),
    ]
}

fn put(rt: &impl Abort, alloc: Global, blob: &str, bytes: &[u8], word: &str) -> Act {
    Act::PutBlock(PutBlock {
        blob: text(rt, alloc, blob),
        id: id(rt, alloc, bytes),
        content: content(rt, alloc, word),
    })
}

fn taken(rt: &impl Abort, alloc: Global, entry: Entry) -> Taken {
    Taken {
        id: id(rt, alloc, entry.0),
        from: entry.1,
    }
}

fn entries(rt: &impl Abort, alloc: Global, list: &[Entry]) -> Items<Taken> {
    let mut entries = Vec::new(alloc);
    for entry in list {
        entries.push(taken(rt, alloc, *entry)).expect(rt, "memory");
    }
    Items::new(entries)
}

fn commit(rt: &impl Abort, alloc: Global, blob: &str, list: &[Entry]) -> Act {
    Act::PutBlockList(PutBlockList {
        blob: text(rt, alloc, blob),
        moment: moment(rt),
        props: props(rt, alloc),
        metadata: Metadata::empty(),
        entries: entries(rt, alloc, list),
    })
}

fn change(rt: &impl Abort, alloc: Global, blob: &str, kind: Kind) -> Change {
    let act = match kind {
        Kind::Put(bytes, word) => put(rt, alloc, blob, bytes, word),
        Kind::Commit(list) => commit(rt, alloc, blob, list),
    };
    Change::new(key(rt, alloc, "pantry", "pics"), act).expect(rt, "a good change")
}

// Makes a change if it fits, and says whether it fits.
fn run(rt: &impl Abort, alloc: Global, rows: &mut Rows, blob: &str, kind: Kind) -> bool {
    let change = change(rt, alloc, blob, kind);
    let fits = rows.fits(alloc, &change).expect(rt, "memory");
    if fits {
        rows.take(alloc, change).expect(rt, "memory");
    }
    fits
}

fn is_block(block: &Block<Pieces>, word: &str) -> bool {
    match block.content.as_slice() {
        [Piece::Bytes(share)] => share.as_slice() == word.as_bytes(),
        _ => false,
    }
}

fn are_blocks(blocks: &[Block<Pieces>], words: &[&str]) -> bool {
    blocks.len() == words.len()
        && blocks
            .iter()
            .zip(words)
            .all(|(block, word)| is_block(block, word))
}

fn is_seen(rt: &impl Abort, alloc: Global, rows: &Rows, blob: &str, seen: Seen) -> bool {
    let key = key(rt, alloc, "pantry", "pics");
    match (rows.blob(&key, &text(rt, alloc, blob)), seen) {
        (Some(committed), Some((etag, words))) => {
            committed.etag == etag && are_blocks(committed.blocks.as_slice(), words)
        }
        (None, None) => true,
        _ => false,
    }
}

#[test]
fn blocks_are_seen_once_a_list_commits_them(rt: HostRuntime) {
    let alloc = rt.alloc();
    let mut rows = pics(&rt, alloc, 1);
    for (place, step) in steps().iter().enumerate() {
        let fits = run(&rt, alloc, &mut rows, step.blob, step.kind);
        assert!(rt; fits == step.fits, "{place}");
        assert!(rt; is_seen(&rt, alloc, &rows, step.blob, step.seen), "{place}");
    }
    assert!(rt; rows.count(&key(&rt, alloc, "pantry", "pics")) == 9);
}

// Whether a Put Block and an empty Put Block List fit.
fn both_fit(rt: &impl Abort, alloc: Global, rows: &Rows) -> (bool, bool) {
    let block = change(rt, alloc, "a", Kind::Put(A, "one"));
    let block_fits = rows.fits(alloc, &block).expect(rt, "memory");
    drop(block);
    let list = change(rt, alloc, "a", Kind::Commit(&[]));
    let list_fits = rows.fits(alloc, &list).expect(rt, "memory");
    (block_fits, list_fits)
}

#[test]
fn changes_of_blocks_fit_a_container_that_takes_one_more_change(rt: HostRuntime) {
    let alloc = rt.alloc();
    let last = pics(&rt, alloc, u64::MAX - 1);
    assert!(rt; both_fit(&rt, alloc, &last) == (true, true));
    let full = pics(&rt, alloc, u64::MAX);
    assert!(rt; both_fit(&rt, alloc, &full) == (false, false));
    let absent = Rows::new(alloc);
    assert!(rt; both_fit(&rt, alloc, &absent) == (false, false));
}

/// What a body says.
#[derive(Clone, Copy)]
enum Says {
    Nothing,
    List(&'static [(Lookup, &'static [u8])]),
    /// Stored policies with these ids.
    Policies(&'static [&'static str]),
    Fault(BodyFault),
}

const POLICIES: &str =
    "<SignedIdentifiers><SignedIdentifier><Id>b</Id></SignedIdentifier><SignedIdentifier><Id>a</Id></SignedIdentifier></SignedIdentifiers>";

const TWICE: &str =
    "<SignedIdentifiers><SignedIdentifier><Id>a</Id></SignedIdentifier><SignedIdentifier><Id>a</Id></SignedIdentifier></SignedIdentifiers>";

const LIST: &str = "<BlockList><Latest>AAAA</Latest><Committed>BBBB</Committed></BlockList>";

fn bodies() -> [(Op, &'static str, Says); 11] {
    [
        (
            Op::PutBlockList,
            LIST,
            Says::List(&[(Lookup::Latest, A), (Lookup::Committed, B)]),
        ),
        (Op::PutBlockList, "<BlockList/>", Says::List(&[])),
        (Op::PutBlockList, "", Says::Fault(BodyFault::Form)),
        (
            Op::PutBlockList,
            "<BlockList><Latest>AAAA</Latest>",
            Says::Fault(BodyFault::Form),
        ),
        (
            Op::PutBlockList,
            "<BlockList><Latest>AAA</Latest></BlockList>",
            Says::Fault(BodyFault::Id),
        ),
        (Op::PutBlob, LIST, Says::Nothing),
        (Op::SetAcl, POLICIES, Says::Policies(&["b", "a"])),
        (Op::SetAcl, "", Says::Policies(&[])),
        (Op::SetAcl, LIST, Says::Fault(BodyFault::Form)),
        (Op::SetAcl, TWICE, Says::Fault(BodyFault::Id)),
        (Op::GetAcl, POLICIES, Says::Nothing),
    ]
}

fn is_wanted(wanted: &Wanted, entry: (Lookup, &[u8])) -> bool {
    wanted.lookup == entry.0 && wanted.id.as_slice() == entry.1
}

fn are_wanted(wanted: &[Wanted], list: &[(Lookup, &[u8])]) -> bool {
    wanted.len() == list.len()
        && wanted
            .iter()
            .zip(list)
            .all(|(wanted, entry)| is_wanted(wanted, *entry))
}

fn have_ids(policies: &[Policy], ids: &[&str]) -> bool {
    policies.len() == ids.len()
        && policies
            .iter()
            .zip(ids)
            .all(|(policy, id)| policy.id.as_str() == *id)
}

fn is_said(reading: &Reading, says: Says) -> bool {
    match (reading, says) {
        (Reading::Nothing, Says::Nothing) => true,
        (Reading::BlockList(wanted), Says::List(list)) => are_wanted(wanted.as_slice(), list),
        (Reading::Policies(policies), Says::Policies(ids)) => have_ids(policies.as_slice(), ids),
        (Reading::Fault(fault), Says::Fault(said)) => *fault == said,
        _ => false,
    }
}

fn reading(rt: &impl Abort, alloc: Global, op: Op, text: &str) -> Reading {
    let bytes = text.as_bytes().to_vec(alloc).expect(rt, "memory");
    let request = request(rt, alloc, op, "pics", "a.txt", None, body(rt, alloc, bytes));
    Reading::of(alloc, &request).expect(rt, "memory")
}

#[test]
fn only_the_bodies_of_a_block_list_and_of_stored_policies_are_read(rt: HostRuntime) {
    for (op, text, says) in bodies() {
        let reading = reading(&rt, rt.alloc(), op, text);
        assert!(rt; is_said(&reading, says), "{op:?} {text}");
    }
}

const FULL: u64 = u64::MAX;

// How many changes the container has seen, the id of a Put Block on a blob that has one uncommitted
// block, whose id is `A`, and the code of the refusal.
fn ids_and_counts() -> [(u64, &'static [u8], Option<Code>); 5] {
    [
        (FULL - 1, A, None),
        (FULL - 1, B, None),
        (FULL - 1, SHORT, Some(Code::InvalidBlobOrBlock)),
        (FULL, SHORT, Some(Code::InvalidBlobOrBlock)),
        (FULL, B, Some(Code::InternalError)),
    ]
}

// The container `pics` with a blob `a`, which has one uncommitted block.
fn one_block(rt: &impl Abort, alloc: Global, count: u64) -> Rows {
    let mut rows = pics(rt, alloc, count);
    let block = UncommittedBlock {
        id: id(rt, alloc, A),
        content: content(rt, alloc, "one"),
    };
    let stored = StoredBlob {
        blob: text(rt, alloc, "a"),
        committed: None,
        uncommitted: Items::new(vec![in alloc; block].expect(rt, "memory")),
    };
    store(rt, alloc, &mut rows, stored);
    rows
}

// The refusal of a Put Block under this id.
fn refusal(rt: &impl Abort, alloc: Global, rows: &Rows, bytes: &[u8]) -> Option<Refusal> {
    let mut args = Args::none();
    args.block = Some(id(rt, alloc, bytes));
    let ask = asked(rt, alloc, Op::PutBlock, "pics", "a", args);
    let request = Request::new(alloc, ask, Body::empty()).expect(rt, "memory");
    let request = request.expect(rt, "parts that fit");
    let reading = Reading::of(alloc, &request).expect(rt, "memory");
    let refusal = rows.object_rule(alloc, &request, &reading);
    refusal.expect(rt, "memory")
}

#[test]
fn the_length_of_an_id_is_judged_before_the_count(rt: HostRuntime) {
    for (count, bytes, code) in ids_and_counts() {
        let rows = one_block(&rt, rt.alloc(), count);
        let wanted = code.map(|code| Refusal {
            rule: Rule::O6,
            code,
        });
        assert!(rt;
            refusal(&rt, rt.alloc(), &rows, bytes) == wanted,
            "{count} {code:?}"
        );
    }
}
