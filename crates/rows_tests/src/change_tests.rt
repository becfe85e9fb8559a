//! What changes leave in containers of two accounts: counts, ETags, moments, levels, metadata and
//! content, against values that were written by hand.

use crate::sample_blobs::content;
use crate::sample_requests::{author, key, make, moment_after, props, text};
use row_trees::Rows;
use stamp_types::{
    Act, Block, BlockId, Bytes, Change, Committed, CreateContainer, DeleteBlob, Items, Level,
    Metadata, Moment, Piece, Pieces, PutBlob, SetContainerMetadata, SetMetadata, Standing,
    StoredBlob, Text, UncommittedBlock,
};
use std::alloc::Global;
use std::process::Abort;

/// What a step does. A container or a blob gets the step's word as its metadata.
#[derive(Clone, Copy)]
enum Kind {
    Create(Level),
    SetContainer,
    DeleteContainer,
    Put,
    SetBlob,
    DeleteBlob,
}

/// A change at a moment, and the count of its container after it. The word of a step is metadata,
/// and on Put also content.
#[derive(Clone, Copy)]
struct Step {
    tick: u8,
    account: &'static str,
    container: &'static str,
    kind: Kind,
    blob: &'static str,
    word: &'static str,
    count: u64,
}

// This word is in place of a name of 1,024 characters.
const LONG: &str = "long";

fn planned(
    tick: u8,
    at: (&'static str, &'static str),
    kind: Kind,
    blob: &'static str,
    word: &'static str,
    count: u64,
) -> Step {
    Step {
        tick,
        account: at.0,
        container: at.1,
        kind,
        blob,
        word,
        count,
    }
}

const PICS: (&str, &str) = ("pantry", "pics");

const JAMS: (&str, &str) = ("pantry", "jams");

const OTHER: (&str, &str) = ("larder", "pics");

fn steps() -> [Step; 15] {
    [
        planned(1, PICS, Kind::Create(Level::Closed), "", "one", 1),
        planned(2, OTHER, Kind::Create(Level::Blob), "", "two", 1),
        planned(3, PICS, Kind::Put, "a", "three", 2),
        planned(4, OTHER, Kind::Put, "a", "four", 2),
        planned(5, OTHER, Kind::Put, "a/b", "five", 3),
        planned(6, OTHER, Kind::Put, "x\u{85}", "six", 4),
        planned(7, JAMS, Kind::Create(Level::Container), "", "seven", 1),
        planned(8, JAMS, Kind::Put, LONG, "eight", 2),
        planned(9, JAMS, Kind::Put, "b", "nine", 3),
        planned(10, PICS, Kind::DeleteContainer, "", "", 3),
        planned(11, PICS, Kind::Create(Level::Blob), "", "eleven", 4),
        planned(12, OTHER, Kind::SetBlob, "a", "twelve", 5),
        planned(13, JAMS, Kind::DeleteBlob, "b", "", 4),
        planned(14, JAMS, Kind::SetContainer, "", "fourteen", 5),
        planned(15, JAMS, Kind::SetBlob, "c", "fifteen", 6),
    ]
}

fn name(rt: &impl Abort, alloc: Global, blob: &str) -> Text {
    if blob != LONG {
        return text(rt, alloc, blob);
    }
    let mut long = String::new(alloc);
    for _ in 0..1024 {
        long.push('\u{e9}').expect(rt, "memory");
    }
    Text::new(long).expect(rt, "a clean text")
}

fn put(rt: &impl Abort, alloc: Global, step: &Step) -> Act {
    Act::PutBlob(PutBlob {
        blob: name(rt, alloc, step.blob),
        moment: moment_after(rt, step.tick),
        props: props(rt, alloc),
        metadata: author(rt, alloc, step.word),
        content: content(rt, alloc, step.word),
    })
}

fn act(rt: &impl Abort, alloc: Global, step: &Step) -> Act {
    let moment = moment_after(rt, step.tick);
    match step.kind {
        Kind::Create(level) => Act::CreateContainer(CreateContainer {
            moment,
            level,
            metadata: author(rt, alloc, step.word),
        }),
        Kind::SetContainer => Act::SetContainerMetadata(SetContainerMetadata {
            moment,
            metadata: author(rt, alloc, step.word),
        }),
        Kind::DeleteContainer => Act::DeleteContainer,
        Kind::Put => put(rt, alloc, step),
        Kind::SetBlob => Act::SetMetadata(SetMetadata {
            blob: name(rt, alloc, step.blob),
            moment,
            metadata: author(rt, alloc, step.word),
        }),
        Kind::DeleteBlob => Act::DeleteBlob(DeleteBlob {
            blob: name(rt, alloc, step.blob),
        }),
    }
}

// Makes the change of a step, and gives the count of its container after it.
fn run(rt: &impl Abort, alloc: Global, rows: &mut Rows, step: &Step) -> u64 {
    let act = act(rt, alloc, step);
    let change = Change::new(key(rt, alloc, step.account, step.container), act);
    make(rt, alloc, rows, change.expect(rt, "a good change"));
    rows.count(&key(rt, alloc, step.account, step.container))
}

fn is_author(metadata: &Metadata, word: &str) -> bool {
    matches!(metadata.as_slice(), [meta] if meta.value.as_str() == word)
}

// The ETag, the tick of the moment, the level and the word of a container, if it exists.
type Made = Option<(u64, u8, Level, &'static str)>;

fn containers() -> [((&'static str, &'static str), Made); 4] {
    [
        (PICS, Some((4, 11, Level::Blob, "eleven"))),
        (OTHER, Some((1, 2, Level::Blob, "two"))),
        (JAMS, Some((5, 14, Level::Container, "fourteen"))),
        (("larder", "jams"), None),
    ]
}

fn is_made(standing: &Standing, etag: u64, made: Moment, level: Level, word: &str) -> bool {
    standing.etag == etag
        && standing.made == made
        && standing.acl.level == level
        && standing.acl.policies.as_slice().is_empty()
        && is_author(&standing.metadata, word)
}

fn has_container(
    rt: &impl Abort,
    alloc: Global,
    rows: &Rows,
    at_key: (&str, &str),
    made: Made,
) -> bool {
    let key = key(rt, alloc, at_key.0, at_key.1);
    let level = rows.acl(&key).map(|acl| acl.level);
    match (rows.container(&key), made) {
        (Some(standing), Some((etag, tick, made_level, word))) => {
            level == Some(made_level)
                && is_made(standing, etag, moment_after(rt, tick), made_level, word)
        }
        (None, None) => level.is_none(),
        _ => false,
    }
}

// The ETag, the tick of the moment, the word in the metadata and the content of a blob, if it
// exists.
pub(crate) type Written = Option<(u64, u8, &'static str, &'static str)>;

fn blobs() -> [((&'static str, &'static str), &'static str, Written); 9] {
    [
        (PICS, "a", None),
        (OTHER, "a", Some((5, 12, "twelve", "four"))),
        (OTHER, "a/b", Some((3, 5, "five", "five"))),
        (OTHER, "x\u{85}", Some((4, 6, "six", "six"))),
        (OTHER, "b", None),
        (JAMS, LONG, Some((2, 8, "eight", "eight"))),
        (JAMS, "b", None),
        (JAMS, "c", None),
        (("larder", "jams"), "a", None),
    ]
}

fn holds(block: &Block<Pieces>, word: &str) -> bool {
    match block.content.as_slice() {
        [Piece::Bytes(share)] => block.id.is_none() && share.as_slice() == word.as_bytes(),
        _ => false,
    }
}

fn is_written(
    blob: &Committed<Pieces>,
    etag: u64,
    made: Moment,
    word: &str,
    content: &str,
) -> bool {
    let whole = matches!(blob.blocks.as_slice(), [block] if holds(block, content));
    whole
        && blob.etag == etag
        && blob.made == made
        && is_author(&blob.metadata, word)
        && blob.props.content_type().as_str() == "text/plain"
}

/// Whether the rows have the blob with this ETag, moment, word and content, or have no such blob.
pub(crate) fn has_blob(
    rt: &impl Abort,
    alloc: Global,
    rows: &Rows,
    at_key: (&str, &str),
    blob: &str,
    written: Written,
) -> bool {
    let key = key(rt, alloc, at_key.0, at_key.1);
    match (rows.blob(&key, &name(rt, alloc, blob)), written) {
        (Some(blob), Some((etag, tick, word, content))) => {
            is_written(blob, etag, moment_after(rt, tick), word, content)
        }
        (None, None) => true,
        _ => false,
    }
}

#[test]
fn six_changes_leave_what_they_do_not_name(rt: HostRuntime) {
    let alloc = rt.alloc();
    let mut rows = Rows::new(alloc);
    for step in steps() {
        let count = run(&rt, alloc, &mut rows, &step);
        assert!(rt; count == step.count, "{} {count}", step.tick);
    }
    for (at_key, made) in containers() {
        assert!(rt;
            has_container(&rt, alloc, &rows, at_key, made),
            "{at_key:?}"
        );
    }
    for (at_key, blob, written) in blobs() {
        assert!(rt;
            has_blob(&rt, alloc, &rows, at_key, blob, written),
            "{at_key:?} {blob}"
        );
    }
}

fn uncommitted(rt: &impl Abort, alloc: Global, id: u8, word: &str) -> UncommittedBlock {
    let id = BlockId::new(Bytes::new(vec![in alloc; id].expect(rt, "memory")));
    UncommittedBlock {
        id: id.expect(rt, "an id"),
        content: content(rt, alloc, word),
    }
}

/// The act that stores the blob of this name, with this content and two uncommitted blocks.
pub(crate) fn stored_as(rt: &impl Abort, alloc: Global, blob: &str, word: &str) -> Act {
    let block = Block {
        id: None,
        content: content(rt, alloc, word),
    };
    let blocks = [
        uncommitted(rt, alloc, 1, "seven"),
        uncommitted(rt, alloc, 2, "eight"),
    ];
    Act::StoredBlob(StoredBlob {
        blob: name(rt, alloc, blob),
        committed: Some(Committed {
            etag: 3,
            made: moment_after(rt, 5),
            props: props(rt, alloc),
            metadata: author(rt, alloc, "five"),
            blocks: Items::new(vec![in alloc; block].expect(rt, "memory")),
        }),
        uncommitted: Items::new(Vec::from_array(alloc, blocks).expect(rt, "memory")),
    })
}

#[test]
fn the_row_of_a_checkpoint_is_a_blob(rt: HostRuntime) {
    let alloc = rt.alloc();
    let mut rows = Rows::new(alloc);
    let change = Change::new(
        key(&rt, alloc, PICS.0, PICS.1),
        stored_as(&rt, alloc, "a", "six"),
    );
    make(&rt, alloc, &mut rows, change.expect(&rt, "a good change"));
    let written = Some((3, 5, "five", "six"));
    assert!(rt; has_blob(&rt, alloc, &rows, PICS, "a", written));
}
