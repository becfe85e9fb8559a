//! Stored rows, what they have of a container, and the answers of their calls, for tests.
ghost use Rattle.std.specs.Prelude.{◌≡◌, IfSome, IsTrue, None, false, true};
ghost use Rattle.stamp_types.specs.ActKinds as kinds;
ghost use Rattle.stamp_types.specs.Changes.{content_of};
ghost use Rattle.stamp_types.specs.Pieces.{pieces_len};
ghost use Rattle.stamp_types.specs.Pieces as pieces;
ghost use Rattle.stamp_types.specs.World.{part_value};
ghost use Rattle.row_trees.specs.Fits.{fits};
ghost use Rattle.stream_manager.specs.Streams.{laid};
ghost use Rattle.partition_stream.specs.Contents.{IsStored};
ghost use Rattle.stored_rows.specs.Ranges.{covers};
ghost use Rattle.stored_rows.specs.States.{doubt_of, pieces_of};

use crate::partition_samples::{Told, taken};
use crate::sample_acts::{create_container, put_hello};
use crate::sample_fields::text;
use crate::sample_wires::script;
use extent_node::Script;
use partition_stream::Part;
use row_trees::Found;
use stamp_types::{Act, Change, Key, Piece};
use std::alloc::Global;
use std::process::Abort;
use stored_rows::{Ended, KeyRange, StoredFault, StoredRows};

/// What rows have of a container. The first number is its count: how many changes it has taken.
#[derive(Clone, Copy, Debug, PartialEq, Eq)]
pub(crate) enum Seen {
    Never,
    Deleted(u64),
    /// The container exists, and the blob `a.txt` does not.
    Empty(u64),
    /// The blob `a.txt` has so many bytes.
    Blob(u64, u64),
}

pub(crate) fn key(rt: &impl Abort, alloc: Global, name: &str) -> Key {
    Key {
        account: text(rt, alloc, "devstoreaccount1"),
        container: text(rt, alloc, name),
    }
}

// The containers from `bbb` on.
fn from_bbb(rt: &impl Abort, alloc: Global) -> KeyRange {
    KeyRange {
        from: key(rt, alloc, "bbb"),
        to: None,
    }
}

/// Rows of the containers from `bbb` on, in extents of a million bytes. A test owns them by a pointer, as it owns streams.
pub(crate) fn stored(rt: &impl Abort, alloc: Global) -> Box<StoredRows> {
    let stored = StoredRows::new(alloc, 1_000_000, from_bbb(rt, alloc));
    Box::new(alloc, stored).expect(rt, "memory")
}

/// The same rows, of which lists are gathered.
pub(crate) fn gathering(rt: &impl Abort, alloc: Global) -> Box<StoredRows> {
    let stored = StoredRows::new(alloc, 1_000_000, from_bbb(rt, alloc)).gathering_lists();
    Box::new(alloc, stored).expect(rt, "memory")
}

/// The change of the container of this name.
pub(crate) fn change_of(rt: &impl Abort, alloc: Global, name: &str, act: Act) -> Change {
    Change::new(key(rt, alloc, name), act).expect(rt, "a good change")
}

/// The change that creates the container of this name.
pub(crate) fn create(rt: &impl Abort, alloc: Global, name: &str) -> Change {
    let act = create_container(rt, alloc);
    change_of(rt, alloc, name, act)
}

/// The change that puts the blob `a.txt` of the bytes `hello` into the container of this name.
pub(crate) fn put(rt: &impl Abort, alloc: Global, name: &str) -> Change {
    let act = put_hello(rt, alloc);
    change_of(rt, alloc, name, act)
}

/// The change that deletes the container of this name.
pub(crate) fn delete(rt: &impl Abort, alloc: Global, name: &str) -> Change {
    change_of(rt, alloc, name, Act::DeleteContainer)
}

fn is_row(act: &Act) -> bool
    ensures { result ≡ kinds.is_row act.now }
{
    matches!(act, Act::ContainerRow(_) | Act::StoredBlob(_))
}

fn is_held(change: &Change) -> bool
    ensures { result ≡ true → IfSome (content_of change.now.act) (λ ps. IsTrue (pieces.is_held ps)) }
{
    match change.content() {
        Some(content) => content.is_held(),
        None => true,
    }
}

/// Tests what a take requires.
pub(crate) fn test_change(rt: &impl Abort, stored: &StoredRows, change: &Change)
    ensures covered { covers stored.now.range change.now.key ≡ true }
    ensures plain { kinds.is_row change.now.act ≡ false }
    ensures held { IfSome (content_of change.now.act) (λ ps. IsTrue (pieces.is_held ps)) }
    ensures fits { IsTrue (fits (part_value pieces_len (pieces_of stored.now change.now.key)) change.now.act) }
    ensures sure { doubt_of stored.now ≡ None }
{
    assert!(rt; stored.is_loaded());
    assert!(rt; stored.covers(change.key()));
    assert!(rt; !is_row(change.act()));
    assert!(rt; is_held(change));
    let fits = stored.fits(change).expect(rt, "memory");
    assert!(rt; fits);
    assert!(rt; stored.is_sure());
}

/// Takes a change with the epoch 7.
pub(crate) fn take(
    rt: &impl Abort,
    stored: &mut StoredRows,
    change: Change,
    wire: &mut Script,
) -> Told {
    test_change(rt, stored, &change);
    taken(stored.take(change, None, 7, wire))
}

/// Unloads the rows, and takes a change.
pub(crate) fn unload_and_take(
    rt: &impl Abort,
    stored: &mut StoredRows,
    change: Change,
    wire: &mut Script,
) -> Told {
    test_change(rt, stored, &change);
    stored.unload();
    taken(stored.take(change, None, 7, wire))
}

fn told(answer: Result<(), StoredFault>) -> Told {
    match answer {
        Ok(()) => Told::Done,
        Err(StoredFault::Busy) => Told::Busy,
        Err(StoredFault::NoMemory) => Told::NoMemory,
    }
}

pub(crate) fn load(stored: &mut StoredRows, wire: &mut Script) -> Told {
    told(stored.load(wire))
}

pub(crate) fn settle(stored: &mut StoredRows, wire: &mut Script) -> Told {
    match stored.settle(wire) {
        Ok(Ended::Clean) => Told::Clean,
        Ok(Ended::Kept) => Told::Kept,
        Ok(Ended::Dropped) => Told::Dropped,
        Err(StoredFault::Busy) => Told::Busy,
        Err(StoredFault::NoMemory) => Told::NoMemory,
    }
}

pub(crate) fn seal(rt: &impl Abort, stored: &mut StoredRows, wire: &mut Script) -> Told {
    assert!(rt; stored.is_sure());
    told(stored.seal(wire).map(drop))
}

/// Writes the rows, which are loaded, as a checkpoint.
pub(crate) fn checkpoint(rt: &impl Abort, stored: &mut StoredRows, wire: &mut Script) -> Told {
    assert!(rt; stored.is_loaded());
    assert!(rt; stored.is_sure());
    told(stored.checkpoint(wire).map(drop))
}

/// Cuts the rows at the key of the container of this name. `None` if that was Busy.
pub(crate) fn cut(
    rt: &impl Abort,
    alloc: Global,
    stored: &mut StoredRows,
    name: &str,
    wire: &mut Script,
) -> Option<Box<StoredRows>> {
    let middle = key(rt, alloc, name);
    assert!(rt; stored.is_sure());
    assert!(rt; stored.covers(&middle));
    match stored.cut(&middle, wire) {
        Ok(half) => Some(Box::new(alloc, half).expect(rt, "memory")),
        Err(StoredFault::Busy) => None,
        Err(StoredFault::NoMemory) => panic!(rt; "no memory"),
    }
}

fn look_in(rt: &impl Abort, alloc: Global, found: &Found<'_>) -> Seen {
    let count = found.count();
    if found.standing().is_none() {
        return if count == 0 {
            Seen::Never
        } else {
            Seen::Deleted(count)
        };
    }
    let Some(committed) = found.committed(&text(rt, alloc, "a.txt")) else {
        return Seen::Empty(count);
    };
    match committed.blocks.as_slice() {
        [block] => Seen::Blob(count, block.content.len()),
        _ => panic!(rt; "one block"),
    }
}

/// What the rows, which are loaded, have of the container of this name, which is one of the range.
pub(crate) fn look(rt: &impl Abort, alloc: Global, stored: &StoredRows, name: &str) -> Seen {
    let key = key(rt, alloc, name);
    assert!(rt; stored.is_loaded());
    assert!(rt; stored.covers(&key));
    look_in(rt, alloc, &stored.find(&key))
}

/// What the rows, which are loaded, have of the container of this name.
pub(crate) fn look_in_rows(
    rt: &impl Abort,
    alloc: Global,
    stored: &StoredRows,
    name: &str,
) -> Seen {
    let rows = stored.rows().expect(rt, "rows that are loaded");
    look_in(rt, alloc, &rows.find(&key(rt, alloc, name)))
}

/// The piece of the blob in the container of this name.
pub(crate) fn piece(rt: &impl Abort, alloc: Global, stored: &StoredRows, name: &str) -> Piece
    ensures { IsStored (laid stored.now.streams.blobs) result }
{
    let key = key(rt, alloc, name);
    assert!(rt; stored.is_loaded());
    assert!(rt; stored.covers(&key));
    stored.kept();
    let found = stored.find(&key);
    let committed = found
        .committed(&text(rt, alloc, "a.txt"))
        .expect(rt, "a blob");
    match committed.blocks.as_slice() {
        [block] => match block.content.as_slice() {
            [Piece::At { place, length }] => Piece::At {
                place: *place,
                length: *length,
            },
            _ => panic!(rt; "one piece in the data"),
        },
        _ => panic!(rt; "one block"),
    }
}

/// All bytes of the blob, to be read without the rows. So many nodes are asked for them now.
pub(crate) fn part(
    rt: &impl Abort,
    alloc: Global,
    stored: &mut StoredRows,
    name: &str,
    asked: usize,
) -> Part {
    let piece = piece(rt, alloc, stored, name);
    assert!(rt; piece.len() == 5);
    let mut wire = script(rt, alloc, &[], &[]);
    match stored.part(&piece, 0, 5, &mut wire) {
        Ok(part) => {
            assert!(rt; wire.called().len() == asked);
            part
        }
        Err(_) => panic!(rt; "no fault"),
    }
}

/// Whether the part is fetched as the bytes `hello` after so many nodes were asked.
pub(crate) fn is_hello(rt: &impl Abort, alloc: Global, part: &Part, asked: usize) -> bool {
    let mut wire = script(rt, alloc, &[], &[]);
    let bytes = part.fetch(&mut wire).ok().expect(rt, "bytes");
    bytes.as_slice() == &b"hello"[..] && wire.called().len() == asked
}
