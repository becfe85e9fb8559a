//! Changes of a partition, and the answers of its streams, for tests.
ghost use Rattle.std.specs.Box.{box_value};
ghost use Rattle.std.specs.Prelude.{◌≡◌, ◌≤◌, IsSomeAnd, None, length, map};
ghost use Rattle.stamp_types.specs.Changes.{content_of};
ghost use Rattle.stamp_types.specs.Pieces.{cut, piece_len};
ghost use Rattle.stamp_types.specs.declared.act.Act.TheVariants as act;
ghost use Rattle.stamp_values.specs.Limits.{put_blob_limit};
ghost use Rattle.stream_manager.specs.Streams.{laid};
ghost use Rattle.partition_stream.specs.Contents.{AreStored};
ghost use Rattle.partition_stream.specs.Streams.{AreSealed, logged};
ghost use Rattle.streams_tests.specs.declared.partition_samples.Told.TheVariants as told;

use crate::put_first::put_and_log;
use crate::sample_fields::text;
use crate::sample_wires::script;
use extent_node::Script;
use extent_seal::ReadFault;
use partition_stream::{Part, Position, Streams, TakeFault};
use stamp_types::{Act, BlockId, Bytes, Change, Key, Pieces, PutBlock, Share};
use std::alloc::Global;
use std::process::Abort;
use stream_manager::{Settled, StoredFault};

/// What a call answered.
#[derive(Clone, Copy, Debug, PartialEq, Eq)]
pub(crate) enum Told {
    Done,
    Busy,
    Doubt,
    NoMemory,
    Clean,
    Kept,
    Dropped,
    Read,
    End,
    Unreachable,
}

/// Streams without a change. A test owns them by a pointer, since a value with so many fields makes each step of its owner slow to prove.
pub(crate) fn streams(rt: &impl Abort, alloc: Global, extent_bytes: u32) -> Box<Streams> {
    let streams = Streams::new(alloc, extent_bytes);
    Box::new(alloc, streams).expect(rt, "memory")
}

/// Streams that share what these streams have, all of which is sealed. Their data has the same blocks.
pub(crate) fn half(rt: &impl Abort, alloc: Global, streams: &mut Streams) -> Box<Streams>
    requires { AreSealed streams.old }
    ensures { laid (box_value result).blobs ≡ laid streams.old.blobs }
{
    match streams.share() {
        Ok(half) => Box::new(alloc, half).expect(rt, "memory"),
        Err(_) => panic!(rt; "no memory"),
    }
}

/// The change that deletes the container of this name.
pub(crate) fn change(rt: &impl Abort, alloc: Global, name: &str) -> Change
    ensures { result.act ≡ act.DeleteContainer }
{
    let key = Key {
        account: text(rt, alloc, "devstoreaccount1"),
        container: text(rt, alloc, name),
    };
    Change::new(key, Act::DeleteContainer).expect(rt, "a good change")
}

/// The answer of a call that takes a change into a log or into rows.
pub(crate) fn taken(answer: Result<(), TakeFault>) -> Told {
    match answer {
        Ok(()) => Told::Done,
        Err(TakeFault::Busy) => Told::Busy,
        Err(TakeFault::Doubt) => Told::Doubt,
        Err(TakeFault::NoMemory) => Told::NoMemory,
    }
}

/// Logs the change that deletes the container of this name, with this epoch.
pub(crate) fn log_at(
    rt: &impl Abort,
    alloc: Global,
    streams: &mut Streams,
    name: &str,
    epoch: u64,
    wire: &mut Script,
) -> Told {
    let change = change(rt, alloc, name);
    let answer = streams.log_change(&change, epoch, wire);
    drop(change);
    taken(answer.map(drop))
}

/// Logs the change that deletes the container of this name, with the epoch 0.
pub(crate) fn log(
    rt: &impl Abort,
    alloc: Global,
    streams: &mut Streams,
    name: &str,
    wire: &mut Script,
) -> Told {
    log_at(rt, alloc, streams, name, 0, wire)
}

/// Settles the doubt of the log.
pub(crate) fn settle(streams: &mut Streams, wire: &mut Script) -> Told
    ensures sure { result ≡ told.Clean → (logged streams.new).doubt ≡ None }
{
    match streams.settle(wire) {
        Ok(Settled::Clean) => Told::Clean,
        Ok(Settled::Kept(_)) => Told::Kept,
        Ok(Settled::Dropped) => Told::Dropped,
        Err(StoredFault::Busy) => Told::Busy,
        Err(StoredFault::NoMemory) => Told::NoMemory,
    }
}

// Whether the change is the one that deletes the container of this name.
fn is_named(change: &Change, name: &str) -> bool {
    let is_name = change.key().container.as_str() == name;
    is_name && matches!(change.act(), Act::DeleteContainer)
}

/// Whether the next change is the one that deletes the container of this name, with this epoch.
pub(crate) fn is_next(
    streams: &Streams,
    position: &mut Position,
    name: &str,
    epoch: u64,
    wire: &mut Script,
) -> bool {
    match streams.next_change(position, wire) {
        Ok(Some(read)) => {
            let is = is_named(&read.0, name) && read.1 == epoch;
            drop(read);
            is
        }
        Ok(None) => false,
        Err(_) => false,
    }
}

/// What the next read of a change answers.
pub(crate) fn next(streams: &Streams, position: &mut Position, wire: &mut Script) -> Told {
    match streams.next_change(position, wire) {
        Ok(Some(read)) => {
            drop(read);
            Told::Read
        }
        Ok(None) => Told::End,
        Err(ReadFault::Unreachable) => Told::Unreachable,
        Err(ReadFault::NoMemory) => Told::NoMemory,
    }
}

/// Whether the streams keep the changes that delete these containers, in this order, with the epoch 0, and no other change.
pub(crate) fn keeps(rt: &impl Abort, alloc: Global, streams: &Streams, names: &[&str]) -> bool {
    let mut wire = script(rt, alloc, &[], &[]);
    let mut position = Position::first();
    let mut keeps = true;
    for name in names {
        keeps = keeps && is_next(streams, &mut position, name, 0, &mut wire);
    }
    keeps && next(streams, &mut position, &mut wire) == Told::End
}

fn is_placed(change: &Change, len: u64) -> bool {
    match change.content() {
        Some(content) => content.is_placed() && content.len() == len,
        None => false,
    }
}

/// Whether the first change brings so many bytes of content, which are in the data.
pub(crate) fn first_is_placed(streams: &Streams, len: u64, wire: &mut Script) -> bool {
    let mut position = Position::first();
    match streams.next_change(&mut position, wire) {
        Ok(Some(read)) => {
            let is = is_placed(&read.0, len);
            drop(read);
            is
        }
        Ok(None) => false,
        Err(_) => false,
    }
}

// The change that puts the block of this content.
#[tactic(auto, using(partition_stream::proofs::DataLemmas::cut_held))]
pub(crate) fn block(rt: &impl Abort, alloc: Global, body: &Share) -> Change
    requires { length body.now ≤ put_blob_limit }
    ensures { IsSomeAnd (content_of result.act) (λ ps. map piece_len ps ≡ map piece_len (cut body.now)) }
{
    let key = Key {
        account: text(rt, alloc, "devstoreaccount1"),
        container: text(rt, alloc, "one"),
    };
    let bytes = b"id".to_vec(alloc).expect(rt, "memory");
    let id = BlockId::new(Bytes::new(bytes)).expect(rt, "an id");
    let blob = text(rt, alloc, "a.txt");
    let content = Pieces::cut(alloc, body).expect(rt, "memory");
    let act = Act::PutBlock(PutBlock { blob, id, content });
    Change::new(key, act).expect(rt, "a good change")
}

/// Puts a body into the data and logs the change that puts a block of it.
#[tactic(auto, using(partition_stream::proofs::DataLemmas::cut_held))]
pub(crate) fn put_and_log_block(
    rt: &impl Abort,
    alloc: Global,
    streams: &mut Streams,
    body: &Share,
    wire: &mut Script,
) -> bool
    requires { length body.now ≤ put_blob_limit }
{
    let content = Pieces::cut(alloc, body).expect(rt, "memory");
    let change = block(rt, alloc, body);
    put_and_log(streams, change, &content, wire).is_ok()
}

/// Puts a body into the data, and says whether that was Busy.
#[tactic(auto, using(partition_stream::proofs::DataLemmas::cut_held))]
pub(crate) fn try_put(
    rt: &impl Abort,
    alloc: Global,
    streams: &mut Streams,
    body: &Share,
    wire: &mut Script,
) -> Told
    requires { length body.now ≤ put_blob_limit }
{
    let content = Pieces::cut(alloc, body).expect(rt, "memory");
    match streams.put_data(&content, wire) {
        Ok(_placed) => Told::Done,
        Err(StoredFault::Busy) => Told::Busy,
        Err(StoredFault::NoMemory) => Told::NoMemory,
    }
}

/// Puts a body into the data.
#[tactic(auto, using(partition_stream::proofs::DataLemmas::cut_held))]
pub(crate) fn put(
    rt: &impl Abort,
    alloc: Global,
    streams: &mut Streams,
    body: &Share,
    wire: &mut Script,
) -> Pieces
    requires { length body.now ≤ put_blob_limit }
    ensures { AreStored (laid streams.new.blobs) result }
{
    let content = Pieces::cut(alloc, body).expect(rt, "memory");
    match streams.put_data(&content, wire) {
        Ok(placed) => placed,
        Err(_) => panic!(rt; "no fault"),
    }
}

/// The bytes of a piece from `start` up to `end`, or no bytes if they are not reached.
pub(crate) fn part(
    rt: &impl Abort,
    streams: &Streams,
    placed: &Pieces,
    index: usize,
    start: usize,
    end: usize,
    wire: &mut Script,
) -> Share
    requires { AreStored (laid streams.now.blobs) placed.now }
{
    let pieces = placed.as_slice();
    assert!(rt; index < pieces.len());
    let piece = &pieces[index];
    assert!(rt; start <= end && end as u64 <= piece.len());
    match streams.read_part(piece, start, end, wire) {
        Ok(part) => part,
        Err(_) => Share::empty(),
    }
}

/// The bytes of the first piece from `start` up to `end`, to be read without the streams.
pub(crate) fn kept_part(
    rt: &impl Abort,
    streams: &mut Streams,
    placed: &Pieces,
    start: usize,
    end: usize,
    wire: &mut Script,
) -> Part
    requires { AreStored (laid streams.old.blobs) placed.now }
{
    let pieces = placed.as_slice();
    assert!(rt; 0 < pieces.len());
    let piece = &pieces[0];
    assert!(rt; start <= end && end as u64 <= piece.len());
    match streams.part(piece, start, end, wire) {
        Ok(part) => part,
        Err(_) => panic!(rt; "no fault"),
    }
}

/// Puts the bytes 7, 8 and 9.
pub(crate) fn put_three(rt: &impl Abort, alloc: Global, streams: &mut Streams) -> Pieces
    ensures { AreStored (laid streams.new.blobs) result }
{
    let mut wire = script(rt, alloc, &[], &[]);
    let bytes = vec![in alloc; 7u8, 8, 9].expect(rt, "memory");
    let body = Share::new(alloc, bytes).expect(rt, "memory");
    put(rt, alloc, streams, &body, &mut wire)
}

/// Puts the bytes 7, 8 and 9, and seals the streams.
pub(crate) fn put_and_seal(rt: &impl Abort, alloc: Global, streams: &mut Streams) -> Pieces
    ensures sealed { AreSealed streams.new }
    ensures stored { AreStored (laid streams.new.blobs) result }
{
    let mut wire = script(rt, alloc, &[], &[]);
    let placed = put_three(rt, alloc, streams);
    assert!(rt; streams.seal(&mut wire).is_ok());
    placed
}
