//! The row of a blob whose content is put again at the end of the data (SOSP 2011, section 5.3).
ghost use Rattle.std.specs.Prelude.{IfOk, List};
ghost use Rattle.extent_node.specs.Copies as copies;
ghost use Rattle.stamp_types.specs.Contents.{EachActContent};
ghost use Rattle.stream_manager.specs.Places.{KeepsPlaces};
ghost use Rattle.stream_manager.specs.Streams.{laid};
ghost use Rattle.partition_stream.specs.Contents.{AreStored};

use crate::partition_samples::{part, put_and_seal, streams};
use crate::sample_fields::{bare, id, key, noon, red, text};
use crate::sample_wires::{R, lost_after, script, stopped_after};
use extent_node::Script;
use partition_stream::{CompactionFault, Streams};
use stamp_types::{
    Act, Block, Change, Committed, Items, Piece, Pieces, StoredBlob, UncommittedBlock,
};
use std::alloc::Global;
use std::process::Abort;

// The row of the blob `a.txt`, which has a committed block and an uncommitted block of the same content.
fn row(rt: &impl Abort, alloc: Global, content: &Pieces) -> Change
    ensures { (es : List (List copies.Block)) → AreStored es content.now → EachActContent (AreStored es) result.act }
{
    let block = Block {
        id: None,
        content: content.clone().expect(rt, "memory"),
    };
    let uncommitted = UncommittedBlock {
        id: id(rt, alloc, b"one"),
        content: content.clone().expect(rt, "memory"),
    };
    let act = Act::StoredBlob(StoredBlob {
        blob: text(rt, alloc, "a.txt"),
        committed: Some(Committed {
            etag: 7,
            made: noon(rt),
            props: bare(rt, alloc),
            metadata: red(rt, alloc),
            blocks: Items::new(vec![in alloc; block].expect(rt, "memory")),
        }),
        uncommitted: Items::new(vec![in alloc; uncommitted].expect(rt, "memory")),
    });
    Change::new(key(rt, alloc), act).expect(rt, "a good row")
}

// Puts the content of a row again.
#[tactic(auto, using(partition_stream::proofs::MovedRowLemmas::act_stored))]
fn again(
    rt: &impl Abort,
    streams: &mut Streams,
    row: &Change,
    wire: &mut Script,
) -> Result<Change, CompactionFault>
    requires { EachActContent (AreStored (laid streams.old.blobs)) row.now.act }
    ensures stored { IfOk result (λ c. EachActContent (AreStored (laid streams.new.blobs)) c.act) }
    ensures kept { KeepsPlaces (laid streams.old.blobs) (laid streams.new.blobs) }
{
    let Act::StoredBlob(stored) = row.act() else {
        panic!(rt; "the row of a blob");
    };
    streams.put_row_again(row.key(), stored, wire)
}

// Whether the content is the bytes 7, 8 and 9, in the extent of this number.
fn is_three_in(
    rt: &impl Abort,
    streams: &Streams,
    content: &Pieces,
    extent: u64,
    wire: &mut Script,
) -> bool
    requires { AreStored (laid streams.now.blobs) content.now }
{
    let [Piece::At { place, .. }] = content.as_slice() else {
        return false;
    };
    let bytes = part(rt, streams, content, 0, 0, 3, wire);
    place.extent == extent && bytes.as_slice() == &[7u8, 8, 9][..]
}

// Whether both blocks of the row are the bytes 7, 8 and 9, in the extent of this number.
fn has_threes_in(
    rt: &impl Abort,
    streams: &Streams,
    row: &Change,
    extent: u64,
    wire: &mut Script,
) -> bool
    requires { EachActContent (AreStored (laid streams.now.blobs)) row.now.act }
{
    let Act::StoredBlob(row) = row.act() else {
        return false;
    };
    let Some(committed) = &row.committed else {
        return false;
    };
    let [block] = committed.blocks.as_slice() else {
        return false;
    };
    let [uncommitted] = row.uncommitted.as_slice() else {
        return false;
    };
    is_three_in(rt, streams, &block.content, extent, wire)
        && is_three_in(rt, streams, &uncommitted.content, extent, wire)
}

#[tactic(auto, using(partition_stream::proofs::ContentLemmas::change_stays))]
fn put_again(rt: &impl Abort, alloc: Global, streams: &mut Streams) {
    let placed = put_and_seal(rt, alloc, streams);
    let row = row(rt, alloc, &placed);
    let mut wire = script(rt, alloc, &[], &[]);
    let moved = again(rt, streams, &row, &mut wire);
    // Each of the two contents is read from one node and put to three.
    assert!(rt; wire.called().len() == 2 * (1 + 3));
    let moved = moved.ok().expect(rt, "three nodes");
    assert!(rt; has_threes_in(rt, streams, &moved, 1, &mut wire));
    assert!(rt; has_threes_in(rt, streams, &row, 0, &mut wire));
    assert!(rt; streams.log_change(&moved, 0, &mut wire).is_ok());
}

#[test]
fn a_row_is_put_again_after_what_is_sealed(rt: HostRuntime) {
    let mut streams = streams(&rt, rt.alloc(), 1_000_000);
    put_again(&rt, rt.alloc(), &mut *streams);
}

// Puts the content of a row again, which fails so. The row is then as it was.
#[tactic(auto, using(partition_stream::proofs::ContentLemmas::change_stays))]
fn fail(
    rt: &impl Abort,
    alloc: Global,
    streams: &mut Streams,
    mut wire: Script,
    fault: CompactionFault,
) {
    let placed = put_and_seal(rt, alloc, streams);
    let row = row(rt, alloc, &placed);
    let told = again(rt, streams, &row, &mut wire).err();
    assert!(rt; told == Some(fault));
    let mut wire = script(rt, alloc, &[], &[]);
    assert!(rt; has_threes_in(rt, streams, &row, 0, &mut wire));
}

#[test]
fn a_row_whose_block_is_refused_twice_is_busy(rt: HostRuntime) {
    for blocks in 0..2 {
        let mut streams = streams(&rt, rt.alloc(), 1_000_000);
        let puts = stopped_after(&rt, rt.alloc(), blocks, R);
        let wire = script(&rt, rt.alloc(), puts.as_slice(), &[]);
        fail(&rt, rt.alloc(), &mut *streams, wire, CompactionFault::Busy);
    }
}

#[test]
fn a_row_whose_content_no_node_gives_is_unreachable(rt: HostRuntime) {
    for reads in 0..2 {
        let mut streams = streams(&rt, rt.alloc(), 1_000_000);
        let asks = lost_after(&rt, rt.alloc(), reads);
        let wire = script(&rt, rt.alloc(), &[], asks.as_slice());
        fail(
            &rt,
            rt.alloc(),
            &mut *streams,
            wire,
            CompactionFault::Unreachable,
        );
    }
}
