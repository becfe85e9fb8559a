//! An example of each crate whose tests are here, which the README of the crate shows whole.

use crate::partition_samples::{Told, put_and_seal, settle, streams};
use crate::sample_fields::{id, key, text};
use crate::sample_rows::{created, rows_of};
use crate::sample_wires::script;
use crate::stored_samples::{create, key as key_of, stored, test_change};
use crate::stream_samples::block;
use crate::ticket_tests::{frame, has_body};
use body_forms::Draft;
use checkpoint_rows::checkpoint_rows;
use extent_node::{Call, Delivery, Node, Replica, Wire};
use log_record::{read_change, write_change};
use partition_stream::Position;
use range_rows::Span;
use stamp_types::{Act, Change, Pieces, PutBlock, Share};
use stream_manager::{AppendFault, Settled, Stream};
use tickets::{Answer, make_answer};

// extent_node
#[test]
fn a_block_is_put_to_a_node_or_refused(rt: HostRuntime) {
    let alloc = rt.alloc();
    // A wire that answers from two lists, and then Done and yes. The first put is Done, the second
    // is refused, and the first ask is answered no.
    let puts = [Delivery::Done, Delivery::Refused];
    let mut wire = script(&rt, alloc, &puts, &[false]);
    let sample = block(&rt, alloc, 7, 3); // three bytes 7
    let mut zero = Replica::new(alloc);
    zero.reserve().expect(&rt, "memory"); // so the put takes no memory
    let share = sample.share().expect(&rt, "an owner");
    assert!(rt; zero.put(Node::Zero, share, &mut wire).is_done());
    assert!(rt; zero.len() == 1 && *zero.block(0) == sample);
    let mut one = Replica::new(alloc);
    one.reserve().expect(&rt, "memory");
    let share = sample.share().expect(&rt, "an owner");
    assert!(rt; !one.put(Node::One, share, &mut wire).is_taken());
    assert!(rt; one.len() == 0 && !wire.ask(Node::One));
    let calls = [
        Call::Put(Node::Zero),
        Call::Put(Node::One),
        Call::Ask(Node::One),
    ];
    assert!(rt; wire.called() == &calls[..]);
}

// stream_manager
#[test]
fn a_block_in_doubt_is_settled_and_read(rt: HostRuntime) {
    let alloc = rt.alloc();
    let mut stream = Stream::new(alloc, 268_435_456); // so many bytes go into one extent
    // Node 0 takes the block, and the others refuse it. Then no node answers. The settle gets an
    // answer of node 0.
    let puts = [Delivery::Done, Delivery::Refused, Delivery::Refused];
    let asks = [false, false, false, true, false, false];
    let mut wire = script(&rt, alloc, &puts, &asks);
    let one = block(&rt, alloc, 7, 3); // three bytes 7
    let fault = stream.append(&one, &mut wire).err();
    assert!(rt; matches!(fault, Some(AppendFault::Doubt))); // the block may count or not
    let settled = stream.settle(&mut wire).ok().expect(&rt, "a node");
    let Settled::Kept(place) = settled else {
        panic!(rt; "node 0 has the block");
    };
    assert!(rt; place.extent == 0 && place.index == 0);
    assert!(rt; stream.has_block(place)); // a read requires it
    let read = stream.read(place, &mut wire).ok().expect(&rt, "a node");
    assert!(rt; read == one);
    // The settle sealed extent 0.
    let two = block(&rt, alloc, 8, 2);
    let place = stream
        .append(&two, &mut wire)
        .ok()
        .expect(&rt, "three nodes");
    assert!(rt; place.extent == 1 && place.index == 0);
    assert!(rt; stream.seal(&mut wire).is_ok());
}

// log_record
#[test]
fn a_change_is_written_as_a_record_and_read(rt: HostRuntime) {
    let alloc = rt.alloc();
    let key = key(&rt, alloc); // the container `pics` of `devstoreaccount1`
    let change = Change::new(key, Act::DeleteContainer).expect(&rt, "a good change");
    let record = write_change(alloc, &change, 7).expect(&rt, "memory"); // 7 is the epoch
    // Version 2, kind 4, the epoch in eight bytes, and the two names, each after its length.
    assert!(rt; record.starts_with(b"\x02\x04\0\0\0\0\0\0\0\x07"));
    assert!(rt; record.ends_with(b"\0\0\0\x10devstoreaccount1\0\0\0\x04pics"));
    let (read, epoch) = read_change(alloc, &record).expect(&rt, "a record");
    assert_eq!(rt; epoch, 7);
    assert!(rt; read.same(&change));
    drop(read);
    drop(change);
}

// partition_stream
#[test]
#[tactic(auto, using(partition_stream::proofs::DataLemmas::cut_held))]
fn content_is_put_before_its_change_is_logged(rt: HostRuntime) {
    let alloc = rt.alloc();
    let mut streams = streams(&rt, alloc, 1_000_000); // new streams, with a million bytes in an extent
    let mut wire = script(&rt, alloc, &[], &[]); // three nodes that do all that they are told
    let hello = Share::new(alloc, b"hello".to_vec(alloc).expect(&rt, "memory"));
    let hello = hello.expect(&rt, "memory");
    assert!(rt; hello.len() <= 67_108_864);
    let content = Pieces::cut(alloc, &hello).expect(&rt, "memory");
    let placed = streams.put_data(&content, &mut wire).ok();
    // The change says at which places the data has its content.
    let act = Act::PutBlock(PutBlock {
        blob: text(&rt, alloc, "a.txt"),
        id: id(&rt, alloc, b"0001"),
        content: placed.expect(&rt, "three nodes"),
    });
    let change = Change::new(key(&rt, alloc), act).expect(&rt, "a good change");
    assert!(rt; streams.log_change(&change, 7, &mut wire).is_ok()); // 7 is the epoch
    // A walk over all changes.
    let mut position = Position::first();
    let Ok(Some((read, epoch))) = streams.next_change(&mut position, &mut wire) else {
        panic!(rt; "a change");
    };
    assert!(rt; epoch == 7 && read.same(&change));
    drop(read);
    drop(change);
    assert!(rt; matches!(streams.next_change(&mut position, &mut wire), Ok(None)));
}

// checkpoint_rows
#[test]
fn rows_take_the_place_of_the_log(rt: HostRuntime) {
    let alloc = rt.alloc();
    let mut streams = streams(&rt, alloc, 1_000_000); // new streams, with a million bytes in an extent
    let mut wire = script(&rt, alloc, &[], &[]); // three nodes that do all that they are told
    // The log has one change, which creates the container `pics`, and so have the rows in memory.
    let change = created(&rt, alloc);
    assert!(rt; streams.log_change(&change, 7, &mut wire).is_ok()); // 7 is the epoch
    let rows = rows_of(&rt, alloc, change);
    let settled = settle(&mut *streams, &mut wire);
    assert!(rt; settled == Told::Clean); // no change is in doubt, as a checkpoint requires
    let replaced = checkpoint_rows(alloc, &mut *streams, &rows, 1_000_000, &mut wire);
    drop(replaced.ok().expect(&rt, "three nodes")); // the old log and rows: under no lock
    // The streams have the row of `pics`, and no other change.
    let mut position = Position::first();
    let Ok(Some((row, epoch))) = streams.next_change(&mut position, &mut wire) else {
        panic!(rt; "a row");
    };
    assert!(rt; matches!(row.act(), Act::ContainerRow(_)) && epoch == 0);
    drop(row);
    assert!(rt; matches!(streams.next_change(&mut position, &mut wire), Ok(None)));
}

// tickets
#[test]
fn content_is_fetched_after_the_streams_are_gone(rt: HostRuntime) {
    let alloc = rt.alloc();
    let mut streams = streams(&rt, alloc, 1_000_000);
    // The bytes 7, 8 and 9 are in a sealed extent of the data.
    let placed = put_and_seal(&rt, alloc, &mut *streams);
    let [piece] = placed.as_slice() else {
        panic!(rt; "one piece");
    };
    assert!(rt; piece.len() == 3); // the span lies within it
    let piece = piece.clone().expect(&rt, "an owner");
    let spans = [Span {
        piece,
        from: 1,
        to: 3,
    }];
    // Under a lock, of a reply whose own body is the bytes 1 and 2: no node is asked yet.
    let draft = Draft::written(frame(&rt, alloc));
    let mut wire = script(&rt, alloc, &[], &[]);
    let answer = make_answer(alloc, &mut *streams, draft, &spans, true, &mut wire);
    let Ok(Answer::Later(ticket)) = answer else {
        panic!(rt; "sealed content is read later");
    };
    assert!(rt; wire.called().is_empty());
    // Later, without the lock and the streams. If no node answers, the ticket comes back.
    drop(streams);
    let reply = ticket.fetch(&mut wire).ok().expect(&rt, "a node");
    assert!(rt; has_body(&rt, alloc, &reply, &[1, 2, 8, 9]));
}

// stored_rows
#[test]
fn a_change_is_kept_while_its_rows_are_unloaded(rt: HostRuntime) {
    let alloc = rt.alloc();
    // The rows of the containers from `bbb` on, with a million bytes in an extent.
    let mut stored = stored(&rt, alloc);
    let mut wire = script(&rt, alloc, &[], &[]); // three nodes that do all that they are told
    let change = create(&rt, alloc, "pics"); // a Create Container
    // No doubt, a key of the range, content in memory, no row, and a change that fits.
    test_change(&rt, &*stored, &change);
    // `None`: the caller looked up no blocks of the change before. 7 is the epoch.
    assert!(rt; stored.take(change, None, 7, &mut wire).is_ok());
    stored.unload();
    assert!(rt; !stored.is_loaded() && stored.rows().is_none());
    assert!(rt; stored.load(&mut wire).is_ok());
    let pics = key_of(&rt, alloc, "pics");
    assert!(rt; stored.is_loaded() && stored.covers(&pics)); // `find` requires it
    assert_eq!(rt; stored.find(&pics).count(), 1);
    assert!(rt; stored.is_sure()); // a checkpoint requires it
    let replaced = stored.checkpoint(&mut wire).ok();
    drop(replaced); // the old log and the old rows
}
