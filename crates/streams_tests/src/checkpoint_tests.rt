//! Checkpoints of the streams of a partition, whose rows are written by hand (SOSP 2011, section 5.3).
ghost use Rattle.std.specs.Prelude.{◌≡◌, List, None};
ghost use Rattle.extent_node.specs.Copies.{Block};
ghost use Rattle.partition_stream.specs.Checkpoints.{AreStoredRows};
ghost use Rattle.partition_stream.specs.Streams.{logged};
ghost use Rattle.stamp_types.specs.declared.act.Act.TheVariants as act;
ghost use Rattle.stamp_types.specs.declared.act.ContainerRow.{ContainerRow};
ghost use Rattle.streams_tests.specs.declared.partition_samples.Told.TheVariants as told;

use crate::partition_samples::{Told, change, is_next, keeps, log, next, settle, streams};
use crate::sample_wires::{D, R, YES, script};
use extent_node::{Delivery, Script};
use partition_stream::{NewRows, Position, Streams};
use stamp_types::{Act, Change, ContainerRow};
use std::alloc::Global;
use std::process::Abort;
use stream_manager::StoredFault;

// The row of a container that was deleted by the last of so many changes.
fn row(rt: &impl Abort, alloc: Global, name: &str, count: u64) -> Change
    ensures { (r : ContainerRow) × (result.act ≡ act.ContainerRow r) }
{
    let sample = change(rt, alloc, name);
    let (key, _act) = sample.into_parts();
    let standing = None;
    Change::new(key, Act::ContainerRow(ContainerRow { count, standing })).expect(rt, "a good row")
}

// Adds the row of a container. After a fault no further row is added.
fn add(
    rt: &impl Abort,
    alloc: Global,
    rows: &mut NewRows,
    name: &str,
    count: u64,
    wire: &mut Script,
) -> Told
    requires { rows.old.last.tried ≡ None }
    ensures whole { result ≡ told.Done → rows.new.last.tried ≡ None }
    ensures stored { result ≡ told.Done → (es : List (List Block)) → AreStoredRows es rows.old → AreStoredRows es rows.new }
{
    let row = row(rt, alloc, name, count);
    let added = rows.add(&row, wire);
    drop(row);
    match added {
        Ok(()) => Told::Done,
        Err(StoredFault::Busy) => Told::Busy,
        Err(StoredFault::NoMemory) => Told::NoMemory,
    }
}

// Puts the rows of two containers, `one` of three changes and `two` of five, in the place of log and rows.
fn checkpoint(rt: &impl Abort, alloc: Global, streams: &mut Streams, wire: &mut Script) -> Told
    requires { (logged streams.old).doubt ≡ None }
{
    let mut rows = streams.begin_checkpoint(1_000_000);
    let first = add(rt, alloc, &mut rows, "one", 3, wire);
    if first != Told::Done {
        return first;
    }
    let second = add(rt, alloc, &mut rows, "two", 5, wire);
    if second != Told::Done {
        return second;
    }
    let replaced = streams.put_in_place(rows);
    drop(replaced);
    Told::Done
}

// The same, of a log without a doubt.
fn settled_checkpoint(
    rt: &impl Abort,
    alloc: Global,
    streams: &mut Streams,
    wire: &mut Script,
) -> Told {
    let settled = settle(streams, wire);
    assert!(rt; settled == Told::Clean);
    checkpoint(rt, alloc, streams, wire)
}

// Whether the change is the row of this container with this count.
fn is_row(change: &Change, name: &str, count: u64) -> bool {
    match change.act() {
        Act::ContainerRow(row) => {
            row.count == count && row.standing.is_none() && change.key().container.as_str() == name
        }
        _ => false,
    }
}

// Whether the next change is the row of this container with this count, and the epoch 0.
fn is_next_row(
    streams: &Streams,
    position: &mut Position,
    name: &str,
    count: u64,
    wire: &mut Script,
) -> bool {
    match streams.next_change(position, wire) {
        Ok(Some(read)) => {
            let is = is_row(&read.0, name, count) && read.1 == 0;
            drop(read);
            is
        }
        Ok(None) => false,
        Err(_) => false,
    }
}

fn log_two(rt: &impl Abort, alloc: Global, streams: &mut Streams) {
    let mut wire = script(rt, alloc, &[], &[]);
    assert!(rt; log(rt, alloc, streams, "one", &mut wire) == Told::Done);
    assert!(rt; log(rt, alloc, streams, "two", &mut wire) == Told::Done);
}

// A checkpoint after two changes. So many calls of nodes are made for its two rows.
fn replace(rt: &impl Abort, alloc: Global, streams: &mut Streams, calls: usize) {
    let mut wire = script(rt, alloc, &[], &[]);
    log_two(rt, alloc, streams);
    assert!(rt; settled_checkpoint(rt, alloc, streams, &mut wire) == Told::Done);
    assert!(rt; wire.called().len() == calls);
    let mut position = Position::first();
    assert!(rt; is_next_row(streams, &mut position, "one", 3, &mut wire));
    assert!(rt; is_next_row(streams, &mut position, "two", 5, &mut wire));
    assert!(rt; next(streams, &mut position, &mut wire) == Told::End);
}

#[test]
fn a_checkpoint_takes_the_place_of_log_and_rows(rt: HostRuntime) {
    let mut streams = streams(&rt, rt.alloc(), 1_000_000);
    // Each row is put to each node.
    replace(&rt, rt.alloc(), &mut *streams, 6);
}

fn go_on(rt: &impl Abort, alloc: Global, streams: &mut Streams) {
    let mut wire = script(rt, alloc, &[], &[]);
    replace(rt, alloc, streams, 6);
    assert!(rt; log(rt, alloc, streams, "three", &mut wire) == Told::Done);
    let mut position = Position::first();
    assert!(rt; is_next_row(streams, &mut position, "one", 3, &mut wire));
    assert!(rt; is_next_row(streams, &mut position, "two", 5, &mut wire));
    assert!(rt; is_next(streams, &mut position, "three", 0, &mut wire));
    assert!(rt; next(streams, &mut position, &mut wire) == Told::End);
    // The next checkpoint takes the place of these rows and of this log.
    assert!(rt; settled_checkpoint(rt, alloc, streams, &mut wire) == Told::Done);
    let mut position = Position::first();
    assert!(rt; is_next_row(streams, &mut position, "one", 3, &mut wire));
    assert!(rt; is_next_row(streams, &mut position, "two", 5, &mut wire));
    assert!(rt; next(streams, &mut position, &mut wire) == Told::End);
}

#[test]
fn a_change_after_a_checkpoint_comes_after_its_rows(rt: HostRuntime) {
    let mut streams = streams(&rt, rt.alloc(), 1_000_000);
    go_on(&rt, rt.alloc(), &mut *streams);
}

// A checkpoint that fails under these deliveries and answers leaves log and rows, and the next one ends well.
fn fail(rt: &impl Abort, alloc: Global, streams: &mut Streams, puts: &[Delivery], asks: &[bool]) {
    let mut wire = script(rt, alloc, puts, asks);
    log_two(rt, alloc, streams);
    assert!(rt; settled_checkpoint(rt, alloc, streams, &mut wire) == Told::Busy);
    assert!(rt; keeps(rt, alloc, streams, &["one", "two"]));
    assert!(rt; settled_checkpoint(rt, alloc, streams, &mut wire) == Told::Done);
    assert!(rt; !keeps(rt, alloc, streams, &["one", "two"]));
}

#[test]
fn a_checkpoint_whose_first_row_is_excluded_twice_leaves_the_log(rt: HostRuntime) {
    let mut streams = streams(&rt, rt.alloc(), 1_000_000);
    fail(&rt, rt.alloc(), &mut *streams, &[R, R, R, R, R, R], &YES);
}

#[test]
fn a_checkpoint_whose_last_row_is_in_doubt_leaves_the_log(rt: HostRuntime) {
    let mut streams = streams(&rt, rt.alloc(), 1_000_000);
    let puts = [D, D, D, D, R, R];
    fail(
        &rt,
        rt.alloc(),
        &mut *streams,
        &puts,
        &[false, false, false],
    );
}
