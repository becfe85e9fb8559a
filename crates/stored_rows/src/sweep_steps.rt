//! The rows that a sweep writes, beside the streams and the rows in memory.
ghost use Rattle.std.specs.Prelude.{◌≡◌, ◌||◌, IsOk, IsTrue, None, Some, true};
ghost use Rattle.stamp_types.specs.World.{part_at};
ghost use Rattle.partition_stream.specs.Streams.{logged};
ghost use Rattle.stored_rows.specs.Heard.{HearsTake};
ghost use Rattle.stored_rows.specs.Loaded.{AreLoaded};
ghost use Rattle.stored_rows.specs.NextRows.{IsNextBlob, IsNextContainer, IsOutside};
ghost use Rattle.stored_rows.specs.Noting.{taken_by};
ghost use Rattle.stored_rows.specs.Ranges.{covers};
ghost use Rattle.stored_rows.specs.Rewriting.{FailsStep, IsStepped, LeavesRowDoubt, doubt_after};
ghost use Rattle.stored_rows.specs.Swept.{AreSwept, is_unseen, knows_row};

use crate::cursor::Cursor;
use crate::key_range::KeyRange;
use crate::logging::Unlogged;
use crate::next_row::{NextRow, next_row};
use crate::noting::keep_doubt;
use crate::rewriting::{row_now, write_blob, write_container};
use crate::step::{Rewritten, own_size, row_size};
use crate::sweep::{Sweep, read_name};
use extent_node::Wire;
use partition_stream::{Streams, TakeFault};
use row_trees::{NewRow, Rows};
use stamp_types::{Change, Text};
use stamp_values::Key;
use std::alloc::Global;

/// How one row of a step went.
#[derive(Clone, Copy)]
pub(crate) enum Went {
    /// No sweep is under way.
    NoSweep,
    /// A row of this size was written, or none was left in a container.
    On(Rewritten),
    /// Each row was written.
    Done,
    /// The sweep cannot go on: a container that has seen no change is next.
    Stuck,
}

// Keeps a row that is in doubt. The answer is that of the row.
fn note_row(doubt: &mut Option<Change>, logged: Result<Change, Unlogged>) -> Result<(), TakeFault>
    ensures answer { result ≡ taken_by logged }
    ensures kept { doubt.new ≡ doubt_after logged doubt.old }
{
    match logged {
        Ok(row) => {
            drop(row);
            Ok(())
        }
        Err(Unlogged::Doubt(row)) => {
            keep_doubt(doubt, row);
            Err(TakeFault::Doubt)
        }
        Err(Unlogged::Busy) => Err(TakeFault::Busy),
        Err(Unlogged::NoMemory) => Err(TakeFault::NoMemory),
    }
}

// Writes the own row of the container that comes next.
fn step_container<W: Wire>(
    streams: &mut Streams,
    rows: &Rows,
    range: &KeyRange,
    sweep: &mut Sweep,
    doubt: &mut Option<Change>,
    spare: &Option<NewRow>,
    key: Key,
    wire: &mut W,
) -> Result<Went, TakeFault>
    requires loaded { AreLoaded streams.old (Some rows.now) doubt.old range.now }
    requires swept { AreSwept sweep.old range.now streams.old }
    requires sure { (logged streams.old).doubt ≡ None }
    requires outside { IsOutside sweep.old.cursor }
    requires next { IsNextContainer sweep.old.cursor rows.now key }
    ensures stepped { IsStepped range.now streams.old streams.new rows.now doubt.new spare.now sweep.new }
    ensures doubt { LeavesRowDoubt result streams.new }
    ensures counted { FailsStep result (W.faults wire.old) (W.faults wire.new) }
    ensures heard { HearsTake result (W.calls wire.old) (W.calls wire.new) (W.faults wire.old) (W.faults wire.new) }
{
    let size = own_size(rows, &key);
    let logged = write_container(streams, rows, &key, wire);
    match note_row(doubt, logged) {
        Ok(()) => {
            sweep.cursor = Cursor::In(key, None);
            Ok(Went::On(size))
        }
        Err(fault) => {
            drop(key);
            Err(fault)
        }
    }
}

// Writes the row of the blob that comes next.
fn step_blob<W: Wire>(
    alloc: Global,
    streams: &mut Streams,
    rows: &mut Rows,
    range: &KeyRange,
    sweep: &mut Sweep,
    doubt: &mut Option<Change>,
    spare: &mut Option<NewRow>,
    key: Key,
    name: Vec<u8>,
    row: Change,
    wire: &mut W,
) -> Result<Went, TakeFault>
    requires loaded { AreLoaded streams.old (Some rows.old) doubt.old range.now }
    requires swept { AreSwept sweep.old range.now streams.old }
    requires sure { (logged streams.old).doubt ≡ None }
    requires next { IsNextBlob sweep.old.cursor rows.old (key, (name, row)) }
    ensures stepped { IsStepped range.now streams.old streams.new rows.new doubt.new spare.new sweep.new }
    ensures doubt { LeavesRowDoubt result streams.new }
    ensures counted { FailsStep result (W.faults wire.old) (W.faults wire.new) }
    ensures heard { HearsTake result (W.calls wire.old) (W.calls wire.new) (W.faults wire.old) (W.faults wire.new) }
{
    let size = row_size(&row);
    let logged = write_blob(alloc, streams, rows, spare, &row, wire);
    drop(row);
    match note_row(doubt, logged) {
        Ok(()) => {
            sweep.cursor = Cursor::In(key, Some(name));
            Ok(Went::On(size))
        }
        Err(fault) => {
            drop(name);
            drop(key);
            Err(fault)
        }
    }
}

/// Writes the row that comes next, or moves the cursor past a container of which no blob is left.
#[tactic(auto, using(extent_seal::proofs::HeardLemmas::heard_none))]
pub(crate) fn step_row<W: Wire>(
    alloc: Global,
    streams: &mut Streams,
    rows: &mut Rows,
    range: &KeyRange,
    sweep: &mut Sweep,
    doubt: &mut Option<Change>,
    spare: &mut Option<NewRow>,
    wire: &mut W,
) -> Result<Went, TakeFault>
    requires loaded { AreLoaded streams.old (Some rows.old) doubt.old range.now }
    requires swept { AreSwept sweep.old range.now streams.old }
    requires sure { (logged streams.old).doubt ≡ None }
    ensures stepped { IsStepped range.now streams.old streams.new rows.new doubt.new spare.new sweep.new }
    ensures doubt { LeavesRowDoubt result streams.new }
    ensures counted { FailsStep result (W.faults wire.old) (W.faults wire.new) }
    ensures heard { HearsTake result (W.calls wire.old) (W.calls wire.new) (W.faults wire.old) (W.faults wire.new) }
{
    streams.kept();
    match next_row(alloc, rows, &sweep.cursor) {
        Ok(NextRow::Container(key)) => step_container(
            streams, rows, range, sweep, doubt, spare, key, wire,
        ),
        Ok(NextRow::Blob(key, name, row)) => {
            step_blob(
                alloc, streams, rows, range, sweep, doubt, spare, key, name, row, wire,
            )
        }
        Ok(NextRow::Unseen) => Ok(Went::Stuck),
        Ok(NextRow::NoBlob(key)) => {
            sweep.cursor = Cursor::After(key);
            Ok(Went::On(Rewritten::none()))
        }
        Ok(NextRow::NoContainer) => {
            sweep.cursor = Cursor::End;
            Ok(Went::Done)
        }
        Err(_fault) => Err(TakeFault::NoMemory),
    }
}

// Writes the own row of a container again, unless the sweep knows that it was written or the container has none.
#[tactic(auto, using(extent_seal::proofs::HeardLemmas::heard_none))]
fn touch_container<W: Wire>(
    alloc: Global,
    streams: &mut Streams,
    rows: &Rows,
    range: &KeyRange,
    sweep: &mut Sweep,
    doubt: &mut Option<Change>,
    spare: &Option<NewRow>,
    key: &Key,
    wire: &mut W,
) -> Result<Rewritten, TakeFault>
    requires loaded { AreLoaded streams.old (Some rows.now) doubt.old range.now }
    requires swept { AreSwept sweep.old range.now streams.old }
    requires sure { (logged streams.old).doubt ≡ None }
    requires covered { covers range.now key.now ≡ true }
    ensures stepped { IsStepped range.now streams.old streams.new rows.now doubt.new spare.now sweep.new }
    ensures doubt { LeavesRowDoubt result streams.new }
    ensures counted { FailsStep result (W.faults wire.old) (W.faults wire.new) }
    ensures heard { HearsTake result (W.calls wire.old) (W.calls wire.new) (W.faults wire.old) (W.faults wire.new) }
    ensures begun { IsOk result → IsTrue (knows_row sweep.new.cursor sweep.new.touched key.now || is_unseen (part_at rows.now key.now)) }
{
    streams.kept();
    if sweep.needs_no_row(key, &rows.find(key)) {
        return Ok(Rewritten::none());
    }
    let size = own_size(rows, key);
    let logged = write_container(streams, rows, key, wire);
    match note_row(doubt, logged) {
        Ok(()) => match sweep.note_container(alloc, key) {
            Ok(()) => Ok(size),
            Err(_fault) => Err(TakeFault::NoMemory),
        },
        Err(fault) => Err(fault),
    }
}

// Writes the row of a blob again, unless the sweep knows that it was written or nothing is left of a blob of this name.
#[tactic(auto, using(extent_seal::proofs::HeardLemmas::heard_none))]
fn touch_blob<W: Wire>(
    alloc: Global,
    streams: &mut Streams,
    rows: &mut Rows,
    range: &KeyRange,
    sweep: &mut Sweep,
    doubt: &mut Option<Change>,
    spare: &mut Option<NewRow>,
    key: &Key,
    name: &Text,
    wire: &mut W,
) -> Result<Rewritten, TakeFault>
    requires loaded { AreLoaded streams.old (Some rows.old) doubt.old range.now }
    requires swept { AreSwept sweep.old range.now streams.old }
    requires sure { (logged streams.old).doubt ≡ None }
    requires covered { covers range.now key.now ≡ true }
    requires begun { IsTrue (knows_row sweep.old.cursor sweep.old.touched key.now || is_unseen (part_at rows.old key.now)) }
    ensures stepped { IsStepped range.now streams.old streams.new rows.new doubt.new spare.new sweep.new }
    ensures doubt { LeavesRowDoubt result streams.new }
    ensures counted { FailsStep result (W.faults wire.old) (W.faults wire.new) }
    ensures heard { HearsTake result (W.calls wire.old) (W.calls wire.new) (W.faults wire.old) (W.faults wire.new) }
{
    streams.kept();
    if sweep.knows_name(key, &rows.find(key), name) {
        return Ok(Rewritten::none());
    }
    let Ok(row) = row_now(alloc, rows, key, name) else {
        return Err(TakeFault::NoMemory);
    };
    let size = row_size(&row);
    let logged = write_blob(alloc, streams, rows, spare, &row, wire);
    drop(row);
    match note_row(doubt, logged) {
        Ok(()) => match sweep.note_blob(alloc, key, name) {
            Ok(()) => Ok(size),
            Err(_fault) => Err(TakeFault::NoMemory),
        },
        Err(fault) => Err(fault),
    }
}

/// Writes the rows again that a change reads and that the sweep does not know to be written.
#[tactic(auto, using(extent_seal::proofs::HeardLemmas::heard_then, crate::proofs::HeardLemmas::hears_take_later))]
pub(crate) fn touch_rows<W: Wire>(
    alloc: Global,
    streams: &mut Streams,
    rows: &mut Rows,
    range: &KeyRange,
    sweep: &mut Sweep,
    doubt: &mut Option<Change>,
    spare: &mut Option<NewRow>,
    change: &Change,
    wire: &mut W,
) -> Result<Rewritten, TakeFault>
    requires loaded { AreLoaded streams.old (Some rows.old) doubt.old range.now }
    requires swept { AreSwept sweep.old range.now streams.old }
    requires sure { (logged streams.old).doubt ≡ None }
    requires covered { covers range.now change.now.key ≡ true }
    ensures stepped { IsStepped range.now streams.old streams.new rows.new doubt.new spare.new sweep.new }
    ensures doubt { LeavesRowDoubt result streams.new }
    ensures counted { FailsStep result (W.faults wire.old) (W.faults wire.new) }
    ensures heard { HearsTake result (W.calls wire.old) (W.calls wire.new) (W.faults wire.old) (W.faults wire.new) }
{
    let key = change.key();
    match touch_container(alloc, streams, rows, range, sweep, doubt, spare, key, wire) {
        Ok(own) => match read_name(change.act()) {
            Some(name) => match touch_blob(
                alloc, streams, rows, range, sweep, doubt, spare, key, name, wire,
            ) {
                Ok(blob) => Ok(own.and(blob)),
                Err(fault) => Err(fault),
            },
            None => Ok(own),
        },
        Err(fault) => Err(fault),
    }
}
