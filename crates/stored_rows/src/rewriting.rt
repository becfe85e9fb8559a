//! Rows that are logged again, with their content put again at the end of the data.
ghost use Rattle.std.specs.Prelude.{◌≡◌, ◌≤◌, IfOk, IfSome, IsSome, IsSomeAnd, IsTrue, None, length};
ghost use Rattle.std.specs.FinMap as finite;
ghost use Rattle.std.specs.Option.{option_copied};
ghost use Rattle.stamp_types.specs.Changes.{is_change};
ghost use Rattle.stamp_types.specs.Contents.{EachActContent};
ghost use Rattle.stamp_types.specs.World.{blob_in, changed_in, part_at, same_pieces};
ghost use Rattle.stamp_types.specs.declared.act.Act.TheVariants as act;
ghost use Rattle.block_blobs.specs.StoredRows.{blob_of_row};
ghost use Rattle.row_trees.specs.RowRecords.{blob_row_of, container_row_of};
ghost use Rattle.stream_manager.specs.Places.{KeepsPlaces};
ghost use Rattle.stream_manager.specs.Streams.{laid};
ghost use Rattle.partition_stream.specs.Compactions.{IsMovedChange};
ghost use Rattle.partition_stream.specs.Contents.{AreStored};
ghost use Rattle.partition_stream.specs.Counting.{FailsCompaction};
ghost use Rattle.partition_stream.specs.Heard.{HearsCompaction};
ghost use Rattle.partition_stream.specs.Meanings.{held_of};
ghost use Rattle.partition_stream.specs.Storing.{AreKept, IsStoredChange};
ghost use Rattle.partition_stream.specs.Streams.{logged};
ghost use Rattle.partition_stream.specs.Sweeping.{AreFrom};
ghost use Rattle.checkpoint_rows.specs.Writing.{IsWritableBlob};
ghost use Rattle.stored_rows.specs.Counting.{FailsLogged};
ghost use Rattle.stored_rows.specs.Heard.{HearsLogged};
ghost use Rattle.stored_rows.specs.Rewriting.{GoOn, IfLogged, IsBlobRow, IsRewritten, IsRowLogged, IsSwapped};
ghost use Rattle.stored_rows.specs.RowDoubts.{HasSpare, stored_blob_of};

use crate::faults::stored_fault_of_compaction;
use crate::logging::{Unlogged, not_logged};
use crate::row_doubt::keep_spare;
use checkpoint_rows::{blob_row, container_row};
use extent_node::Wire;
use partition_stream::{CompactionFault, Streams};
use row_trees::{NewRow, Rows};
use stamp_types::{Act, Change, StoredBlob, Text};
use stamp_values::Key;
use std::alloc::{AllocError, Global};

// Logs a row with the epoch 0. The row that is answered is the one that was logged.
fn log_row<W: Wire>(streams: &mut Streams, row: Change, wire: &mut W) -> Result<Change, Unlogged>
    requires sure { (logged streams.old).doubt ≡ None }
    requires stored { IsStoredChange (laid streams.old.blobs) row }
    ensures logged { IsRowLogged result streams.old streams.new }
    ensures row { IfLogged result (λ d. d ≡ row) }
    ensures follows { GoOn streams.old streams.new }
    ensures blobs { streams.new.blobs ≡ streams.old.blobs }
    ensures counted { FailsLogged result (W.faults wire.old) (W.faults wire.new) }
    ensures heard { HearsLogged result (W.calls wire.old) (W.calls wire.new) (W.faults wire.old) (W.faults wire.new) }
{
    match streams.log_change(&row, 0, wire) {
        Ok(_length) => Ok(row),
        Err(fault) => Err(not_logged(fault, row)),
    }
}

/// Logs the own row of a container again. It changes nothing in memory.
#[tactic(auto, using(extent_seal::proofs::HeardLemmas::heard_none))]
pub(crate) fn write_container<W: Wire>(
    streams: &mut Streams,
    rows: &Rows,
    key: &Key,
    wire: &mut W,
) -> Result<Change, Unlogged>
    requires sure { (logged streams.old).doubt ≡ None }
    requires own { part_at rows.now key.now ≡ held_of (logged streams.old) key.now }
    requires seen { 1 ≤ (part_at rows.now key.now).count }
    ensures logged { IsRowLogged result streams.old streams.new }
    ensures row { IfLogged result (λ d. d ≡ record { key = key.now; act = act.ContainerRow (container_row_of (part_at rows.now key.now)) }) }
    ensures follows { GoOn streams.old streams.new }
    ensures blobs { streams.new.blobs ≡ streams.old.blobs }
    ensures counted { FailsLogged result (W.faults wire.old) (W.faults wire.new) }
    ensures heard { HearsLogged result (W.calls wire.old) (W.calls wire.new) (W.faults wire.old) (W.faults wire.new) }
    ensures whole { AreKept streams.old }
{
    streams.kept();
    match container_row(key, &rows.find(key)) {
        Ok(row) => log_row(streams, row, wire),
        Err(_fault) => Err(Unlogged::NoMemory),
    }
}

/// The row of a blob of a container.
pub(crate) fn row_now(
    alloc: Global,
    rows: &Rows,
    key: &Key,
    name: &Text,
) -> Result<Change, AllocError>
    requires { IsWritableBlob key.now name.now (blob_in (part_at rows.now key.now) name.now) }
    ensures { IfOk result (λ c. c ≡ record { key = key.now; act = blob_row_of (name.now, blob_in (part_at rows.now key.now) name.now) }) }
{
    let container = rows.find(key);
    blob_row(alloc, key, name.as_str().as_bytes(), &container.seen(name))
}

/// The row of a blob, if the act is one.
pub(crate) fn stored_blob(act: &Act) -> Option<&StoredBlob>
    ensures { option_copied result ≡ stored_blob_of act.now }
{
    match act {
        Act::StoredBlob(row) => Some(row),
        _ => None,
    }
}

// The row of a blob, where the caller knows that the change is one.
fn stored_of(row: &Change) -> &StoredBlob
    requires { IsSome (stored_blob_of row.now.act) }
    ensures value { row.now.act ≡ act.StoredBlob result.now }
    ensures valid { IsTrue (is_change row.now) }
{
    match row.act() {
        Act::StoredBlob(stored) => stored,
        _ => unreachable!("the change is the row of a blob"),
    }
}

// Puts the content of the row of a blob again, and answers the row with the new places.
fn put_again<W: Wire>(
    streams: &mut Streams,
    row: &Change,
    wire: &mut W,
) -> Result<Change, CompactionFault>
    requires row { IsSome (stored_blob_of row.now.act) }
    requires stored { EachActContent (AreStored (laid streams.old.blobs)) row.now.act }
    ensures moved { IfOk result (λ d. IsMovedChange (laid streams.old.blobs) row.now (laid streams.new.blobs) d) }
    ensures after { IfOk result (λ d. EachActContent (AreFrom (length streams.old.blobs.sealed)) d.act) }
    ensures places { KeepsPlaces (laid streams.old.blobs) (laid streams.new.blobs) }
    ensures log { streams.new.log ≡ streams.old.log }
    ensures rows { streams.new.rows ≡ streams.old.rows }
    ensures follows { GoOn streams.old streams.new }
    ensures counted { FailsCompaction result (W.faults wire.old) (W.faults wire.new) }
    ensures heard { HearsCompaction result (W.calls wire.old) (W.calls wire.new) (W.faults wire.old) (W.faults wire.new) }
{
    streams.put_row_again(row.key(), stored_of(row), wire)
}

// The row of a blob as it will be in memory.
fn new_row(alloc: Global, row: &Change) -> Result<NewRow, AllocError>
    requires { IsSome (stored_blob_of row.now.act) }
    ensures { IfOk result (λ new. IfSome (stored_blob_of row.now.act) (λ stored. new ≡ blob_of_row stored)) }
{
    NewRow::of(alloc, stored_of(row))
}

// Swaps the row of a blob in memory.
fn swap_row(rows: &mut Rows, row: &Change, new: NewRow)
    requires there { IsSomeAnd (stored_blob_of row.now.act) (λ stored. IsSome (finite.get (part_at rows.old row.now.key).blobs stored.blob)) }
    requires made { IfSome (stored_blob_of row.now.act) (λ stored. new ≡ blob_of_row stored) }
    ensures { rows.new ≡ changed_in same_pieces rows.old row.now }
{
    rows.replace_row(row.key(), stored_of(row), new);
}

// Logs the row of a blob whose content was put again, and swaps the row in memory. All memory is taken before the record is logged.
#[tactic(auto, using(extent_seal::proofs::HeardLemmas::heard_none))]
fn log_blob<W: Wire>(
    alloc: Global,
    streams: &mut Streams,
    rows: &mut Rows,
    spare: &mut Option<NewRow>,
    moved: Change,
    wire: &mut W,
) -> Result<Change, Unlogged>
    requires sure { (logged streams.old).doubt ≡ None }
    requires stored { IsStoredChange (laid streams.old.blobs) moved }
    requires there { IsSomeAnd (stored_blob_of moved.act) (λ stored. IsSome (finite.get (part_at rows.old moved.key).blobs stored.blob)) }
    ensures logged { IsRowLogged result streams.old streams.new }
    ensures row { IfLogged result (λ d. d ≡ moved) }
    ensures rows { IsSwapped result rows.old rows.new }
    ensures spare { HasSpare result spare.new }
    ensures follows { GoOn streams.old streams.new }
    ensures blobs { streams.new.blobs ≡ streams.old.blobs }
    ensures counted { FailsLogged result (W.faults wire.old) (W.faults wire.new) }
    ensures heard { HearsLogged result (W.calls wire.old) (W.calls wire.new) (W.faults wire.old) (W.faults wire.new) }
{
    let Ok(new) = new_row(alloc, &moved) else {
        drop(moved);
        return Err(Unlogged::NoMemory);
    };
    match log_row(streams, moved, wire) {
        Ok(logged) => {
            swap_row(rows, &logged, new);
            Ok(logged)
        }
        Err(fault) => {
            keep_spare(spare, &fault, new);
            Err(fault)
        }
    }
}

/// Puts the content of the row of a blob again, logs the row again with the new places, and swaps the row in memory. The row that is answered is the
/// one that was logged. If it is in doubt, the row that memory will have if it is kept is `spare`.
pub(crate) fn write_blob<W: Wire>(
    alloc: Global,
    streams: &mut Streams,
    rows: &mut Rows,
    spare: &mut Option<NewRow>,
    row: &Change,
    wire: &mut W,
) -> Result<Change, Unlogged>
    requires sure { (logged streams.old).doubt ≡ None }
    requires own { part_at rows.old row.now.key ≡ held_of (logged streams.old) row.now.key }
    requires row { IsBlobRow rows.old row.now }
    ensures logged { IsRowLogged result streams.old streams.new }
    ensures again { IfLogged result (IsRewritten streams.old row.now streams.new) }
    ensures rows { IsSwapped result rows.old rows.new }
    ensures spare { HasSpare result spare.new }
    ensures follows { GoOn streams.old streams.new }
    ensures counted { FailsLogged result (W.faults wire.old) (W.faults wire.new) }
    ensures heard { HearsLogged result (W.calls wire.old) (W.calls wire.new) (W.faults wire.old) (W.faults wire.new) }
    ensures whole { AreKept streams.old }
{
    streams.kept();
    match put_again(streams, row, wire) {
        Ok(moved) => log_blob(alloc, streams, rows, spare, moved, wire),
        Err(fault) => Err(Unlogged::from(stored_fault_of_compaction(fault))),
    }
}
