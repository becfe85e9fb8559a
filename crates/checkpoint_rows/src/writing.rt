//! The rows of containers, which are written one after the other.
ghost use Rattle.std.specs.Prelude.{◌≡◌, ◌≢◌, ◌≤◌, Err, IfOk, None, OnOk, map};
ghost use Rattle.std.specs.FinMap.{entries};
ghost use Rattle.extent_seal.specs.Heard.{AsksAreHeard};
ghost use Rattle.stamp_types.specs.declared.act.Act.TheVariants as act;
ghost use Rattle.row_trees.specs.RowRecords.{blob_row_of, container_row_of};
ghost use Rattle.stream_manager.specs.declared.faults.StoredFault.TheVariants.{Busy};
ghost use Rattle.partition_stream.specs.Checkpoints.{HasOneRow};
ghost use Rattle.partition_stream.specs.Counting.{FailsPut};
ghost use Rattle.checkpoint_rows.specs.Writing.{AreReady, AreReadyParts, HasGoodNames, HasRows, IsPlacedRow, IsWritable, IsWritableBlob, all_records, container_records, own_acts, recorded};

use crate::row_records::{blob_row, container_row};
use extent_node::Wire;
use partition_stream::NewRows;
use row_trees::{BlobWalk, ContainerWalk, Found, FoundBlob};
use stamp_types::Key;
use std::alloc::Global;
use stream_manager::StoredFault;

// Writes the row of a blob.
#[tactic(auto, using(extent_seal::proofs::HeardLemmas::heard_none))]
fn add_blob<W: Wire>(
    alloc: Global,
    new: &mut NewRows,
    key: &Key,
    name: &[u8],
    blob: &FoundBlob<'_>,
    wire: &mut W,
) -> Result<(), StoredFault>
    requires whole { new.old.last.tried ≡ None }
    requires writable { IsWritableBlob key.now name.now blob.now }
    requires placed { IsPlacedRow (name.now, blob.now) }
    ensures written { OnOk result (HasOneRow new.old (recorded key.now (blob_row_of (name.now, blob.now))).0 new.new) }
    ensures limit { new.new.limit ≡ new.old.limit }
    ensures counted { FailsPut result (W.faults wire.old) (W.faults wire.new) }
    ensures heard { result ≢ Err Busy → AsksAreHeard (W.calls wire.old) (W.calls wire.new) (W.faults wire.old) (W.faults wire.new) }
{
    let row = blob_row(alloc, key, name, blob)?;
    new.add(&row, wire)
}

// Writes the rows of blobs.
fn add_blobs<W: Wire>(
    alloc: Global,
    new: &mut NewRows,
    key: &Key,
    blobs: BlobWalk<'_>,
    wire: &mut W,
) -> Result<(), StoredFault>
    requires whole { new.old.last.tried ≡ None }
    requires ready { AreReady key.now blobs }
    ensures written { OnOk result (HasRows new.old (map (recorded key.now) (map blob_row_of blobs.entry)) new.new) }
    ensures limit { new.new.limit ≡ new.old.limit }
    ensures counted { FailsPut result (W.faults wire.old) (W.faults wire.new) }
    ensures heard { result ≢ Err Busy → AsksAreHeard (W.calls wire.old) (W.calls wire.new) (W.faults wire.old) (W.faults wire.new) }
{
    let mut left = blobs;
    while let Some((name, blob)) = left.next() {
        add_blob(alloc, new, key, name, &blob, wire)?;
    }
    Ok(())
}

// Writes the row of a container without its blobs.
#[tactic(auto, using(extent_seal::proofs::HeardLemmas::heard_none))]
fn add_container_row<W: Wire>(
    new: &mut NewRows,
    key: &Key,
    found: &Found<'_>,
    wire: &mut W,
) -> Result<(), StoredFault>
    requires whole { new.old.last.tried ≡ None }
    requires named { HasGoodNames key.now }
    requires seen { 1 ≤ found.now.count }
    ensures written { OnOk result (HasOneRow new.old (record { key = key.now; act = act.ContainerRow (container_row_of found.now) }) new.new) }
    ensures limit { new.new.limit ≡ new.old.limit }
    ensures counted { FailsPut result (W.faults wire.old) (W.faults wire.new) }
    ensures heard { result ≢ Err Busy → AsksAreHeard (W.calls wire.old) (W.calls wire.new) (W.faults wire.old) (W.faults wire.new) }
{
    let row = container_row(key, found)?;
    new.add(&row, wire)
}

// Writes the row of a container without its blobs, if it has seen a change.
#[tactic(auto, using(crate::proofs::WriteLemmas::no_row, extent_seal::proofs::HeardLemmas::heard_none))]
fn add_own<W: Wire>(
    new: &mut NewRows,
    key: &Key,
    found: &Found<'_>,
    wire: &mut W,
) -> Result<(), StoredFault>
    requires whole { new.old.last.tried ≡ None }
    requires writable { IsWritable key.now found.now }
    ensures written { OnOk result (HasRows new.old (map (recorded key.now) (own_acts found.now)) new.new) }
    ensures limit { new.new.limit ≡ new.old.limit }
    ensures counted { FailsPut result (W.faults wire.old) (W.faults wire.new) }
    ensures heard { result ≢ Err Busy → AsksAreHeard (W.calls wire.old) (W.calls wire.new) (W.faults wire.old) (W.faults wire.new) }
{
    if found.count() == 0 {
        return Ok(());
    }
    add_container_row(new, key, found, wire)?;
    Ok(())
}

// A walk over all blobs of a container.
fn all_blobs<'a>(alloc: Global, found: &Found<'a>) -> BlobWalk<'a>
    ensures { result ≡ entries found.now.blobs }
{
    found.blobs_from(&Vec::new(alloc))
}

// Writes the rows of a container: its own, and then those of its blobs.
fn add_container<W: Wire>(
    alloc: Global,
    new: &mut NewRows,
    key: &Key,
    found: &Found<'_>,
    wire: &mut W,
) -> Result<(), StoredFault>
    requires whole { new.old.last.tried ≡ None }
    requires writable { IsWritable key.now found.now }
    requires ready { AreReady key.now (entries found.now.blobs) }
    ensures written { OnOk result (HasRows new.old (container_records (key.now, found.now)) new.new) }
    ensures limit { new.new.limit ≡ new.old.limit }
    ensures counted { FailsPut result (W.faults wire.old) (W.faults wire.new) }
    ensures heard { result ≢ Err Busy → AsksAreHeard (W.calls wire.old) (W.calls wire.new) (W.faults wire.old) (W.faults wire.new) }
{
    add_own(new, key, found, wire)?;
    let blobs = all_blobs(alloc, found);
    add_blobs(alloc, new, key, blobs, wire)?;
    Ok(())
}

/// Writes the rows of containers, one container after the other. One row is in memory at a time.
pub(crate) fn add_containers<W: Wire>(
    alloc: Global,
    new: &mut NewRows,
    containers: ContainerWalk<'_>,
    wire: &mut W,
) -> Result<(), StoredFault>
    requires whole { new.old.last.tried ≡ None }
    requires ready { AreReadyParts containers }
    ensures written { OnOk result (HasRows new.old (all_records containers.entry) new.new) }
    ensures limit { new.new.limit ≡ new.old.limit }
    ensures counted { FailsPut result (W.faults wire.old) (W.faults wire.new) }
    ensures heard { result ≢ Err Busy → AsksAreHeard (W.calls wire.old) (W.calls wire.new) (W.faults wire.old) (W.faults wire.new) }
{
    let mut left = containers;
    while let Some((key, found)) = left.next() {
        add_container(alloc, new, key, &found, wire)?;
    }
    Ok(())
}
