//! The checkpoint of rows that are in memory.
ghost use Rattle.std.specs.Prelude.{◌≡◌, ◌≢◌, [], Err, IfOk, None, OnErr, OnOk};
ghost use Rattle.std.specs.FinMap.{entries};
ghost use Rattle.extent_seal.specs.Heard.{AsksAreHeard};
ghost use Rattle.stamp_types.specs.Contents.{EachWorldContent};
ghost use Rattle.stamp_types.specs.World.{part_at};
ghost use Rattle.stamp_values.specs.declared.key.Key.{Key};
ghost use Rattle.stream_manager.specs.Streams.{laid};
ghost use Rattle.stream_manager.specs.declared.faults.StoredFault.TheVariants.{Busy};
ghost use Rattle.partition_stream.specs.Contents.{AreStored};
ghost use Rattle.partition_stream.specs.Counting.{FailsPut};
ghost use Rattle.partition_stream.specs.Meanings.{held_of};
ghost use Rattle.partition_stream.specs.Streams.{logged};
ghost use Rattle.checkpoint_rows.specs.Writing.{AreReadyParts, AreWritable, HasRows, all_records};

use crate::writing::add_containers;
use extent_node::Wire;
use partition_stream::{NewRows, Replaced, Streams};
use row_trees::{ContainerWalk, Rows};
use stamp_types::{Key, Text};
use std::alloc::Global;
use stream_manager::StoredFault;

// A walk over all containers.
fn all_containers(alloc: Global, rows: &Rows) -> ContainerWalk<'_>
    ensures { result ≡ entries rows.now }
{
    let first = Key {
        account: Text::empty(alloc),
        container: Text::empty(alloc),
    };
    rows.containers_from(&first)
}

// Writes the rows of all containers.
fn write_rows<W: Wire>(
    alloc: Global,
    new: &mut NewRows,
    rows: &Rows,
    wire: &mut W,
) -> Result<(), StoredFault>
    requires whole { new.old.last.tried ≡ None }
    requires ready { AreReadyParts (entries rows.now) }
    ensures written { OnOk result (HasRows new.old (all_records (entries rows.now)) new.new) }
    ensures limit { new.new.limit ≡ new.old.limit }
    ensures counted { FailsPut result (W.faults wire.old) (W.faults wire.new) }
    ensures heard { result ≢ Err Busy → AsksAreHeard (W.calls wire.old) (W.calls wire.new) (W.faults wire.old) (W.faults wire.new) }
{
    let containers = all_containers(alloc, rows);
    add_containers(alloc, new, containers, wire)?;
    Ok(())
}

/// Writes the rows of all containers as a new checkpoint, and puts it in the place of the log and of the older rows of the streams. Gives
/// what was replaced, which may be dropped after a lock. One row is in memory at a time.
///
/// The extents of the new log and of the new rows have at most `extent_bytes` bytes if they have two or more blocks. After a fault the
/// streams are as they were, and what was written of the new rows is dropped. Busy: a row was tried twice, or no node answered. NoMemory:
/// memory ran out.
pub fn checkpoint_rows<W: Wire>(
    alloc: Global,
    streams: &mut Streams,
    rows: &Rows,
    extent_bytes: u32,
    wire: &mut W,
) -> Result<Replaced, StoredFault>
    requires sure { (logged streams.old).doubt ≡ None }
    requires writable { AreWritable rows.now }
    requires stored { EachWorldContent (AreStored (laid streams.old.blobs)) rows.now }
    ensures meaning { OnOk result ((key : Key) → held_of (logged streams.new) key ≡ part_at rows.now key) }
    ensures rows { OnOk result ((logged streams.new).rows ≡ all_records (entries rows.now)) }
    ensures log { OnOk result ((logged streams.new).log ≡ []) }
    ensures doubt { (logged streams.new).doubt ≡ None }
    ensures blobs { streams.new.blobs ≡ streams.old.blobs }
    ensures limits { OnOk result ((streams.new.log.limit ≡ extent_bytes) × (streams.new.rows.limit ≡ extent_bytes)) }
    ensures replaced { IfOk result (λ r. (r.log ≡ streams.old.log) × (r.rows ≡ streams.old.rows)) }
    ensures same { OnErr result (streams.new ≡ streams.old) }
    ensures counted { FailsPut result (W.faults wire.old) (W.faults wire.new) }
    ensures heard { result ≢ Err Busy → AsksAreHeard (W.calls wire.old) (W.calls wire.new) (W.faults wire.old) (W.faults wire.new) }
{
    let mut new = streams.begin_checkpoint(extent_bytes);
    write_rows(alloc, &mut new, rows, wire)?;
    Ok(streams.put_in_place(new))
}
