//! Checkpoints: new rows that are written beside the old ones, and then put in their place (SOSP 2011, section 5.3).
ghost use Rattle.std.specs.Prelude.{◌≡◌, ◌≢◌, ◌≤◌, None, Err, OnOk, length};
ghost use Rattle.extent_seal.specs.Heard.{AsksAreHeard};
ghost use Rattle.stream_manager.specs.declared.faults.StoredFault.TheVariants.{Busy, NoMemory};
ghost use Rattle.log_record.specs.Fits.{IsRecorded};
ghost use Rattle.log_record.specs.Records.{record_bytes};
ghost use Rattle.log_record.specs.Sizes.{IsPlacedChange};
ghost use Rattle.partition_stream.specs.Checkpoints.{HasOneRow};
ghost use Rattle.partition_stream.specs.Counting.{CallsPut, FailsPut};

use crate::faults::TakeFault;
use crate::logging::{append_record, record_of};
use crate::streams::Streams;
use extent_node::Wire;
use stamp_types::Change;
use stamp_values::Share;
use std::alloc::Global;
use std::marker::Model;
use std::mem;
use stream_manager::{StoredFault, Stream};

/// The rows of a checkpoint that is not in place yet, seen as their stream.
#[derive(Drop)]
pub struct NewRows {
    alloc: Global,
    extent_bytes: u32,
    rows: Stream,
}

impl Model for NewRows {
    ghost use Rattle.std.specs.Prelude.{◌≡◌};
    ghost use Rattle.stream_manager.specs.Streams.{Streamed};

    ghost Value = { Streamed };

    ghost view = { λ n. n.rows };

    ghost invariant = { λ n. n.rows.limit ≡ n.extent_bytes };
}

/// The log and the rows that a checkpoint replaced. To drop them takes time for each of their blocks, so a caller may drop them once it
/// holds no lock.
#[derive(Drop)]
pub struct Replaced {
    log: Stream,
    rows: Stream,
}

// Appends the record of a row.
fn append_row<W: Wire>(
    rows: &mut Stream,
    change: &Change,
    block: &Share,
    wire: &mut W,
) -> Result<(), StoredFault>
    requires whole { rows.old.last.tried ≡ None }
    requires written { block.now ≡ record_bytes 2 change.now 0 }
    requires fits { IsRecorded change.now }
    requires short { length block.now ≤ 16_777_216 }
    ensures added { OnOk result (HasOneRow rows.old change.now rows.new) }
    ensures limit { rows.new.limit ≡ rows.old.limit }
    ensures called { CallsPut result 1 (length rows.old.sealed) (length rows.new.sealed) (W.calls wire.old) (W.calls wire.new) }
    ensures counted { FailsPut result (W.faults wire.old) (W.faults wire.new) }
    ensures heard { result ≢ Err Busy → AsksAreHeard (W.calls wire.old) (W.calls wire.new) (W.faults wire.old) (W.faults wire.new) }
    ensures unchanged { result ≡ Err NoMemory → rows.new ≡ rows.old }
    ensures unheard { result ≡ Err NoMemory → wire.new ≡ wire.old }
{
    match append_record(rows, block, wire) {
        Ok(_length) => Ok(()),
        Err(TakeFault::Busy) => Err(StoredFault::Busy),
        Err(TakeFault::Doubt) => Err(StoredFault::Busy),
        Err(TakeFault::NoMemory) => Err(StoredFault::NoMemory),
    }
}

impl NewRows {
    /// Appends a row after all others. Its content is at places in the data of the streams.
    ///
    /// Busy: the rows cannot go on. They are dropped, and the streams are as they were. NoMemory: no node was called, and the rows are
    /// as they were.
    #[tactic(auto, using(extent_seal::proofs::HeardLemmas::heard_none))]
    pub fn add<W: Wire>(&mut self, change: &Change, wire: &mut W) -> Result<(), StoredFault>
        requires whole { self.old.last.tried ≡ None }
        requires placed { IsPlacedChange change.now }
        ensures added { OnOk result (HasOneRow self.old change.now self.new) }
        ensures limit { self.new.limit ≡ self.old.limit }
        ensures called { CallsPut result 1 (length self.old.sealed) (length self.new.sealed) (W.calls wire.old) (W.calls wire.new) }
        ensures counted { FailsPut result (W.faults wire.old) (W.faults wire.new) }
        ensures heard { result ≢ Err Busy → AsksAreHeard (W.calls wire.old) (W.calls wire.new) (W.faults wire.old) (W.faults wire.new) }
        ensures unchanged { result ≡ Err NoMemory → self.new ≡ self.old }
        ensures unheard { result ≡ Err NoMemory → wire.new ≡ wire.old }
    {
        match record_of(self.alloc, change, 0) {
            Ok(block) => append_row(&mut self.rows, change, &block, wire),
            Err(_fault) => Err(StoredFault::NoMemory),
        }
    }
}

impl Streams {
    ghost use Rattle.std.specs.Prelude.{◌≡◌, [], None, List};
    ghost use Rattle.extent_node.specs.Copies.{Block};
    ghost use Rattle.stream_manager.specs.Streams.{laid};
    ghost use Rattle.partition_stream.specs.Checkpoints.{AreStoredRows, IsInPlace, new_rows};
    ghost use Rattle.partition_stream.specs.Streams.{logged};

    /// The rows of a new checkpoint, without a row. Takes no memory, and leaves the streams as they are.
    ///
    /// The extents of the new rows, and of the log that begins with them, have at most `extent_bytes` bytes if they have two or more
    /// blocks.
    #[tactic(auto, using(crate::proofs::CheckpointLemmas::empty_rows, crate::proofs::CheckpointLemmas::empty_stored))]
    pub fn begin_checkpoint(&self, extent_bytes: u32) -> NewRows
        ensures empty { new_rows result ≡ [] }
        ensures whole { result.last.tried ≡ None }
        ensures stored { (es : List (List Block)) → AreStoredRows es result }
        ensures limit { result.limit ≡ extent_bytes }
    {
        NewRows {
            alloc: self.alloc,
            extent_bytes,
            rows: Stream::new(self.alloc, extent_bytes),
        }
    }

    /// Puts the rows of a new checkpoint in the place of the old rows, and an empty log in the place of the old log. Gives what was
    /// replaced. Calls no node, and takes no memory.
    ///
    /// A doubt of the log is settled before, so that no change is forgotten.
    pub fn put_in_place(&mut self, rows: NewRows) -> Replaced
        requires sure { (logged self.old).doubt ≡ None }
        requires whole { rows.last.tried ≡ None }
        requires stored { AreStoredRows (laid self.old.blobs) rows }
        ensures placed { IsInPlace self.old rows self.new }
        ensures replaced { (result.log ≡ self.old.log) × (result.rows ≡ self.old.rows) }
        ensures log_limit { self.new.log.limit ≡ rows.limit }
    {
        let log = Stream::new(self.alloc, rows.extent_bytes);
        Replaced {
            log: mem::replace(&mut self.log, log),
            rows: mem::replace(&mut self.rows, rows.rows),
        }
    }
}
