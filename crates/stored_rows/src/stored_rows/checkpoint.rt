//! The checkpoint of rows that are loaded: they take the place of the log and of the older rows of their streams.
ghost use Rattle.std.specs.Prelude.{◌≡◌};

use super::StoredRows;
use crate::sweep::end_sweep;
use checkpoint_rows::checkpoint_rows;
use extent_node::Wire;
use partition_stream::Replaced;
use stream_manager::StoredFault;

impl StoredRows {
    ghost use Rattle.std.specs.Prelude.{◌≡◌, true, None, IfOk, OnOk, OnErr};
    ghost use Rattle.partition_stream.specs.Streams.{HaveSameLimits};
    ghost use Rattle.stored_rows.specs.Checkpoints.{IsWrittenAnew, MeansTheRange};
    ghost use Rattle.stored_rows.specs.Counting.{FailsStored};
    ghost use Rattle.stored_rows.specs.Heard.{HearsStored};
    ghost use Rattle.stored_rows.specs.States.{doubt_of};

    /// Writes the rows of all containers of the range as a new checkpoint, and puts it in the place of the log and of the older rows. Gives
    /// the log and the rows that were replaced, which may be dropped after a lock. No byte of content is copied.
    ///
    /// Each container of the range stays as it is. Containers of other ranges that the streams had, as the streams of a half have them after
    /// a cut, are not written again. The extents of the new log and of the new rows have the limit of the old ones.
    ///
    /// After a fault nothing is changed. Busy: a row was tried twice, or no node answered.
    #[tactic(auto, using(crate::proofs::HeardLemmas::hears_failed))]
    pub fn checkpoint<W: Wire>(&mut self, wire: &mut W) -> Result<Replaced, StoredFault>
        requires sure { doubt_of self.old ≡ None }
        requires loaded { self.old.is_loaded ≡ true }
        ensures same { OnOk result (MeansTheRange self.old self.new) }
        ensures written { OnOk result (IsWrittenAnew self.old self.new) }
        ensures doubt { doubt_of self.new ≡ None }
        ensures data { self.new.streams.blobs ≡ self.old.streams.blobs }
        ensures limits { HaveSameLimits self.old.streams self.new.streams }
        ensures replaced { IfOk result (λ r. (r.log ≡ self.old.streams.log) × (r.rows ≡ self.old.streams.rows)) }
        ensures refused { OnErr result (self.new ≡ self.old) }
        ensures counted { FailsStored result (W.faults wire.old) (W.faults wire.new) }
        ensures heard { HearsStored result (W.calls wire.old) (W.calls wire.new) (W.faults wire.old) (W.faults wire.new) }
    {
        self.streams.kept();
        // A sweep does not go on over a new log.
        end_sweep(&mut self.sweep);
        let Some(rows) = &self.rows else {
            unreachable!("the rows are loaded");
        };
        match checkpoint_rows(self.alloc, &mut self.streams, rows, self.extent_bytes, wire) {
            Ok(replaced) => {
                self.waste = self.waste.after_checkpoint();
                Ok(replaced)
            }
            Err(fault) => Err(fault),
        }
    }
}
