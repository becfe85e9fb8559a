//! Sweeps: each row is written again in steps, and then what was there before is given up.
ghost use Rattle.std.specs.Prelude.{◌≡◌};

use super::StoredRows;
use crate::sweep::{Sweep, Swept, Written, end_if_over};
use extent_node::Wire;
use partition_stream::{GivenUp, Mark};
use stamp_values::{Keyed, Named};
use stream_manager::StoredFault;

/// All that came before the mark of a sweep, as it was given up at its end, and the names of the rows that were touched. To drop them takes time for each
/// block and each name, so a caller may drop them once it holds no lock.
#[derive(Drop)]
pub struct SweptAway {
    /// How many extents of the log and of the data were sealed when the sweep began.
    pub mark: Mark,
    given: GivenUp,
    touched: Keyed<Named<Written>>,
}

impl StoredRows {
    ghost use Rattle.std.specs.Prelude.{◌≡◌, ◌≢◌, [], IfSome, MatchOption, None, Err, drop};
    ghost use Rattle.stream_manager.specs.Places.{blocks_of};
    ghost use Rattle.stream_manager.specs.Streams.{laid};
    ghost use Rattle.stream_manager.specs.declared.faults.StoredFault.TheVariants as stored_fault;
    ghost use Rattle.partition_stream.specs.Streams.{AreSealed, HaveSameLimits, logged};
    ghost use Rattle.stored_rows.specs.Compactions.{KeepsTheRange};
    ghost use Rattle.stored_rows.specs.Counting.{FailsStored};
    ghost use Rattle.stored_rows.specs.Heard.{HearsStored};
    ghost use Rattle.stored_rows.specs.States.{MeansTheSame, doubt_of};

    // Begins a sweep of streams that are sealed.
    fn begin_sealed(&mut self) -> Result<(), StoredFault>
        requires sealed { AreSealed self.old.streams }
        ensures same { self.new ≡ self.old }
        ensures memory { result ≢ Err stored_fault.Busy }
    {
        let mark = self.streams.mark();
        match self.streams.sweep_room() {
            Ok(room) => {
                let began = Sweep::begin(self.alloc, mark, room, self.waste);
                self.waste = self.waste.at_mark();
                drop(self.sweep.replace(began));
                Ok(())
            }
            Err(_fault) => Err(StoredFault::NoMemory),
        }
    }

    /// Begins a sweep, if none is under way: the streams are sealed, and each row that they have now is to be written again.
    ///
    /// After a fault no sweep has begun. Busy: no node answered the seal of a stream. NoMemory: memory ran out.
    #[tactic(auto, using(extent_seal::proofs::HeardLemmas::heard_none, crate::proofs::HeardLemmas::hears_any))]
    pub fn sweep_begin<W: Wire>(&mut self, wire: &mut W) -> Result<(), StoredFault>
        requires sure { doubt_of self.old ≡ None }
        ensures same { MeansTheSame self.old self.new }
        ensures doubt { doubt_of self.new ≡ None }
        ensures limits { HaveSameLimits self.old.streams self.new.streams }
        ensures counted { FailsStored result (W.faults wire.old) (W.faults wire.new) }
        ensures heard { HearsStored result (W.calls wire.old) (W.calls wire.new) (W.faults wire.old) (W.faults wire.new) }
    {
        if self.sweep.is_some() {
            return Ok(());
        }
        match self.seal(wire) {
            Ok(_sealed) => self.begin_sealed(),
            Err(fault) => Err(fault),
        }
    }

    /// Whether a sweep is under way.
    pub fn is_sweeping(&self) -> bool {
        self.sweep.is_some()
    }

    /// Ends the sweep if it has written each row: all that came before its mark, and the rows of the last checkpoint, are given up. `None` if no sweep
    /// is under way, or if rows are left. Takes no memory, and calls no node.
    ///
    /// Each container of the range is as it was. The data and the log have what was put since the mark, and no other block. A caller drops what is
    /// given once it holds no lock.
    pub fn sweep_end(&mut self) -> Option<SweptAway>
        requires sure { doubt_of self.old ≡ None }
        ensures kept { KeepsTheRange self.old self.new }
        ensures loaded { self.new.is_loaded ≡ self.old.is_loaded }
        ensures doubt { doubt_of self.new ≡ None }
        ensures data { IfSome result (λ away. blocks_of (laid self.new.streams.blobs) ≡ blocks_of (drop away.mark.blobs (laid self.old.streams.blobs))) }
        ensures log { IfSome result (λ away. blocks_of (laid self.new.streams.log) ≡ blocks_of (drop away.mark.log (laid self.old.streams.log))) }
        ensures rows { IfSome result (λ away. (logged self.new.streams).rows ≡ []) }
        ensures refused { result ≡ None → self.new ≡ self.old }
    {
        let Swept {
            mark,
            room,
            began,
            touched,
        } = end_if_over(&mut self.sweep)?;
        self.waste = self.waste.after_sweep(began);
        let given = self.streams.give_up_before(mark, room);
        Some(SweptAway {
            mark,
            given,
            touched,
        })
    }
}
