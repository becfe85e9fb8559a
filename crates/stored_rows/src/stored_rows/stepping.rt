//! The steps of a sweep, and what is written before a change.
ghost use Rattle.std.specs.Prelude.{◌≡◌};

use super::StoredRows;
use crate::step::{Progress, Rewritten, StepLimit};
use crate::sweep::end_sweep;
use crate::sweep_steps::{Went, step_row, touch_rows};
use extent_node::Wire;
use partition_stream::TakeFault;
use stamp_types::Change;

impl StoredRows {
    ghost use Rattle.std.specs.Prelude.{◌≡◌, None, true};
    ghost use Rattle.stored_rows.specs.Compactions.{KeepsTheRange};
    ghost use Rattle.stored_rows.specs.Heard.{HearsTake};
    ghost use Rattle.stored_rows.specs.Ranges.{covers};
    ghost use Rattle.stored_rows.specs.Rewriting.{FailsStep, LeavesRowDoubt};
    ghost use Rattle.stored_rows.specs.States.{doubt_of};

    // Writes the next row of the sweep.
    #[tactic(auto, using(extent_seal::proofs::HeardLemmas::heard_none))]
    fn write_next<W: Wire>(&mut self, wire: &mut W) -> Result<Went, TakeFault>
        requires sure { doubt_of self.old ≡ None }
        ensures kept { KeepsTheRange self.old self.new }
        ensures loaded { self.new.is_loaded ≡ self.old.is_loaded }
        ensures doubt { LeavesRowDoubt result self.new.streams }
        ensures counted { FailsStep result (W.faults wire.old) (W.faults wire.new) }
        ensures heard { HearsTake result (W.calls wire.old) (W.calls wire.new) (W.faults wire.old) (W.faults wire.new) }
    {
        let Some(rows) = &mut self.rows else {
            return Ok(Went::NoSweep);
        };
        let Some(sweep) = &mut self.sweep else {
            return Ok(Went::NoSweep);
        };
        let went = step_row(
            self.alloc,
            &mut self.streams,
            rows,
            &self.range,
            sweep,
            &mut self.doubt,
            &mut self.spare,
            wire,
        );
        match went {
            Ok(Went::On(size)) => self.waste = self.waste.after_row(size.size),
            Ok(Went::Stuck) => end_sweep(&mut self.sweep),
            _ => {}
        }
        went
    }

    /// Writes the next rows of the sweep that is under way again, up to the limit. No byte of content is copied. Each container is as it was.
    ///
    /// Busy: a row was tried twice, or nodes that were needed did not answer. Doubt: it is not known whether a row is kept; each container is the same
    /// either way. NoMemory: memory ran out before the row was logged. After a fault the rows before it are written, and the sweep goes on later.
    #[tactic(auto, using(crate::proofs::SteppedLemmas::range_twice, crate::proofs::SteppedLemmas::step_later, crate::proofs::SteppedLemmas::keeps_itself, crate::proofs::CountLemmas::grows_twice, crate::proofs::CountLemmas::grows_not, extent_seal::proofs::HeardLemmas::heard_none, extent_seal::proofs::HeardLemmas::heard_then, crate::proofs::HeardLemmas::hears_take_later))]
    pub fn sweep_step<W: Wire>(
        &mut self,
        limit: StepLimit,
        wire: &mut W,
    ) -> Result<Progress, TakeFault>
        requires sure { doubt_of self.old ≡ None }
        ensures kept { KeepsTheRange self.old self.new }
        ensures loaded { self.new.is_loaded ≡ self.old.is_loaded }
        ensures doubt { LeavesRowDoubt result self.new.streams }
        ensures counted { FailsStep result (W.faults wire.old) (W.faults wire.new) }
        ensures heard { HearsTake result (W.calls wire.old) (W.calls wire.new) (W.faults wire.old) (W.faults wire.new) }
    {
        let mut size = Rewritten::none();
        'rows: for _row in 0..limit.rows {
            match self.write_next(wire) {
                Ok(Went::On(more)) => {
                    size = size.and(more);
                    if !size.is_within(limit) {
                        return Ok(Progress::RowsLeft);
                    }
                }
                Ok(Went::Done) => return Ok(Progress::Done),
                Ok(Went::NoSweep | Went::Stuck) => return Ok(Progress::NoSweep),
                Err(fault) => return Err(fault),
            }
        }
        Ok(Progress::RowsLeft)
    }

    /// Writes the rows again that a change reads, if a sweep is under way that does not know them to be written. A caller touches a change before
    /// the change is taken; otherwise the take ends the sweep. Each container is as it was.
    ///
    /// The faults are those of a step.
    #[tactic(auto, using(extent_seal::proofs::HeardLemmas::heard_none))]
    pub fn touch<W: Wire>(&mut self, change: &Change, wire: &mut W) -> Result<(), TakeFault>
        requires sure { doubt_of self.old ≡ None }
        requires covered { covers self.old.range change.now.key ≡ true }
        ensures kept { KeepsTheRange self.old self.new }
        ensures loaded { self.new.is_loaded ≡ self.old.is_loaded }
        ensures doubt { LeavesRowDoubt result self.new.streams }
        ensures counted { FailsStep result (W.faults wire.old) (W.faults wire.new) }
        ensures heard { HearsTake result (W.calls wire.old) (W.calls wire.new) (W.faults wire.old) (W.faults wire.new) }
    {
        let Some(rows) = &mut self.rows else {
            return Ok(());
        };
        let Some(sweep) = &mut self.sweep else {
            return Ok(());
        };
        let touched = touch_rows(
            self.alloc,
            &mut self.streams,
            rows,
            &self.range,
            sweep,
            &mut self.doubt,
            &mut self.spare,
            change,
            wire,
        );
        match touched {
            Ok(size) => {
                self.waste = self.waste.after_touch(size.size);
                Ok(())
            }
            Err(fault) => Err(fault),
        }
    }
}
