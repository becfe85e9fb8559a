//! Sweeps that the core makes by itself.
ghost use Rattle.std.specs.Prelude.{◌≡◌};
ghost use Rattle.extent_seal.specs.Counting.{Grows};
ghost use Rattle.stored_slot.specs.Served.{Faulted};
ghost use Rattle.core_run.specs.Cores.{StandsFor};
ghost use Rattle.core_run.specs.States.{State};
ghost use Rattle.stamp_core.specs.CoreSteps.{IsCalm, has_faults};
ghost use Rattle.stamp_core.specs.Sweeps.{SweepsFirst, TakesCompact};

use super::Core;
use crate::sweeping::{first_to_sweep, sweep_at};
use extent_node::Wire;
use slot_state::Histories;
use std::alloc::Global;
use stored_rows::StepLimit;
use stored_slot::SweepStep;

impl<H: Histories> Core<H> {
    /// Whether a sweep of a slot is under way, or the streams of a slot have more bytes to which no container refers than a third of the bytes that
    /// exist and 16 MiB. No answer depends on it.
    pub fn is_wasteful(&self) -> bool {
        first_to_sweep(&self.slots) < self.slots.len()
    }

    /// One Compact step, on the first slot that is sweeping or wasteful, if a slot is: one step of its sweep, up to the limit. Gives how far the
    /// sweep is, and at its end what was given up, which may be dropped after a lock. No byte of content is copied.
    ///
    /// `None` if no slot is sweeping or wasteful, or if the step failed: nodes that were needed did not answer, or memory ran out. Then nothing is
    /// changed, except that a doubt may have ended. The next call makes the step again.
    pub fn sweep_wasteful<W: Wire>(
        &mut self,
        alloc: Global,
        limit: StepLimit,
        wire: &mut W,
    ) -> Option<SweepStep>
        ensures swept { SweepsFirst result self.old.slots (Faulted (W.faults wire.old) (W.faults wire.new)) self.new.slots }
        ensures points { self.new.points ≡ self.old.points }
        ensures tickets { self.new.tickets ≡ self.old.tickets }
        ensures calm { IsCalm self.old → self.new ≡ self.old }
        ensures taken { (s : State) → StandsFor self.old s
            → (s' : State) × (TakesCompact result s (has_faults (W.faults wire.old) (W.faults wire.new)) s' × StandsFor self.new s') }
        ensures grown { Grows (W.faults wire.old) (W.faults wire.new) }
    {
        let at = first_to_sweep(&self.slots);
        sweep_at(&mut self.slots, &self.spans, at, alloc, limit, wire)
    }
}
