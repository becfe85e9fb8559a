//! The service of one account over a core that nobody shares.
ghost use Rattle.std.specs.Prelude.{◌≡◌, ◌∷◌, [], IfOk, OnErr};
ghost use Rattle.range_rows.specs.Readings.{reading_of};
ghost use Rattle.slot_state.specs.Pairs.{first_pairs};
ghost use Rattle.core_run.specs.Cores.{StandsFor, first_core};
ghost use Rattle.stamp_core.specs.CoreSteps.{IsCalm};
ghost use Rattle.core_service.specs.Services.{AnswersAsMachine, opening_of};

use access_rules::Keys;
use http_front::Service;
use range_rows::Reading;
use slot_state::{PairsFault, ProvedHistories};
use stamp_core::Core;
use stamp_types::{Moment, Reply, Request};
use std::alloc::{AllocError, Global};
use std::marker::Model;
use stored_rows::StepLimit;
use stored_slot::Steady;

// One more owner of each part of the pair.
fn copy_of(keys: &Keys) -> Result<Keys, AllocError>
    ensures { IfOk result (λ copy. copy ≡ keys.now) }
{
    keys.clone()
}

// A core of one slot of all keys, without containers, for the account of this first pair of keys.
//
// `AllocError` if memory runs out.
#[tactic(auto, using(crate::proofs::ServiceLemmas::calm_first))]
fn core_of(alloc: Global, keys: &Keys) -> Result<Core<ProvedHistories>, AllocError>
    requires { keys.now.epoch ≡ 0 }
    ensures value { IfOk result (λ core. core ≡ first_core (first_pairs (keys.now ∷ []))) }
    ensures stands { IfOk result (λ core. StandsFor core (opening_of keys.now)) }
    ensures calm { IfOk result (λ core. IsCalm core) }
{
    let keys = copy_of(keys)?;
    let mut pairs = Vec::new(alloc);
    pairs.push(keys)?;
    match Core::new(alloc, pairs) {
        Ok(core) => Ok(core),
        Err(PairsFault::NoMemory) => Err(AllocError),
        Err(_) => unreachable!("one pair of epoch 0 has no other fault"),
    }
}

// The reply of the machine, and its change, over nodes in memory.
//
// `AllocError` if memory runs out. Then the core is as it was.
fn answer_steadily(
    core: &mut Core<ProvedHistories>,
    wire: &mut Steady,
    alloc: Global,
    request: &Request,
    reading: Reading,
    moment: Moment,
) -> Result<Reply, AllocError>
    requires calm { IsCalm core.old }
    requires read { reading ≡ reading_of request.now }
    ensures calm { IsCalm core.new }
    ensures answered { IfOk result (λ reply. AnswersAsMachine core.old request.now moment reply core.new) }
    ensures unchanged { OnErr result (core.new ≡ core.old) }
{
    core.answer(alloc, request, None, reading, moment, wire)
}

// Makes one step of the sweep of the first slot that is sweeping or wasteful, if there is one, over nodes in memory, and drops what it gave up.
//
// The answer to a request is the same after a step, also if memory runs out for the step. This function is not inlined: the value that a step gives
// is large, and a caller would write its zeros for each request.
#[inline(never)]
fn sweep_now(core: &mut Core<ProvedHistories>, wire: &mut Steady, alloc: Global, body_len: u64)
    requires calm { IsCalm core.old }
    ensures { core.new ≡ core.old }
{
    drop(core.sweep_wasteful(alloc, StepLimit::of_a_write(body_len), wire));
}

// The same before a request that writes, if a slot is sweeping or wasteful.
fn sweep_before(
    core: &mut Core<ProvedHistories>,
    wire: &mut Steady,
    alloc: Global,
    request: &Request,
)
    requires calm { IsCalm core.old }
    ensures { core.new ≡ core.old }
{
    if request.ask().op.writes() && core.is_wasteful() {
        sweep_now(core, wire, alloc, request.body().len() as u64);
    }
}

/// The service of one account over a core whose nodes are in memory: each reply is the machine's. One connection after the other may use it.
///
/// Contracts see it as the core (`CoreState` of `core_run`).
#[derive(Drop)]
pub struct CoreService {
    core: Core<ProvedHistories>,
    wire: Steady,
}

impl Model for CoreService {
    ghost use Rattle.core_run.specs.Cores.{CoreState, core_code};
    ghost use Rattle.stamp_core.specs.CoreSteps.{IsCalm};

    ghost Value = { CoreState };

    ghost coded = { core_code };

    ghost view = { λ s. s.core };

    // No change is in doubt, since no call of the wire fails.
    ghost invariant = { λ s. IsCalm s.core };
}

impl CoreService {
    /// The service of the account of this first pair of keys, which has no containers.
    ///
    /// `AllocError` if memory runs out.
    pub fn new(alloc: Global, keys: &Keys) -> Result<Self, AllocError>
        requires { keys.now.epoch ≡ 0 }
        ensures value { IfOk result (λ service. service ≡ first_core (first_pairs (keys.now ∷ []))) }
        ensures stands { IfOk result (λ service. StandsFor service (opening_of keys.now)) }
    {
        let core = core_of(alloc, keys)?;
        Ok(Self {
            core,
            wire: Steady::new(),
        })
    }
}

#[cfg(test)]
impl CoreService {
    // Whether a slot of the core is sweeping or wasteful.
    pub(crate) fn is_wasteful(&self) -> bool {
        self.core.is_wasteful()
    }
}

impl Service for CoreService {
    ghost use Rattle.core_run.specs.Cores.{CoreState};

    ghost World = { CoreState };

    ghost world = { λ service. service };

    ghost answers = { AnswersAsMachine };

    ghost starves = { λ old new. new ≡ old };

    /// The reply of the machine, and its change. If earlier changes left much to which nothing refers, a request that writes first makes a step of a
    /// sweep.
    ///
    /// `AllocError` if memory runs out for the reading of the body, the change or the reply. Then nothing is changed.
    fn answer(
        &mut self,
        alloc: Global,
        request: Request,
        moment: Moment,
    ) -> Result<Reply, AllocError>
        ensures answered { IfOk result (λ reply. AnswersAsMachine self.old request moment reply self.new) }
        ensures unchanged { OnErr result (self.new ≡ self.old) }
    {
        let reading = Reading::of(alloc, &request)?;
        let Self { core, wire } = self;
        sweep_before(core, wire, alloc, &request);
        answer_steadily(core, wire, alloc, &request, reading, moment)
    }
}
