//! A caller whose requests go to a slot over streams with a pass.
ghost use Rattle.std.specs.Prelude.{⊤};

use crate::samples::key;
use crate::stored_samples::{has_container, reply_of, rows};
use access_rules::Keys;
use extent_node::{Delivery, Script};
use http_front::Service;
use slot_pass::{AfterCall, AfterFault, Pass, serve_after};
use slot_state::{AccountPairs, KeptHistories};
use stamp_types::{Moment, Reply, Request};
use std::alloc::{AllocError, Global};
use std::mem::replace;
use std::process::Abort;
use std::sync::Arc;
use stored_slot::StoredSlot;

/// A slot over streams, and the pass of a caller whose requests it serves. The last fault of a call is kept.
#[derive(Drop)]
pub(crate) struct Passing {
    pub(crate) slot: StoredSlot<KeptHistories>,
    pub(crate) wire: Script,
    pub(crate) pass: Pass,
    pub(crate) fault: Option<AfterFault>,
}

impl Service for Passing {
    ghost World = { ⊤ };

    ghost world = { λ s. tt };

    ghost answers = { λ old asked moment reply new. ⊤ };

    ghost starves = { λ old new. ⊤ };

    fn answer(
        &mut self,
        alloc: Global,
        request: Request,
        moment: Moment,
    ) -> Result<Reply, AllocError> {
        if !has_container(&self.slot, &request) || !request.ask().key.same(self.pass.key()) {
            return Err(AllocError);
        }
        let call = AfterCall {
            request: &request,
            judged: None,
            moment,
            is_audited: false,
        };
        match serve_after(&mut self.slot, alloc, &mut self.pass, &call, &mut self.wire) {
            Ok(audited) => reply_of(audited.answer, &mut self.wire),
            Err(fault) => {
                self.fault = Some(fault);
                Err(AllocError)
            }
        }
    }
}

/// A slot over streams with these key pairs, without containers, and a caller with a new pass of this container. The wire gives these
/// deliveries and answers in turn, and then Done and yes.
pub(crate) fn new_passing(
    rt: &impl Abort,
    alloc: Global,
    container: &str,
    pairs: Vec<Keys>,
    puts: &[Delivery],
    asks: &[bool],
) -> Box<Passing> {
    let pairs = AccountPairs::of(alloc, pairs).expect(rt, "first pairs");
    let pairs = Arc::new(alloc, pairs).expect(rt, "memory");
    let puts = puts.to_vec(alloc).expect(rt, "memory");
    let asks = asks.to_vec(alloc).expect(rt, "memory");
    let passing = Passing {
        slot: StoredSlot::of_rows(alloc, rows(alloc), pairs),
        wire: Script::new(alloc, puts, asks),
        pass: Pass::new(alloc, key(rt, alloc, container)),
        fault: None,
    };
    Box::new(alloc, passing).expect(rt, "memory")
}

/// The pass of the caller, who begins anew with this pass.
pub(crate) fn exchanged(passing: &mut Passing, pass: Pass) -> Pass {
    replace(&mut passing.pass, pass)
}
