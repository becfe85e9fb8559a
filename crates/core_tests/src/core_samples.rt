//! A core that connections are served by, and what is sent to it beside what is sent to slots.
ghost use Rattle.std.specs.Prelude.{⊤};

use crate::samples::{key, noon, pair, request};
use core_run::{Outcome, Step, StepFault};
use extent_node::{Delivery, Script};
use http_front::Service;
use slot_state::KeptHistories;
use stamp_core::{Core, CoreCare, Untended};
use stamp_types::{Moment, Reply, Request};
use std::alloc::{AllocError, Global};
use std::process::Abort;
use stored_rows::{StoredFault, Unrepaired};

/// A Delete Blob of `a.txt`.
pub(crate) const DELETE: &[u8] =
    b"DELETE /devstoreaccount1/pics/a.txt HTTP/1.1\r\nx-ms-date: Mon, 01 Oct 2012 12:00:00 GMT\r\nx-ms-version: 2012-02-12\r\nContent-Length: 0\r\nAuthorization: SharedKey devstoreaccount1:9i0i37P61DCX1miSb3ce5oNetWTS9h9yjM01njB1g0A=\r\n\r\n";

/// A List Containers from the marker `q` on.
pub(crate) const LIST_FROM_Q: &[u8] =
    b"GET /devstoreaccount1?comp=list&marker=q HTTP/1.1\r\nx-ms-date: Mon, 01 Oct 2012 12:00:00 GMT\r\nx-ms-version: 2012-02-12\r\nAuthorization: SharedKey devstoreaccount1:yj9kEsUX+WZBm0F0rJwozwjutTWIUPWmQqjsF91R6iI=\r\n\r\n";

/// A Put Blob of `world` under `a.txt`.
pub(crate) const PUT_WORLD: &[u8] =
    b"PUT /devstoreaccount1/pics/a.txt HTTP/1.1\r\nx-ms-date: Mon, 01 Oct 2012 12:00:00 GMT\r\nx-ms-version: 2012-02-12\r\nContent-Length: 5\r\nx-ms-blob-type: BlockBlob\r\nAuthorization: SharedKey devstoreaccount1:d6Z+te/s0/4E59HxWmnrHiDmMywuU/tdYZOanDvfbmU=\r\n\r\nworld";

/// The head of a Put Blob of 768 KiB under `a.txt`.
pub(crate) const PUT_MORE: &[u8] =
    b"PUT /devstoreaccount1/pics/a.txt HTTP/1.1\r\nx-ms-date: Mon, 01 Oct 2012 12:00:00 GMT\r\nx-ms-version: 2012-02-12\r\nContent-Length: 786432\r\nx-ms-blob-type: BlockBlob\r\nAuthorization: SharedKey devstoreaccount1:okVdVr3/03AIAeHGa4f4Cm3lD6PU4gOoOJOmZaFacx4=\r\n\r\n";

/// A core that answers each request by its steps. The tickets that it gives are fetched at once, but for those that are to be kept.
#[derive(Drop)]
pub(crate) struct Driven {
    pub(crate) core: Core<KeptHistories>,
    pub(crate) wire: Script,
    pub(crate) keeps: bool,
    pub(crate) kept: Option<u64>,
}

// The reply that the step gives, if it gives one.
fn reply_of(outcome: Result<Outcome, StepFault>) -> Result<Reply, AllocError> {
    match outcome {
        Ok(Outcome::Reply(reply)) => Ok(reply),
        _ => Err(AllocError),
    }
}

impl Service for Driven {
    ghost World = { ⊤ };

    ghost world = { λ s. tt };

    ghost answers = { λ old asked moment reply new. ⊤ };

    ghost starves = { λ old new. ⊤ };

    fn answer(
        &mut self,
        alloc: Global,
        request: Request,
        moment: Moment,
    ) -> Result<Reply, AllocError> {
        let step = Step::Serve { request, moment };
        match self.core.step(alloc, step, &mut self.wire) {
            Ok(Outcome::Later(ticket)) => {
                self.kept = Some(ticket);
                if self.keeps {
                    return Err(AllocError);
                }
                reply_of(self.core.fetch(ticket, &mut self.wire))
            }
            outcome => reply_of(outcome),
        }
    }
}

// A wire that gives these deliveries and these answers in turn, and then Done and yes.
fn wire_of(rt: &impl Abort, alloc: Global, puts: &[Delivery], asks: &[bool]) -> Script {
    let puts = puts.to_vec(alloc).expect(rt, "memory");
    let asks = asks.to_vec(alloc).expect(rt, "memory");
    Script::new(alloc, puts, asks)
}

/// From now on the wire gives these deliveries and these answers in turn, and then Done and yes.
pub(crate) fn give(
    rt: &impl Abort,
    alloc: Global,
    driven: &mut Driven,
    puts: &[Delivery],
    asks: &[bool],
) {
    driven.wire = wire_of(rt, alloc, puts, asks);
}

/// A core of the account, without containers. No call of its wire fails until others are given.
pub(crate) fn empty_core(rt: &impl Abort, alloc: Global) -> Box<Driven> {
    let mut pairs = Vec::new(alloc);
    pairs.push(pair(rt, alloc, 0)).expect(rt, "memory");
    let core = Core::new(alloc, pairs).expect(rt, "memory");
    let driven = Driven {
        core,
        wire: wire_of(rt, alloc, &[], &[]),
        keeps: false,
        kept: None,
    };
    Box::new(alloc, driven).expect(rt, "memory")
}

/// The step that serves this request at noon.
pub(crate) fn serve(rt: &impl Abort, alloc: Global, head: &[u8], body: &[u8]) -> Step {
    Step::Serve {
        request: request(rt, alloc, head, body),
        moment: noon(rt),
    }
}

/// Why the slot is not split at the key of this container; `None` if it is split.
pub(crate) fn split(
    rt: &impl Abort,
    alloc: Global,
    driven: &mut Driven,
    slot: usize,
    container: &str,
) -> Option<StepFault> {
    let middle = key(rt, alloc, container);
    let split = driven.core.split(alloc, slot, &middle, &mut driven.wire);
    split.map(drop).err()
}

/// Why this is not done to the slot; `None` if it is done.
pub(crate) fn tended(
    alloc: Global,
    driven: &mut Driven,
    slot: usize,
    care: CoreCare,
) -> Option<StepFault> {
    match driven.core.tend(alloc, slot, care, &mut driven.wire) {
        Ok(given) => {
            drop(given);
            None
        }
        Err(untended) => Some(fault_of(untended)),
    }
}

/// The fault of the step that takes the care.
pub(crate) fn fault_of(untended: Untended) -> StepFault {
    match untended {
        Untended::NoSuchSlot => StepFault::NoSuchSlot,
        Untended::Slot(StoredFault::Busy) => StepFault::Busy,
        Untended::Repair(Unrepaired::NoSuchExtent(_none)) => StepFault::NoSuchExtent,
        Untended::Repair(Unrepaired::Unreachable) => StepFault::Unreachable,
        Untended::Slot(StoredFault::NoMemory) | Untended::Repair(Unrepaired::NoMemory) => {
            StepFault::NoMemory
        }
    }
}

/// Why the ticket does not give its reply; `None` if it does.
pub(crate) fn not_fetched(driven: &mut Driven, ticket: u64) -> Option<StepFault> {
    driven.core.fetch(ticket, &mut driven.wire).map(drop).err()
}

/// The content that the ticket gives.
pub(crate) fn fetched(
    rt: &impl Abort,
    alloc: Global,
    driven: &mut Driven,
    ticket: u64,
) -> Option<Vec<u8>> {
    match driven.core.fetch(ticket, &mut driven.wire) {
        Ok(Outcome::Reply(reply)) => Some(reply.body.joined(alloc).expect(rt, "memory")),
        _ => None,
    }
}
