//! A slot over streams that connections are served by, with a wire that answers from lists.
ghost use Rattle.std.specs.Prelude.{⊤, ◌≡◌, IfOk, None, true};
ghost use Rattle.stamp_types.specs.World.{no_part};
ghost use Rattle.stamp_values.specs.declared.key.Key.{Key};
ghost use Rattle.stamp_model.specs.SeenContainers.{routed};
ghost use Rattle.stored_rows.specs.States.{doubt_of, pieces_of};
ghost use Rattle.slot_state.specs.Slots as slots;

use crate::requests::{CREATE, CREATED, PUT};
use crate::routes::first_seen;
use crate::samples::{begins, key, pairs};
use extent_node::{Delivery, Script};
use http_front::Service;
use slot_state::{AccountPairs, KeptHistories};
use stamp_types::{Key, Moment, Reply, Request};
use std::alloc::{AllocError, Global};
use std::process::Abort;
use std::sync::Arc;
use stored_rows::{KeyRange, StoredRows};
use stored_slot::StoredSlot;
use tickets::{Answer, Ticket};

pub(crate) const D: Delivery = Delivery::Done;

pub(crate) const R: Delivery = Delivery::Refused;

pub(crate) const L: Delivery = Delivery::Lost;

/// A slot over streams that answers each request, and fetches its tickets at once. It counts the tickets.
#[derive(Drop)]
pub(crate) struct Streamed {
    pub(crate) slot: StoredSlot<KeptHistories>,
    pub(crate) wire: Script,
    pub(crate) tickets: u64,
}

/// Whether the request names a container of the slot.
#[tactic(auto, using(slot_state::proofs::RangeLemmas::routed_own))]
pub(crate) fn has_container(slot: &StoredSlot<KeptHistories>, request: &Request) -> bool
    ensures { result ≡ true → slots.covers slot.now (routed request.now) ≡ true }
{
    let ask = request.ask();
    ask.op.names_container() && slot.covers(&ask.key)
}

/// Whether the first key that the request looks at is one of the slot.
pub(crate) fn is_covered(
    alloc: Global,
    slot: &StoredSlot<KeptHistories>,
    request: &Request,
) -> Result<bool, AllocError>
    ensures { IfOk result (λ covered. covered ≡ true → slots.covers slot.now (routed request.now) ≡ true) }
{
    if request.ask().op.names_container() {
        return Ok(has_container(slot, request));
    }
    let first = first_seen(alloc, request)?;
    Ok(slot.covers(&first))
}

/// The reply of a ticket.
pub(crate) fn fetched(ticket: Ticket, wire: &mut Script) -> Result<Reply, AllocError> {
    match ticket.fetch(wire) {
        Ok(reply) => Ok(reply),
        Err((ticket, _fault)) => {
            drop(ticket);
            Err(AllocError)
        }
    }
}

/// The reply of an answer.
pub(crate) fn reply_of(answer: Answer, wire: &mut Script) -> Result<Reply, AllocError> {
    match answer {
        Answer::Done(reply) => Ok(reply),
        Answer::Later(ticket) => fetched(ticket, wire),
        Answer::NoMemory => Err(AllocError),
    }
}

impl Service for Streamed {
    ghost World = { ⊤ };

    ghost world = { λ s. tt };

    ghost answers = { λ old asked moment reply new. ⊤ };

    ghost starves = { λ old new. ⊤ };

    fn answer(
        &mut self,
        alloc: Global,
        request: Request,
        moment: Moment,
    ) -> Result<Reply, AllocError> {
        if !is_covered(alloc, &self.slot, &request)? {
            return Err(AllocError);
        }
        match self
            .slot
            .serve(alloc, &request, None, moment, &mut self.wire)
        {
            Answer::Done(reply) => Ok(reply),
            Answer::Later(ticket) => {
                self.tickets = self.tickets.saturating_add(1);
                let reply = fetched(ticket, &mut self.wire)?;
                Ok(reply)
            }
            Answer::NoMemory => Err(AllocError),
        }
    }
}

/// New rows of all keys, in extents of a million bytes.
pub(crate) fn rows(alloc: Global) -> StoredRows
    ensures none { (key : Key) → pieces_of result key ≡ no_part }
    ensures sure { doubt_of result ≡ None }
{
    StoredRows::new(alloc, 1_000_000, KeyRange::all(alloc))
}

/// A slot over streams with these rows and key pairs, without containers, whose wire is this. The slot is in a box, since a value with so many
/// fields is slow to prove.
pub(crate) fn make_of_pairs(
    rt: &impl Abort,
    alloc: Global,
    rows: StoredRows,
    pairs: Arc<AccountPairs>,
    wire: Script,
) -> Box<Streamed>
    requires none { (key : Key) → pieces_of rows key ≡ no_part }
    requires sure { doubt_of rows ≡ None }
{
    let streamed = Streamed {
        slot: StoredSlot::of_rows(alloc, rows, pairs),
        wire,
        tickets: 0,
    };
    Box::new(alloc, streamed).expect(rt, "memory")
}

/// A slot of the account whose rows are these, without containers. Its wire gives these deliveries and answers in turn, and then Done and yes.
pub(crate) fn make_of_rows(
    rt: &impl Abort,
    alloc: Global,
    rows: StoredRows,
    puts: &[Delivery],
    asks: &[bool],
) -> Box<Streamed>
    requires none { (key : Key) → pieces_of rows key ≡ no_part }
    requires sure { doubt_of rows ≡ None }
{
    let pairs = AccountPairs::of(alloc, pairs(rt, alloc)).expect(rt, "first pairs");
    let pairs = Arc::new(alloc, pairs).expect(rt, "memory");
    let puts = puts.to_vec(alloc).expect(rt, "memory");
    let asks = asks.to_vec(alloc).expect(rt, "memory");
    make_of_pairs(rt, alloc, rows, pairs, Script::new(alloc, puts, asks))
}

/// The same with new rows, which write their lists at once.
pub(crate) fn make_streamed(
    rt: &impl Abort,
    alloc: Global,
    puts: &[Delivery],
    asks: &[bool],
) -> Box<Streamed> {
    make_of_rows(rt, alloc, rows(alloc), puts, asks)
}

/// A slot of the account, without containers, whose nodes always answer.
pub(crate) fn empty_slot(rt: &impl Abort, alloc: Global) -> Box<Streamed> {
    make_streamed(rt, alloc, &[], &[])
}

/// Creates the container and puts the blob.
pub(crate) fn put_hello(rt: &impl Abort, alloc: Global, slot: &mut Streamed) {
    assert!(rt; begins(rt, alloc, slot, CREATE, CREATED));
    assert!(rt; begins(rt, alloc, slot, PUT, CREATED));
}

/// The upper half of the slot, which is split at the key of this container; none if the split fails. The wire of the upper half always
/// answers.
pub(crate) fn split(
    rt: &impl Abort,
    alloc: Global,
    lower: &mut Streamed,
    container: &str,
) -> Option<Box<Streamed>> {
    let middle = key(rt, alloc, container);
    if !lower.slot.is_inside(&middle) {
        panic!(rt; "the key is not inside");
    }
    let slot = lower.slot.split(alloc, &middle, &mut lower.wire).ok()?;
    let upper = Streamed {
        slot,
        wire: Script::new(alloc, Vec::new(alloc), Vec::new(alloc)),
        tickets: 0,
    };
    Some(Box::new(alloc, upper).expect(rt, "memory"))
}

/// The upper half of the slot, which is split at the key of this container. The nodes answer.
pub(crate) fn cut(
    rt: &impl Abort,
    alloc: Global,
    lower: &mut Streamed,
    container: &str,
) -> Box<Streamed> {
    split(rt, alloc, lower, container).expect(rt, "the nodes answer")
}

/// How many accepted changes of the container the slot has.
pub(crate) fn changes(streamed: &Streamed, key: &Key) -> usize {
    streamed.slot.history(key).len()
}
