//! What a slot answers to a request that changes nothing, or that fails.
ghost use Rattle.std.specs.Prelude.{◌≡◌, All, IfOk, true};
ghost use Rattle.extent_seal.specs.Counting.{Grows};
ghost use Rattle.stamp_types.specs.Replies.{denied};
ghost use Rattle.stream_manager.specs.Streams.{laid};
ghost use Rattle.partition_stream.specs.Contents.{bytes_at};
ghost use Rattle.range_partition.specs.Decisions.{CanBeSent, reply_read};
ghost use Rattle.tickets.specs.Answers.{IsAnswer, IsSpanStored};
ghost use Rattle.stored_slot.specs.Served as served;
ghost use Rattle.stored_slot.specs.Served.{Faulted, IsFailed, ReadsAnswer};

use extent_node::Wire;
use range_rows::FramedAnswer;
use stamp_types::{Code, Refusal, Reply, Rule};
use std::alloc::{AllocError, Global};
use stored_rows::{StoredFault, StoredRows};
use tickets::{Answer, Unreachable};

/// The denial, or that memory ran out for it.
pub(crate) fn denial(alloc: Global, refusal: Refusal) -> Answer
    ensures { IsAnswer result true (denied refusal) }
{
    match Reply::denied(alloc, refusal) {
        Ok(reply) => Answer::Done(reply),
        Err(AllocError) => Answer::NoMemory,
    }
}

/// The answer to a request whose slot needs nodes that are out of reach.
pub(crate) fn busy(alloc: Global) -> Answer
    ensures { IsAnswer result true served.busy }
{
    denial(
        alloc,
        Refusal {
            rule: Rule::N1,
            code: Code::ServerBusy,
        },
    )
}

/// The reply to a change whose outcome is unknown.
///
/// `AllocError` if memory runs out.
pub(crate) fn unknown(alloc: Global) -> Result<Reply, AllocError>
    ensures { IfOk result (λ reply. reply ≡ served.unknown) }
{
    Reply::denied(
        alloc,
        Refusal {
            rule: Rule::N2,
            code: Code::OperationTimedOut,
        },
    )
}

/// The answer to a request whose slot could not be settled or loaded.
pub(crate) fn failed(alloc: Global, fault: StoredFault) -> Answer
    ensures { IsFailed result fault }
{
    match fault {
        StoredFault::Busy => busy(alloc),
        StoredFault::NoMemory => Answer::NoMemory,
    }
}

/// The answer to a request that changes nothing: its content is read in the streams now, or by a ticket later. The text of a list is written by its
/// ticket, if the rows gather lists, and otherwise now.
#[tactic(auto, using(crate::proofs::ServeLemmas::answer_read, crate::proofs::ServeLemmas::busy_read))]
pub(crate) fn reading<W: Wire>(
    stored: &mut StoredRows,
    alloc: Global,
    answer: FramedAnswer,
    wire: &mut W,
) -> Answer
    requires stored { All (IsSpanStored (laid stored.old.streams.blobs)) answer.spans }
    requires sent { CanBeSent answer }
    ensures read { ReadsAnswer (Faulted (W.faults wire.old) (W.faults wire.new)) (reply_read (bytes_at (laid stored.old.streams.blobs)) answer) result }
    ensures same { stored.new ≡ stored.old }
    ensures grown { Grows (W.faults wire.old) (W.faults wire.new) }
{
    let FramedAnswer { frame, spans } = answer;
    let gathers = stored.gathers_lists();
    match stored.answer(frame, spans.as_slice(), gathers, wire) {
        Ok(answer) => answer,
        Err(Unreachable) => busy(alloc),
    }
}
