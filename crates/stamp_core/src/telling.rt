//! What is told of the answer of a slot: a reply at once, or the number of a ticket.
ghost use Rattle.std.specs.Prelude.{◌≡◌, IfOk};
ghost use Rattle.extent_seal.specs.Counting.{Grows};
ghost use Rattle.stored_slot.specs.Served as served;
ghost use Rattle.stored_slot.specs.Served.{Faulted};
ghost use Rattle.stamp_core.specs.CoreSteps.{IsHeldOrRead, IsReadNow, IsToldNow, TellsAnswer, fetch_answer};

use crate::open_tickets::OpenTickets;
use core_run::{Outcome, StepFault};
use extent_node::Wire;
use extent_seal::ReadFault;
use stamp_types::{Code, Refusal, Reply, Rule};
use std::alloc::{AllocError, Global};
use tickets::{Answer, Ticket};

// The reply to a request whose content is out of reach.
fn out_of_reach(alloc: Global) -> Result<Reply, AllocError>
    ensures { IfOk result (λ reply. reply ≡ served.busy) }
{
    Reply::denied(
        alloc,
        Refusal {
            rule: Rule::N1,
            code: Code::ServerBusy,
        },
    )
}

// The reply of a ticket at once, or the denial of N1 if its content is out of reach.
fn read_now<W: Wire>(alloc: Global, ticket: Ticket, wire: &mut W) -> Result<Reply, AllocError>
    ensures read { IsReadNow ticket (Faulted (W.faults wire.old) (W.faults wire.new)) result }
    ensures grown { Grows (W.faults wire.old) (W.faults wire.new) }
{
    match ticket.fetch(wire) {
        Ok(reply) => Ok(reply),
        Err((ticket, fault)) => {
            drop(ticket);
            match fault {
                ReadFault::Unreachable => out_of_reach(alloc),
                ReadFault::NoMemory => Err(AllocError),
            }
        }
    }
}

// Holds a ticket. If memory runs out for its place, the reply is told at once.
fn hold_or_read<W: Wire>(
    tickets: &mut OpenTickets,
    alloc: Global,
    ticket: Ticket,
    wire: &mut W,
) -> Result<Outcome, StepFault>
    ensures told { IsHeldOrRead ticket tickets.old (Faulted (W.faults wire.old) (W.faults wire.new)) result tickets.new }
    ensures grown { Grows (W.faults wire.old) (W.faults wire.new) }
{
    match tickets.hold(ticket) {
        Ok(number) => Ok(Outcome::Later(number)),
        Err(ticket) => match read_now(alloc, ticket, wire) {
            Ok(reply) => Ok(Outcome::Reply(reply)),
            Err(AllocError) => Err(StepFault::NoMemory),
        },
    }
}

/// What is told of the answer of a slot: its reply, or the number of its ticket. If memory runs out for the ticket's place, the reply is told
/// at once.
pub(crate) fn tell<W: Wire>(
    tickets: &mut OpenTickets,
    alloc: Global,
    answer: Answer,
    wire: &mut W,
) -> Result<Outcome, StepFault>
    ensures told { TellsAnswer answer tickets.old (Faulted (W.faults wire.old) (W.faults wire.new)) result tickets.new }
    ensures grown { Grows (W.faults wire.old) (W.faults wire.new) }
{
    match answer {
        Answer::Done(reply) => Ok(Outcome::Reply(reply)),
        Answer::Later(ticket) => hold_or_read(tickets, alloc, ticket, wire),
        Answer::NoMemory => Err(StepFault::NoMemory),
    }
}

/// The reply of the answer of a slot at once: a ticket is fetched.
///
/// `AllocError` if memory ran out.
pub(crate) fn tell_now<W: Wire>(
    alloc: Global,
    answer: Answer,
    wire: &mut W,
) -> Result<Reply, AllocError>
    ensures told { IsToldNow answer (Faulted (W.faults wire.old) (W.faults wire.new)) result }
    ensures grown { Grows (W.faults wire.old) (W.faults wire.new) }
{
    match answer {
        Answer::Done(reply) => Ok(reply),
        Answer::Later(ticket) => read_now(alloc, ticket, wire),
        Answer::NoMemory => Err(AllocError),
    }
}

/// What a Fetch answers.
pub(crate) fn answered(fetched: Result<Reply, StepFault>) -> Result<Outcome, StepFault>
    ensures { result ≡ fetch_answer fetched }
{
    match fetched {
        Ok(reply) => Ok(Outcome::Reply(reply)),
        Err(fault) => Err(fault),
    }
}
