//! Tickets that are held until they are fetched.
ghost use Rattle.std.specs.Prelude.{ℕ, ◌≡◌, ◌∷◌, ◌++◌, [], IfErr, IfOk, OnOk, Some, length};
ghost use Rattle.std.specs.BTreeMap.{IsUnchanged, Updates};
ghost use Rattle.std.specs.Ordering.{nat_cmp};
ghost use Rattle.extent_seal.specs.Counting.{Grows};
ghost use Rattle.stored_slot.specs.Served.{Faulted};
ghost use Rattle.stamp_core.specs.Tickets as tickets;
ghost use Rattle.stamp_core.specs.Tickets.{IsTicketFetched, at_number, held_reply, left_after};

use core_run::StepFault;
use extent_node::Wire;
use extent_seal::ReadFault;
use stamp_types::Reply;
use std::alloc::Global;
use std::collections::BTreeMap;
use std::marker::Model;
use tickets::Ticket;

/// The tickets that were given. Tickets are numbered from 0 in the order in which they are given.
///
/// Contracts see the list of all of them: for each the reply that it holds, or `None` once the reply was fetched. Only the tickets that hold
/// a reply are in memory.
#[derive(Drop)]
pub(crate) struct OpenTickets {
    // A place is empty while its ticket is fetched: so a ticket whose fetch fails goes back without memory.
    open: BTreeMap<u64, Option<Ticket>>,
    given: u64,
}

impl Model for OpenTickets {
    ghost use Rattle.std.specs.Prelude.{List, Option};
    ghost use Rattle.stamp_types.specs.declared.reply.Reply.{Reply};
    ghost use Rattle.stamp_core.specs.Tickets.{at_number, listed};

    ghost Value = { List (Option Reply) };

    ghost view = { λ t. listed (at_number t.open) t.given };
}

// Puts a ticket under a number, or gives it back if memory runs out.
fn put(tree: &mut BTreeMap<u64, Option<Ticket>>, number: u64, ticket: Ticket) -> Result<(), Ticket>
    ensures put { OnOk result (Updates nat_cmp tree.old tree.new number (Some (Some ticket))) }
    ensures back { IfErr result (λ t. (t ≡ ticket) × IsUnchanged tree.old tree.new) }
{
    match tree.insert(number, Some(ticket)) {
        Ok(_before) => Ok(()),
        Err(failed) => match failed.value {
            (_, Some(ticket)) => Err(ticket),
            (_, None) => unreachable!("the tree gives back what it was given"),
        },
    }
}

// Why a step that reads a ticket fails.
fn fetch_fault(fault: ReadFault) -> StepFault
    ensures { result ≡ tickets.fetch_fault fault }
{
    match fault {
        ReadFault::Unreachable => StepFault::Unreachable,
        ReadFault::NoMemory => StepFault::NoMemory,
    }
}

// The reply of the ticket in a place, which is then empty. After a fault the ticket is in its place again.
fn fetch_ticket<W: Wire>(place: &mut Option<Ticket>, wire: &mut W) -> Result<Reply, StepFault>
    ensures fetched { IsTicketFetched place.old (Faulted (W.faults wire.old) (W.faults wire.new)) result place.new }
    ensures grown { Grows (W.faults wire.old) (W.faults wire.new) }
{
    match place.take() {
        None => Err(StepFault::NoSuchTicket),
        Some(ticket) => match ticket.fetch(wire) {
            Ok(reply) => Ok(reply),
            Err((ticket, fault)) => {
                *place = Some(ticket);
                Err(fetch_fault(fault))
            }
        },
    }
}

// The reply of the ticket under a number, whose place is then empty.
fn fetch_place<W: Wire>(
    tree: &mut BTreeMap<u64, Option<Ticket>>,
    number: u64,
    wire: &mut W,
) -> Result<Reply, StepFault>
    ensures fetched { IsTicketFetched (at_number tree.old number) (Faulted (W.faults wire.old) (W.faults wire.new)) result (at_number tree.new number) }
    ensures others { (n : ℕ) → (n ≡ number → ⊥) → at_number tree.new n ≡ at_number tree.old n }
    ensures grown { Grows (W.faults wire.old) (W.faults wire.new) }
{
    match tree.get_mut(&number) {
        Some(place) => fetch_ticket(place, wire),
        None => Err(StepFault::NoSuchTicket),
    }
}

impl OpenTickets {
    /// No tickets. Takes no memory.
    pub(crate) fn new(alloc: Global) -> Self
        ensures { result ≡ [] }
    {
        Self {
            open: BTreeMap::new(alloc),
            given: 0,
        }
    }

    /// Holds a ticket, and gives its number.
    ///
    /// The ticket comes back if memory runs out for one ticket more, or if no number is left. All tickets are then as they were.
    #[tactic(auto, using(crate::proofs::TicketLemmas::same_list))]
    pub(crate) fn hold(&mut self, ticket: Ticket) -> Result<u64, Ticket>
        ensures number { IfOk result (λ n. n ≡ length self.old) }
        ensures held { IfOk result (λ n. self.new ≡ self.old ++ Some ticket ∷ []) }
        ensures back { IfErr result (λ t. (t ≡ ticket) × (self.new ≡ self.old)) }
    {
        let number = self.given;
        let Some(next) = number.checked_add(1) else {
            return Err(ticket);
        };
        put(&mut self.open, number, ticket)?;
        self.given = next;
        Ok(number)
    }

    /// The reply of the ticket of this number, which then ends. Takes memory only for the reply.
    ///
    /// `NoSuchTicket` if the ticket was not given, or has ended. `Unreachable` if every node with a copy of some extent was asked and answered
    /// no, and `NoMemory` if memory runs out: the ticket then stays.
    pub(crate) fn fetch<W: Wire>(&mut self, number: u64, wire: &mut W) -> Result<Reply, StepFault>
        ensures fetched { IsTicketFetched (held_reply self.old number) (Faulted (W.faults wire.old) (W.faults wire.new)) result (held_reply self.new number) }
        ensures left { self.new ≡ left_after result self.old number }
        ensures grown { Grows (W.faults wire.old) (W.faults wire.new) }
    {
        if number >= self.given {
            return Err(StepFault::NoSuchTicket);
        }
        match fetch_place(&mut self.open, number, wire) {
            Ok(reply) => {
                self.open.remove(&number);
                Ok(reply)
            }
            Err(fault) => Err(fault),
        }
    }
}
