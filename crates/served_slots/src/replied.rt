//! The reply to a request that was served, whose content may be read after the slot's lock.
ghost use Rattle.std.specs.Prelude.{◌≡◌, IfOk};
ghost use Rattle.served_slots.specs.Steps.{SaysReply};

use stamp_types::Reply;
use std::alloc::AllocError;
use std::marker::Model;
use stored_slot::Steady;
use tickets::{Answer, Ticket};

/// The reply to a request that was served: it is there, or a ticket gives it, since some of its content is in sealed extents. Contracts see it as
/// the reply.
#[derive(Drop)]
pub(crate) struct Replied {
    reply: Result<Reply, Ticket>,
}

impl Model for Replied {
    ghost use Rattle.stamp_types.specs.declared.reply.Reply.{Reply};
    ghost use Rattle.served_slots.specs.Steps.{told_reply};

    ghost Value = { Reply };

    ghost view = { λ r. told_reply r.reply };
}

// The reply of a ticket.
fn fetched(ticket: Ticket) -> Result<Reply, AllocError>
    ensures { IfOk result (λ reply. reply ≡ ticket) }
{
    match ticket.fetch(&mut Steady::new()) {
        Ok(reply) => Ok(reply),
        Err((ticket, _fault)) => {
            drop(ticket);
            Err(AllocError)
        }
    }
}

impl Replied {
    /// The reply of an answer. `AllocError` if memory ran out for the answer.
    pub(crate) fn of(answer: Answer) -> Result<Self, AllocError>
        ensures { SaysReply answer result }
    {
        match answer {
            Answer::Done(reply) => Ok(Self { reply: Ok(reply) }),
            Answer::Later(ticket) => Ok(Self { reply: Err(ticket) }),
            Answer::NoMemory => Err(AllocError),
        }
    }

    /// The reply. Content in sealed extents is read now.
    ///
    /// `AllocError` if memory runs out.
    #[tactic(auto, using(crate::proofs::EnterLemmas::told_now, crate::proofs::EnterLemmas::told_later))]
    pub(crate) fn fetch(self) -> Result<Reply, AllocError>
        ensures { IfOk result (λ reply. reply ≡ self) }
    {
        match self.reply {
            Ok(reply) => Ok(reply),
            Err(ticket) => fetched(ticket),
        }
    }
}
