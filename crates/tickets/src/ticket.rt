//! Replies that are made whole later.
ghost use Rattle.std.specs.Prelude.{◌≡◌, IfErr, IfOk};
ghost use Rattle.extent_seal.specs.declared.sealed.ReadFault.TheVariants.{NoMemory};

use crate::content::LaterContent;
use body_forms::Listing;
use extent_node::Wire;
use extent_seal::ReadFault;
use partition_stream::Part;
use stamp_types::Reply;
use std::alloc::{AllocError, Global};
use std::marker::Model;

// A page of a list whose text is written later, seen as the reply that tells the page.
#[derive(Drop)]
struct LaterPage {
    alloc: Global,
    listing: Listing,
}

impl Model for LaterPage {
    ghost use Rattle.stamp_types.specs.declared.reply.Reply.{Reply};

    ghost Value = { Reply };

    ghost view = { λ p. p.listing };
}

/// A reply that is made whole later: its content is read then, or the text of its list is written then. It owns what it needs for that. So it gives
/// the same reply whatever is written, deleted, sealed or split after it was made.
#[derive(Drop)]
pub struct Ticket {
    later: Result<LaterContent, LaterPage>,
}

impl Model for Ticket {
    ghost use Rattle.stamp_types.specs.declared.reply.Reply.{Reply};
    ghost use Rattle.body_forms.specs.Drafts.{reply_drafted};

    ghost Value = { Reply };

    ghost view = { λ t. reply_drafted t.later };
}

// The reply that tells the page. After a fault the page comes back.
fn written(page: LaterPage) -> Result<Reply, (LaterPage, ReadFault)>
    ensures written { IfOk result (λ reply. reply ≡ page) }
    ensures back { IfErr result (λ e. e ≡ (page, NoMemory)) }
{
    match page.listing.write(page.alloc) {
        Ok(reply) => Ok(reply),
        Err(AllocError) => Err((page, ReadFault::NoMemory)),
    }
}

impl Ticket {
    ghost use Rattle.std.specs.Prelude.{◌≡◌, ◌≢◌, ◌<◌, ◌^◌, ◌++◌, IfErr, IfOk, length};
    ghost use Rattle.extent_seal.specs.Counting.{Grows, all_faults};
    ghost use Rattle.extent_seal.specs.Heard.{AsksAreHeard};
    ghost use Rattle.extent_seal.specs.declared.sealed.ReadFault.TheVariants.{Unreachable};
    ghost use Rattle.tickets.specs.Tickets.{parts_bytes, with_parts};

    /// A ticket for the frame with the bytes of these parts after its body.
    pub fn new(frame: Reply, parts: Vec<Part>) -> Self
        requires { length (frame.body ++ parts_bytes parts.items) < 2 ^ 64 }
        ensures { result ≡ with_parts frame parts.items }
    {
        Self {
            later: Ok(LaterContent::new(frame, parts)),
        }
    }

    /// A ticket for a page of a list whose text is not written yet.
    pub fn of_page(alloc: Global, listing: Listing) -> Self
        ensures { result ≡ listing }
    {
        Self {
            later: Err(LaterPage { alloc, listing }),
        }
    }

    /// The reply. No byte of content is copied, and no stream is looked at.
    ///
    /// After a fault the ticket comes back, and can be fetched again. Unreachable: every node with a copy of some extent was asked, and
    /// answered no. NoMemory: memory ran out, or some bytes can have no further owner.
    #[tactic(auto, using(extent_seal::proofs::HeardLemmas::heard_none))]
    pub fn fetch<W: Wire>(self, wire: &mut W) -> Result<Reply, (Self, ReadFault)>
        ensures fetched { IfOk result (λ reply. reply ≡ self) }
        ensures back { IfErr result (λ e. e.0 ≡ self) }
        ensures unreachable { IfErr result (λ e. e.1 ≡ Unreachable → all_faults (W.faults wire.old) < all_faults (W.faults wire.new)) }
        ensures grown { Grows (W.faults wire.old) (W.faults wire.new) }
        ensures heard { IfErr result (λ e. e.1 ≢ Unreachable → AsksAreHeard (W.calls wire.old) (W.calls wire.new) (W.faults wire.old) (W.faults wire.new)) }
    {
        match self.later {
            Ok(content) => match content.fetch(wire) {
                Ok(reply) => Ok(reply),
                Err((content, fault)) => Err((Self { later: Ok(content) }, fault)),
            },
            Err(page) => match written(page) {
                Ok(reply) => Ok(reply),
                Err((page, fault)) => Err((Self { later: Err(page) }, fault)),
            },
        }
    }
}
