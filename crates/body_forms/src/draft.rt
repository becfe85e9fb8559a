//! Replies whose text may have to be written.
ghost use Rattle.std.specs.Prelude.{◌≡◌, IfOk};
ghost use Rattle.body_forms.specs.Drafts.{reply_drafted};

use crate::listing::Listing;
use stamp_types::Reply;
use std::alloc::{AllocError, Global};
use std::marker::Model;

/// A reply that is written, or a page of a list whose text is written later. Contracts see it as the reply.
#[derive(Drop)]
pub struct Draft {
    reply: Result<Reply, Listing>,
}

impl Model for Draft {
    ghost use Rattle.stamp_types.specs.declared.reply.Reply.{Reply};
    ghost use Rattle.body_forms.specs.Drafts.{reply_drafted};

    ghost Value = { Reply };

    ghost view = { λ d. reply_drafted d.reply };
}

impl Draft {
    /// A reply that is written.
    pub fn written(reply: Reply) -> Self
        ensures { result ≡ reply }
    {
        Self { reply: Ok(reply) }
    }

    /// A page whose text is written later.
    pub fn listed(listing: Listing) -> Self
        ensures { result ≡ listing }
    {
        Self {
            reply: Err(listing),
        }
    }

    /// The reply, or the page that has to be written.
    pub fn into_parts(self) -> Result<Reply, Listing>
        ensures { reply_drafted result ≡ self }
    {
        self.reply
    }

    /// The reply. The text of a list is written now; no other reply takes memory.
    ///
    /// `AllocError` if memory runs out.
    pub fn write(self, alloc: Global) -> Result<Reply, AllocError>
        ensures { IfOk result (λ reply. reply ≡ self) }
    {
        match self.reply {
            Ok(reply) => Ok(reply),
            Err(listing) => listing.write(alloc),
        }
    }
}
