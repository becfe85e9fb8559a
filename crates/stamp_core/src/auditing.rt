//! The entry of the audit book that a core tells with its reply.
ghost use Rattle.std.specs.Prelude.{◌≡◌, IfSome, Some};
ghost use Rattle.stamp_core.specs.CoreAudits.{LetsIn};

use policy_book::Entry;
use stamp_types::{Reply, Rule};
use std::alloc::AllocError;

/// What a request was answered, and its entry of the audit book.
#[derive(Drop)]
pub struct AuditedReply {
    /// `AllocError` if memory ran out.
    pub reply: Result<Reply, AllocError>,
    /// `None` if the request was not let in, if it names no container, or if memory ran out for the entry.
    pub entry: Option<Entry>,
}

/// The entry, if the reply lets the request in. A ticket whose content is out of reach is answered N1, and leaves no entry.
pub(crate) fn entry_told(reply: &Result<Reply, AllocError>, entry: Option<Entry>) -> Option<Entry>
    ensures { IfSome result (λ e. LetsIn reply.now × (entry ≡ Some e)) }
{
    match reply {
        Ok(reply) => match reply.rule {
            None | Some(Rule::N2) => entry,
            Some(_) => None,
        },
        Err(AllocError) => None,
    }
}
