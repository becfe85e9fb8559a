//! What a request was answered under the lock of a slot, with its entry of the audit book.
ghost use Rattle.std.specs.Prelude.{◌≡◌, IfOk, IfSome, None, Some};

use crate::replied::Replied;
use policy_book::Entry;
use stamp_types::Reply;
use std::alloc::AllocError;

/// What a request was answered, and its entry of the audit book: `None` if no entry was asked for or made.
#[derive(Drop)]
pub(crate) struct Told {
    pub(crate) replied: Replied,
    pub(crate) entry: Option<Entry>,
}

// The entry, if the reply lets the request in.
fn entry_if(reply: &Reply, entry: Option<Entry>) -> Option<Entry>
    ensures { IfSome result (λ e. (reply.now.rule ≡ None) × (entry ≡ Some e)) }
{
    match reply.rule {
        None => entry,
        Some(_) => None,
    }
}

impl Told {
    /// The reply, and the entry if the reply refuses nothing. Content in sealed extents is read now.
    ///
    /// `AllocError` if memory runs out. Then the entry is dropped.
    pub(crate) fn fetch(self) -> Result<(Reply, Option<Entry>), AllocError>
        ensures reply { IfOk result (λ told. told.0 ≡ self.replied) }
        ensures entry { IfOk result (λ told. IfSome told.1 (λ e. (told.0.rule ≡ None) × (self.entry ≡ Some e))) }
    {
        let Told { replied, entry } = self;
        let Ok(reply) = replied.fetch() else {
            drop(entry);
            return Err(AllocError);
        };
        let entry = entry_if(&reply, entry);
        Ok((reply, entry))
    }
}
