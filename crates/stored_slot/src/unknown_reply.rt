//! The reply to a change whose outcome is unknown, made before the change is put.
ghost use Rattle.std.specs.Prelude.{◌≡◌, IfOk};
ghost use Rattle.stored_slot.specs.Served as served;

use crate::answering::unknown;
use stamp_types::Reply;
use std::alloc::{AllocError, Global};
use std::marker::Model;

/// The reply to a change whose outcome is unknown. A slot makes it before it puts a change, since lack of memory after the first put would
/// hide a doubt. If the outcome of the change is known, the slot keeps the reply for its next change.
#[derive(Drop)]
pub(crate) struct UnknownReply {
    reply: Reply,
}

impl Model for UnknownReply {
    ghost use Rattle.std.specs.Prelude.{◌≡◌};
    ghost use Rattle.stamp_types.specs.declared.reply.Reply.{Reply};
    ghost use Rattle.stored_slot.specs.Served.{unknown};

    ghost Value = { Reply };

    ghost view = { λ u. u.reply };

    ghost invariant = { λ u. u.reply ≡ unknown };
}

// A new reply of this kind.
fn make(alloc: Global) -> Result<UnknownReply, AllocError> {
    let reply = unknown(alloc)?;
    Ok(UnknownReply { reply })
}

impl UnknownReply {
    /// The reply that the slot keeps, or a new one, if it keeps no such reply.
    ///
    /// `AllocError` if memory runs out for a new reply.
    pub(crate) fn take_or_make(
        kept: &mut Option<UnknownReply>,
        alloc: Global,
    ) -> Result<Self, AllocError> {
        match kept.take() {
            Some(reply) => Ok(reply),
            None => make(alloc),
        }
    }

    /// Gives the reply back to the slot, since the outcome of the change is known.
    pub(crate) fn keep(self, kept: &mut Option<UnknownReply>) {
        *kept = Some(self);
    }

    /// The reply. The slot has it no more.
    pub(crate) fn reply(self) -> Reply
        ensures { result ≡ served.unknown }
    {
        self.reply
    }
}
