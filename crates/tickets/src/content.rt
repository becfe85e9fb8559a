//! Content that is read later, without the streams that keep it.
ghost use Rattle.std.specs.Prelude.{◌≡◌, ◌≢◌, ◌<◌, ◌^◌, ◌++◌, Err, IfErr, IfOk, length};
ghost use Rattle.extent_seal.specs.Counting.{Grows, all_faults};
ghost use Rattle.extent_seal.specs.Heard.{AsksAreHeard};
ghost use Rattle.extent_seal.specs.declared.sealed.ReadFault.TheVariants.{Unreachable};
ghost use Rattle.tickets.specs.Tickets.{parts_bytes, with_parts};

use extent_node::Wire;
use extent_seal::ReadFault;
use partition_stream::Part;
use stamp_types::{Reply, Shares};
use std::alloc::AllocError;
use std::marker::Model;

/// A frame, and the parts of the content that come after its body, seen as the reply that they make. It owns what it reads, and keeps each
/// extent in memory that has a part of its content.
#[derive(Drop)]
pub(crate) struct LaterContent {
    frame: Reply,
    parts: Vec<Part>,
}

impl Model for LaterContent {
    ghost use Rattle.std.specs.Prelude.{◌<◌, ◌^◌, ◌++◌, length};
    ghost use Rattle.stamp_types.specs.declared.reply.Reply.{Reply};
    ghost use Rattle.tickets.specs.Tickets.{parts_bytes, with_parts};

    ghost Value = { Reply };

    ghost view = { λ t. with_parts t.frame t.parts.items };

    ghost invariant = { λ t. length (t.frame.body ++ parts_bytes t.parts.items) < 2 ^ 64 };
}

// Puts the bytes of a part after the body. No byte is copied.
fn push_part<W: Wire>(body: &mut Shares, part: &Part, wire: &mut W) -> Result<(), ReadFault>
    requires { length (body.old ++ part.now.bytes) < 2 ^ 64 }
    ensures pushed { IfOk result (λ _. body.new ≡ body.old ++ part.now.bytes) }
    ensures unreachable { result ≡ Err Unreachable → all_faults (W.faults wire.old) < all_faults (W.faults wire.new) }
    ensures grown { Grows (W.faults wire.old) (W.faults wire.new) }
    ensures heard { result ≢ Err Unreachable → AsksAreHeard (W.calls wire.old) (W.calls wire.new) (W.faults wire.old) (W.faults wire.new) }
{
    let bytes = part.fetch(wire)?;
    match body.push(bytes) {
        Ok(()) => Ok(()),
        Err(AllocError) => Err(ReadFault::NoMemory),
    }
}

// The same bytes, with owners of their own. No byte is copied.
fn copy_of(body: &Shares) -> Result<Shares, AllocError>
    ensures { IfOk result (λ copy. copy ≡ body.now) }
{
    body.clone()
}

// The bytes of the body, and then those of the parts.
#[tactic(auto, using(extent_seal::proofs::HeardLemmas::heard_none))]
fn body_with<W: Wire>(body: &Shares, parts: &[Part], wire: &mut W) -> Result<Shares, ReadFault>
    requires { length (body.now ++ parts_bytes parts.now) < 2 ^ 64 }
    ensures read { IfOk result (λ s. s ≡ body.now ++ parts_bytes parts.now) }
    ensures unreachable { result ≡ Err Unreachable → all_faults (W.faults wire.old) < all_faults (W.faults wire.new) }
    ensures grown { Grows (W.faults wire.old) (W.faults wire.new) }
    ensures heard { result ≢ Err Unreachable → AsksAreHeard (W.calls wire.old) (W.calls wire.new) (W.faults wire.old) (W.faults wire.new) }
{
    let mut whole = match copy_of(body) {
        Ok(copy) => copy,
        Err(AllocError) => return Err(ReadFault::NoMemory),
    };
    for part in parts {
        push_part(&mut whole, part, wire)?;
    }
    Ok(whole)
}

impl LaterContent {
    ghost use Rattle.std.specs.Prelude.{◌≡◌, ◌≢◌, ◌<◌, ◌^◌, ◌++◌, IfErr, IfOk, length};
    ghost use Rattle.extent_seal.specs.Counting.{Grows, all_faults};
    ghost use Rattle.extent_seal.specs.Heard.{AsksAreHeard};
    ghost use Rattle.extent_seal.specs.declared.sealed.ReadFault.TheVariants.{Unreachable};
    ghost use Rattle.tickets.specs.Tickets.{parts_bytes, with_parts};

    /// The frame with the bytes of these parts after its body.
    pub(crate) fn new(frame: Reply, parts: Vec<Part>) -> Self
        requires { length (frame.body ++ parts_bytes parts.items) < 2 ^ 64 }
        ensures { result ≡ with_parts frame parts.items }
    {
        Self { frame, parts }
    }

    /// The reply, as `Ticket::fetch` gives it.
    pub(crate) fn fetch<W: Wire>(self, wire: &mut W) -> Result<Reply, (Self, ReadFault)>
        ensures fetched { IfOk result (λ reply. reply ≡ self) }
        ensures back { IfErr result (λ e. e.0 ≡ self) }
        ensures unreachable { IfErr result (λ e. e.1 ≡ Unreachable → all_faults (W.faults wire.old) < all_faults (W.faults wire.new)) }
        ensures grown { Grows (W.faults wire.old) (W.faults wire.new) }
        ensures heard { IfErr result (λ e. e.1 ≢ Unreachable → AsksAreHeard (W.calls wire.old) (W.calls wire.new) (W.faults wire.old) (W.faults wire.new)) }
    {
        match body_with(&self.frame.body, &self.parts, wire) {
            Ok(body) => Ok(Reply { body, ..self.frame }),
            Err(fault) => Err((self, fault)),
        }
    }
}
