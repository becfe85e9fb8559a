//! What a served request is answered: its reply now, or a ticket for its reply.
ghost use Rattle.std.specs.Prelude.{◌≡◌, ◌≢◌, ◌+◌, ◌<◌, ◌^◌, ◌++◌, ◌∷◌, [], All, Err, IfOk, IsTrue, OnErr, OnOk, length, map, true};
ghost use Rattle.std.specs.List.{flat_map, list_all};
ghost use Rattle.extent_seal.specs.Counting.{Grows, all_faults};
ghost use Rattle.extent_seal.specs.Heard.{AsksAreHeard};
ghost use Rattle.extent_seal.specs.declared.sealed.ReadFault.TheVariants as read_fault;
ghost use Rattle.stream_manager.specs.Streams.{laid};
ghost use Rattle.partition_stream.specs.Contents.{bytes_at};
ghost use Rattle.range_rows.specs.SentContent.{AreShort, is_within, span_bytes, with_content};
ghost use Rattle.tickets.specs.Answers.{IsAnswer, IsAnswerIf, IsSpanStored, are_in_last, kept_span};
ghost use Rattle.tickets.specs.Tickets.{are_read, parts_bytes, with_parts};

use crate::ticket::Ticket;
use body_forms::{Draft, Listing};
use extent_node::Wire;
use extent_seal::ReadFault;
use partition_stream::{Part, Streams};
use range_rows::Span;
use stamp_types::{Reply, Shares};
use std::alloc::{AllocError, Global};

/// What a request that was served is answered.
#[derive(Drop)]
pub enum Answer {
    /// The reply. Each byte of its content was read while the request was served.
    Done(Reply),
    /// The reply is fetched later. Some of its content is in sealed extents, or it is a list whose text is written then.
    Later(Ticket),
    /// Memory ran out.
    NoMemory,
}

/// Every node with a copy of some content was asked, and answered no.
#[derive(Clone, Copy, Debug, PartialEq, Eq)]
pub struct Unreachable;

// The part of a piece that a span asks for.
#[tactic(auto, using(crate::proofs::PartLemmas::same_part))]
fn part_of_span<W: Wire>(
    streams: &mut Streams,
    span: &Span,
    wire: &mut W,
) -> Result<Part, ReadFault>
    requires stored { IsSpanStored (laid streams.old.blobs) span.now }
    requires within { IsTrue (is_within span.now) }
    ensures part { IfOk result (λ p. p ≡ kept_span streams.old.blobs span.now) }
    ensures same { streams.new ≡ streams.old }
    ensures unreachable { result ≡ Err read_fault.Unreachable → all_faults (W.faults wire.old) < all_faults (W.faults wire.new) }
    ensures grown { Grows (W.faults wire.old) (W.faults wire.new) }
    ensures heard { result ≢ Err read_fault.Unreachable → AsksAreHeard (W.calls wire.old) (W.calls wire.new) (W.faults wire.old) (W.faults wire.new) }
{
    streams.part(&span.piece, span.from as usize, span.to as usize, wire)
}

// Puts a part after the others.
fn push(parts: &mut Vec<Part>, part: Part) -> Result<(), ReadFault>
    ensures pushed { OnOk result (parts.new.items ≡ parts.old.items ++ part ∷ []) }
    ensures reached { result ≢ Err read_fault.Unreachable }
{
    match parts.push(part) {
        Ok(()) => Ok(()),
        Err(_) => Err(ReadFault::NoMemory),
    }
}

// Puts the part of a piece that a span asks for after the others.
fn keep_span<W: Wire>(
    parts: &mut Vec<Part>,
    streams: &mut Streams,
    span: &Span,
    wire: &mut W,
) -> Result<(), ReadFault>
    requires stored { IsSpanStored (laid streams.old.blobs) span.now }
    requires within { IsTrue (is_within span.now) }
    ensures kept { OnOk result (parts.new.items ≡ parts.old.items ++ kept_span streams.old.blobs span.now ∷ []) }
    ensures same { streams.new ≡ streams.old }
    ensures unreachable { result ≡ Err read_fault.Unreachable → all_faults (W.faults wire.old) < all_faults (W.faults wire.new) }
    ensures grown { Grows (W.faults wire.old) (W.faults wire.new) }
    ensures heard { result ≢ Err read_fault.Unreachable → AsksAreHeard (W.calls wire.old) (W.calls wire.new) (W.faults wire.old) (W.faults wire.new) }
{
    let part = part_of_span(streams, span, wire)?;
    push(parts, part)?;
    Ok(())
}

// The parts of the pieces that spans ask for, in their order.
#[tactic(auto, using(extent_seal::proofs::HeardLemmas::heard_none))]
fn parts_of<W: Wire>(
    alloc: Global,
    streams: &mut Streams,
    spans: &[Span],
    wire: &mut W,
) -> Result<Vec<Part>, ReadFault>
    requires stored { All (IsSpanStored (laid streams.old.blobs)) spans.now }
    requires within { IsTrue (list_all is_within spans.now) }
    ensures parts { IfOk result (λ ps. ps.items ≡ map (kept_span streams.old.blobs) spans.now) }
    ensures same { streams.new ≡ streams.old }
    ensures unreachable { result ≡ Err read_fault.Unreachable → all_faults (W.faults wire.old) < all_faults (W.faults wire.new) }
    ensures grown { Grows (W.faults wire.old) (W.faults wire.new) }
    ensures heard { result ≢ Err read_fault.Unreachable → AsksAreHeard (W.calls wire.old) (W.calls wire.new) (W.faults wire.old) (W.faults wire.new) }
{
    let mut parts = Vec::new(alloc);
    for span in spans {
        keep_span(&mut parts, streams, span, wire)?;
    }
    Ok(parts)
}

// Whether each part was read already.
fn are_read(parts: &[Part]) -> bool
    ensures { result ≡ are_read parts.now }
{
    let mut left = parts;
    while let [first, rest @ ..] = left {
        if first.bytes().is_none() {
            return false;
        }
        left = rest;
    }
    true
}

// Puts the bytes of a part that was read after the body. No byte is copied.
fn push_read(body: &mut Shares, part: &Part) -> Result<(), AllocError>
    requires read { part.now.is_read ≡ true }
    requires short { length (body.old ++ part.now.bytes) < 2 ^ 64 }
    ensures { OnOk result (body.new ≡ body.old ++ part.now.bytes) }
{
    match part.bytes() {
        Some(bytes) => {
            body.push(bytes.share()?)?;
            Ok(())
        }
        None => unreachable!("the part was read"),
    }
}

// The bytes of the body, and then those of the parts, each of which was read.
fn body_of(body: &Shares, parts: &[Part]) -> Result<Shares, AllocError>
    requires read { are_read parts.now ≡ true }
    requires short { length (body.now ++ parts_bytes parts.now) < 2 ^ 64 }
    ensures { IfOk result (λ s. s ≡ body.now ++ parts_bytes parts.now) }
{
    let mut whole = body.clone()?;
    let mut left = parts;
    while let [first, rest @ ..] = left {
        push_read(&mut whole, first)?;
        left = rest;
    }
    Ok(whole)
}

// The answer of a frame with these parts after its body.
fn answer_with(frame: Reply, parts: Vec<Part>) -> Answer
    requires { length (frame.body ++ parts_bytes parts.items) < 2 ^ 64 }
    ensures { IsAnswer result (are_read parts.items) (with_parts frame parts.items) }
{
    if !are_read(&parts) {
        return Answer::Later(Ticket::new(frame, parts));
    }
    match body_of(&frame.body, &parts) {
        Ok(body) => Answer::Done(Reply { body, ..frame }),
        Err(AllocError) => Answer::NoMemory,
    }
}

// The answer of a written frame with the content of these spans after its body.
#[tactic(auto, using(crate::proofs::PartLemmas::kept_bytes, crate::proofs::PartLemmas::kept_read, crate::proofs::PartLemmas::short_answer))]
fn content_answer<W: Wire>(
    alloc: Global,
    streams: &mut Streams,
    frame: Reply,
    spans: &[Span],
    wire: &mut W,
) -> Result<Answer, Unreachable>
    requires stored { All (IsSpanStored (laid streams.old.blobs)) spans.now }
    requires within { IsTrue (list_all is_within spans.now) }
    requires short { AreShort frame.body spans.now }
    ensures answered { IfOk result (λ a. IsAnswer a (are_in_last streams.old.blobs spans.now)
        (with_content frame (flat_map (span_bytes (bytes_at (laid streams.old.blobs))) spans.now))) }
    ensures same { streams.new ≡ streams.old }
    ensures unreachable { OnErr result (all_faults (W.faults wire.old) < all_faults (W.faults wire.new)) }
    ensures grown { Grows (W.faults wire.old) (W.faults wire.new) }
    ensures heard { OnOk result (AsksAreHeard (W.calls wire.old) (W.calls wire.new) (W.faults wire.old) (W.faults wire.new)) }
{
    // The body of the frame fits in memory.
    let _held = frame.body.len();
    match parts_of(alloc, streams, spans, wire) {
        Ok(parts) => Ok(answer_with(frame, parts)),
        Err(ReadFault::Unreachable) => {
            drop(frame);
            Err(Unreachable)
        }
        Err(ReadFault::NoMemory) => {
            drop(frame);
            Ok(Answer::NoMemory)
        }
    }
}

// The answer of a page of a list, whose text is written now, with the content of these spans after its body.
#[tactic(auto, using(extent_seal::proofs::HeardLemmas::heard_none))]
fn page_answer<W: Wire>(
    alloc: Global,
    streams: &mut Streams,
    listing: Listing,
    spans: &[Span],
    wire: &mut W,
) -> Result<Answer, Unreachable>
    requires stored { All (IsSpanStored (laid streams.old.blobs)) spans.now }
    requires within { IsTrue (list_all is_within spans.now) }
    requires short { AreShort listing.body spans.now }
    ensures answered { IfOk result (λ a. IsAnswer a (are_in_last streams.old.blobs spans.now)
        (with_content listing (flat_map (span_bytes (bytes_at (laid streams.old.blobs))) spans.now))) }
    ensures same { streams.new ≡ streams.old }
    ensures unreachable { OnErr result (all_faults (W.faults wire.old) < all_faults (W.faults wire.new)) }
    ensures grown { Grows (W.faults wire.old) (W.faults wire.new) }
    ensures heard { OnOk result (AsksAreHeard (W.calls wire.old) (W.calls wire.new) (W.faults wire.old) (W.faults wire.new)) }
{
    match listing.write(alloc) {
        Ok(frame) => content_answer(alloc, streams, frame, spans, wire),
        Err(AllocError) => Ok(Answer::NoMemory),
    }
}

/// The answer of a frame with the content of these spans after its body. No byte of content is copied.
///
/// It is Done if each span is in the last extent of the data: its bytes are read now. If lists are gathered, a list is Later: its text is written
/// when its ticket is fetched. Unreachable: every node was asked for a block of the last extent, and answered no.
#[tactic(auto, using(crate::proofs::PageLemmas::answer_if, crate::proofs::PageLemmas::page_later, extent_seal::proofs::HeardLemmas::heard_none))]
pub fn make_answer<W: Wire>(
    alloc: Global,
    streams: &mut Streams,
    frame: Draft,
    spans: &[Span],
    gathers: bool,
    wire: &mut W,
) -> Result<Answer, Unreachable>
    requires stored { All (IsSpanStored (laid streams.old.blobs)) spans.now }
    requires within { IsTrue (list_all is_within spans.now) }
    requires short { AreShort frame.body spans.now }
    ensures answered { IfOk result (λ a. IsAnswerIf gathers a (are_in_last streams.old.blobs spans.now)
        (with_content frame (flat_map (span_bytes (bytes_at (laid streams.old.blobs))) spans.now))) }
    ensures same { streams.new ≡ streams.old }
    ensures unreachable { OnErr result (all_faults (W.faults wire.old) < all_faults (W.faults wire.new)) }
    ensures grown { Grows (W.faults wire.old) (W.faults wire.new) }
    ensures heard { OnOk result (AsksAreHeard (W.calls wire.old) (W.calls wire.new) (W.faults wire.old) (W.faults wire.new)) }
{
    match frame.into_parts() {
        Ok(frame) => content_answer(alloc, streams, frame, spans, wire),
        Err(listing) => {
            if gathers && spans.is_empty() {
                return Ok(Answer::Later(Ticket::of_page(alloc, listing)));
            }
            page_answer(alloc, streams, listing, spans, wire)
        }
    }
}
