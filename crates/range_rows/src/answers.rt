//! The answers to requests that were allowed: a frame, and which bytes of which pieces go out with it.
ghost use Rattle.std.specs.Prelude.{◌≡◌, ◌≤◌, [], ◌++◌, IfOk, IsTrue, None, OnOk, Some, false, map};
ghost use Rattle.std.specs.List.{flat_map, list_all};
ghost use Rattle.stamp_values.specs.Limits.{blob_limit};
ghost use Rattle.stamp_values.specs.Operations.{lists_names, writes};
ghost use Rattle.stamp_types.specs.Changes.{are_blocks, blocks_len};
ghost use Rattle.stamp_types.specs.Pieces.{pieces_len};
ghost use Rattle.stamp_types.specs.World.{committed_value};
ghost use Rattle.row_trees.specs.FoundParts.{sizes_found};
ghost use Rattle.range_rows.specs.FoundParts.{pieces_found_after, sizes_found_after};
ghost use Rattle.range_rows.specs.Frames as frames;
ghost use Rattle.range_rows.specs.Judgements.{IsAllowed};
ghost use Rattle.range_rows.specs.NamedBlobs.{IsTarget};
ghost use Rattle.range_rows.specs.ObjectRules.{object_refusal};
ghost use Rattle.range_rows.specs.Replaced.{Replaced};
ghost use Rattle.range_rows.specs.SentContent as content;

use crate::acl_reply::acl_reply;
use crate::answer::{FramedAnswer, Span};
use crate::block_list_reply::list_reply;
use crate::frames::{get_frame, metadata_reply, part_frame, write_frame};
use crate::judged::Allowed;
use crate::ranges::{part_of, range_end};
use crate::replacements::Replacements;
use crate::target::Target;
use body_forms::Draft;
use row_trees::Found;
use stamp_types::{Block, ByteRange, Committed, Items, Moment, Op, Piece, Pieces, Reply, Request};
use std::alloc::{AllocError, Global};

// Puts the whole of each piece after the spans. No byte is copied.
fn push_spans(spans: &mut Vec<Span>, pieces: &[Piece]) -> Result<(), AllocError>
    ensures { OnOk result (spans.new.items ≡ spans.old.items ++ map content.whole_span pieces.now) }
{
    for piece in pieces {
        spans.push(Span {
            piece: piece.clone()?,
            from: 0,
            to: piece.len(),
        })?;
    }
    Ok(())
}

// The spans of the pieces of the blocks, each piece whole, in their order.
fn spans_of(alloc: Global, blocks: &[Block<Pieces>]) -> Result<Vec<Span>, AllocError>
    ensures { IfOk result (λ spans.
        spans.items ≡ flat_map (λ b. map content.whole_span b.content) blocks.now) }
{
    let mut spans = Vec::new(alloc);
    let mut left = blocks;
    while let [first, rest @ ..] = left {
        push_spans(&mut spans, first.content.as_slice())?;
        left = rest;
    }
    Ok(spans)
}

// The answer without content.
fn without_content(alloc: Global, frame: Reply) -> FramedAnswer
    ensures frame { result.frame ≡ frame }
    ensures spans { result.spans ≡ [] }
{
    FramedAnswer {
        frame: Draft::written(frame),
        spans: Items::new(Vec::new(alloc)),
    }
}

// The answer to a Get Blob without a range: all of the blob.
#[tactic(auto, using(crate::proofs::AnswerLemmas::spans_of_blocks, crate::proofs::SpanLemmas::whole_within, crate::proofs::SpanLemmas::spans_len_of_blocks, crate::proofs::PutParts::within_blob))]
fn get_answer(
    alloc: Global,
    blob: &Committed<Pieces>,
    len: u64,
    replaced: &Replacements<'_>,
) -> Result<FramedAnswer, AllocError>
    requires blocks { IsTrue (are_blocks blob.now.blocks) }
    requires len { len ≡ blocks_len blob.now.blocks }
    ensures frame { IfOk result (λ answer.
        answer.frame ≡ frames.get_frame replaced.now (committed_value pieces_len blob.now)) }
    ensures spans { IfOk result (λ answer.
        answer.spans ≡ map content.whole_span (content.blob_content blob.now)) }
    ensures within { IfOk result (λ answer. IsTrue (list_all content.is_within answer.spans)) }
    ensures short { IfOk result (λ answer. content.spans_len answer.spans ≤ blob_limit) }
{
    let frame = get_frame(alloc, blob, len, replaced)?;
    let spans = spans_of(alloc, blob.blocks.as_slice())?;
    Ok(FramedAnswer {
        frame: Draft::written(frame),
        spans: Items::new(spans),
    })
}

// The answer to a Get Blob with a range: the part of the blob that the range asks for.
#[tactic(auto, using(crate::proofs::RangeLemmas::part_within, crate::proofs::SpanLemmas::short_part, crate::proofs::SpanLemmas::len_of_content))]
fn part_answer(
    alloc: Global,
    range: ByteRange,
    blob: &Committed<Pieces>,
    len: u64,
    replaced: &Replacements<'_>,
) -> Result<FramedAnswer, AllocError>
    requires blocks { IsTrue (are_blocks blob.now.blocks) }
    requires len { len ≡ blocks_len blob.now.blocks }
    ensures frame { IfOk result (λ answer.
        answer.frame ≡ frames.part_frame replaced.now range (committed_value pieces_len blob.now)) }
    ensures spans { IfOk result (λ answer.
        answer.spans ≡ content.ranged_spans (Some range) (content.blob_content blob.now)) }
    ensures within { IfOk result (λ answer. IsTrue (list_all content.is_within answer.spans)) }
    ensures short { IfOk result (λ answer. content.spans_len answer.spans ≤ blob_limit) }
{
    let frame = part_frame(alloc, range, blob, len, replaced)?;
    let end = range_end(range, len);
    let spans = part_of(alloc, range.first, end, blob.blocks.as_slice())?;
    Ok(FramedAnswer {
        frame: Draft::written(frame),
        spans: Items::new(spans),
    })
}

// The answer to a Get Blob, with the range or without one.
fn ranged_answer(
    alloc: Global,
    range: Option<ByteRange>,
    blob: &Committed<Pieces>,
    len: u64,
    replaced: &Replacements<'_>,
) -> Result<FramedAnswer, AllocError>
    requires blocks { IsTrue (are_blocks blob.now.blocks) }
    requires len { len ≡ blocks_len blob.now.blocks }
    ensures frame { IfOk result (λ answer.
        answer.frame ≡ frames.ranged_frame replaced.now range (committed_value pieces_len blob.now)) }
    ensures spans { IfOk result (λ answer.
        answer.spans ≡ content.ranged_spans range (content.blob_content blob.now)) }
    ensures within { IfOk result (λ answer. IsTrue (list_all content.is_within answer.spans)) }
    ensures short { IfOk result (λ answer. content.spans_len answer.spans ≤ blob_limit) }
{
    match range {
        Some(range) => part_answer(alloc, range, blob, len, replaced),
        None => get_answer(alloc, blob, len, replaced),
    }
}

// The answer to an allowed request that writes: its ETag is the number of the change that the
// request makes.
#[tactic(auto, using(crate::proofs::FrameLemmas::frame_of_write))]
fn write_answer(
    alloc: Global,
    found: &Found<'_>,
    request: &Request,
    moment: Moment,
) -> Result<FramedAnswer, AllocError>
    requires writes { IsTrue (writes request.now.ask.op) }
    requires allowed { object_refusal (sizes_found found.now) request.now ≡ None }
    ensures frame { (v : Replaced) → IfOk result (λ answer. answer.frame
        ≡ frames.frame v (sizes_found_after found.now request.now moment) request.now) }
    ensures spans { IfOk result (λ answer. answer.spans ≡ []) }
{
    let frame = write_frame(alloc, request, found.count() + 1, moment)?;
    Ok(without_content(alloc, frame))
}

// The answer to an allowed request that reads.
#[tactic(auto, using(crate::proofs::Unrefused::allowed_blob, crate::proofs::Unrefused::allowed_container, crate::proofs::FrameLemmas::frame_of_container_properties, crate::proofs::FrameLemmas::frame_of_acl, crate::proofs::FrameLemmas::frame_of_get_blob, crate::proofs::FrameLemmas::frame_of_blob_properties, crate::proofs::FrameLemmas::frame_of_get_metadata, crate::proofs::FrameLemmas::frame_of_block_list, crate::proofs::FrameLemmas::spans_of_get, crate::proofs::FrameLemmas::spans_of_others))]
fn read_answer(
    alloc: Global,
    target: &Target<'_>,
    request: &Request,
    replaced: &Replacements<'_>,
) -> Result<FramedAnswer, AllocError>
    requires target { IsTarget target.now request.now.ask }
    requires names { lists_names request.now.ask.op ≡ false }
    requires reads { writes request.now.ask.op ≡ false }
    requires allowed { object_refusal (sizes_found target.now.container) request.now ≡ None }
    ensures frame { IfOk result (λ answer.
        answer.frame ≡ frames.frame replaced.now (sizes_found target.now.container) request.now) }
    ensures within { IfOk result (λ answer. IsTrue (list_all content.is_within answer.spans)) }
    ensures short { IfOk result (λ answer. content.spans_len answer.spans ≤ blob_limit) }
    ensures spans { IfOk result (λ answer.
        answer.spans ≡ content.spans target.now.container request.now) }
{
    let ask = request.ask();
    let seen = target.named(ask);
    match (ask.op, target.container.standing(), seen.committed()) {
        (Op::ContainerProperties, Some(standing), _) => {
            let frame = metadata_reply(alloc, &standing.metadata, standing.etag, standing.made)?;
            Ok(without_content(alloc, frame))
        }
        (Op::GetAcl, Some(standing), _) => {
            let frame = acl_reply(alloc, standing)?;
            Ok(without_content(alloc, frame))
        }
        (Op::BlobProperties, _, Some(blob)) => {
            let frame = get_frame(alloc, blob, seen.len(), replaced)?;
            Ok(without_content(alloc, frame))
        }
        (Op::GetMetadata, _, Some(blob)) => {
            let frame = metadata_reply(alloc, &blob.metadata, blob.etag, blob.made)?;
            Ok(without_content(alloc, frame))
        }
        (Op::GetBlob, _, Some(blob)) => {
            let answer = ranged_answer(alloc, ask.args.range, blob, seen.len(), replaced)?;
            Ok(answer)
        }
        (Op::GetBlockList, _, _) => {
            let frame = list_reply(alloc, ask.args.kinds, seen)?;
            Ok(without_content(alloc, frame))
        }
        _ => unreachable!("each other operation writes or lists names"),
    }
}

impl<'a> Allowed<'a> {
    /// The answer to the request at the moment. A list of names has another reply (`list_pages`). If the
    /// request makes a change, the answer is made from the container as it is after that change, which
    /// is not applied yet. The reply to a Get Blob or a Get Blob Properties has the replaced headers.
    ///
    /// The answer has shares of the content, of which no byte is copied, or the content's places in
    /// streams: whoever sends the answer reads the content there.
    ///
    /// `AllocError` if memory runs out for the headers or the list of spans, or if the content can
    /// have no further owner.
    #[tactic(auto, using(crate::proofs::FrameLemmas::spans_of_write, crate::proofs::FrameLemmas::sizes_after_read, crate::proofs::FrameLemmas::pieces_after_read))]
    pub fn reply(
        &self,
        alloc: Global,
        request: &Request,
        moment: Moment,
        replaced: &Replacements<'_>,
    ) -> Result<FramedAnswer, AllocError>
        requires allowed { IsAllowed self.now request.now }
        requires names { lists_names request.now.ask.op ≡ false }
        ensures frame { IfOk result (λ answer.
            answer.frame ≡ frames.frame replaced.now (sizes_found_after self.now.target.container request.now moment) request.now) }
        ensures within { IfOk result (λ answer. IsTrue (list_all content.is_within answer.spans)) }
        ensures short { IfOk result (λ answer. content.spans_len answer.spans ≤ blob_limit) }
        ensures spans { IfOk result (λ answer.
            answer.spans ≡ content.spans (pieces_found_after self.now.target.container request.now moment) request.now) }
    {
        if request.ask().op.writes() {
            let answer = write_answer(alloc, &self.target.container, request, moment)?;
            return Ok(answer);
        }
        let answer = read_answer(alloc, &self.target, request, replaced)?;
        Ok(answer)
    }
}
