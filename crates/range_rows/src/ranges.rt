//! The part of a blob that a range asks for.
ghost use Rattle.std.specs.Prelude.{◌≡◌, ◌++◌, ◌<◌, ◌^◌, ◌≤◌, IfOk, OnOk};
ghost use Rattle.std.specs.List.{flat_map};
ghost use Rattle.range_rows.specs.Ranges as ranges;

use crate::answer::Span;
use stamp_types::{Block, ByteRange, Piece, Pieces, SentRange};
use std::alloc::{AllocError, Global};

/// The bytes of a blob of `len` bytes that the range asks for end before this byte. A last byte
/// that the blob does not have is cut to the blob's last byte.
pub(crate) fn range_end(range: ByteRange, len: u64) -> u64
    ensures { result ≡ ranges.range_end range len }
{
    match range.last {
        Some(last) if last < len => last + 1,
        _ => len,
    }
}

/// The first and the last byte that go out, and how many bytes the blob has.
pub(crate) fn sent_range(range: ByteRange, len: u64) -> SentRange
    ensures { result ≡ ranges.sent_range range len }
{
    SentRange {
        first: range.first,
        last: range_end(range, len).saturating_sub(1),
        total: len,
    }
}

// Puts the bytes of a piece from `from` up to but not including `end` after the spans, if the piece
// has one of them.
fn push_piece(spans: &mut Vec<Span>, from: u64, end: u64, piece: &Piece) -> Result<(), AllocError>
    ensures { OnOk result
        (spans.new.items ≡ spans.old.items ++ ranges.piece_spans from end piece.now) }
{
    let to = end.min(piece.len());
    if from < to {
        spans.push(Span {
            piece: piece.clone()?,
            from,
            to,
        })?;
    }
    Ok(())
}

// The same bytes of joined pieces. No byte is copied.
fn push_part(spans: &mut Vec<Span>, from: u64, end: u64, pieces: &[Piece]) -> Result<(), AllocError>
    ensures { OnOk result
        (spans.new.items ≡ spans.old.items ++ ranges.part_spans from end pieces.now) }
{
    let mut from = from;
    let mut end = end;
    let mut left = pieces;
    while let [first, rest @ ..] = left {
        push_piece(spans, from, end, first)?;
        from = from.saturating_sub(first.len());
        end = end.saturating_sub(first.len());
        left = rest;
    }
    Ok(())
}

// The same bytes of the content of a block. The pieces of a block that ends before the first of
// these bytes are not looked at.
fn push_block(
    spans: &mut Vec<Span>,
    from: u64,
    end: u64,
    block: &Block<Pieces>,
) -> Result<(), AllocError>
    ensures { OnOk result
        (spans.new.items ≡ spans.old.items ++ ranges.part_spans from end block.now.content) }
{
    if from < block.content.len() {
        push_part(spans, from, end, block.content.as_slice())?;
    }
    Ok(())
}

/// The spans of the bytes of the blocks from `from` up to but not including `end`, in their order.
/// No block after the last of these bytes is looked at.
#[tactic(auto, using(crate::proofs::RangeLemmas::spans_of_joined))]
pub(crate) fn part_of(
    alloc: Global,
    from: u64,
    end: u64,
    blocks: &[Block<Pieces>],
) -> Result<Vec<Span>, AllocError>
    ensures { IfOk result (λ spans.
        spans.items ≡ ranges.part_spans from end (flat_map (λ b. b.content) blocks.now)) }
{
    let mut spans = Vec::new(alloc);
    let mut from = from;
    let mut end = end;
    let mut left = blocks;
    while let [first, rest @ ..] = left {
        if end == 0 {
            return Ok(spans);
        }
        push_block(&mut spans, from, end, first)?;
        from = from.saturating_sub(first.content.len());
        end = end.saturating_sub(first.content.len());
        left = rest;
    }
    Ok(spans)
}
