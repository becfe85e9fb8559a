//! The answer to a request.

use body_forms::Draft;
use stamp_types::{Items, Piece};

/// The bytes of a piece from `from` up to but not including `to`.
#[derive(Drop)]
pub struct Span {
    pub piece: Piece,
    pub from: u64,
    pub to: u64,
}

/// The reply to a request, without the content that goes out with it. The spans give that content,
/// in their order. The frame's length counts the content. The frame of a list may have to be written.
#[derive(Drop)]
pub struct FramedAnswer {
    pub frame: Draft,
    pub spans: Items<Span>,
}
