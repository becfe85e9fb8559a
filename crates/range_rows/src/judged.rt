//! What judging a request gives.
ghost use Rattle.std.specs.Prelude.{◌≡◌};
ghost use Rattle.range_rows.specs.Judgements.{refusal_in};

use crate::target::Target;
use block_blobs::Resolved;
use stamp_types::Refusal;

/// What the object says of a request.
#[derive(Drop)]
pub enum ObjectVerdict<'a> {
    /// A rule of the object refuses the request.
    Refused(Refusal),
    /// No rule of the object refuses the request.
    Allowed(Allowed<'a>),
}

/// What was found for a request that no rule of the object refuses. The request's reply and its change
/// are made from this.
#[derive(Drop)]
pub struct Allowed<'a> {
    pub target: Target<'a>,
    /// Where each block is found that a Put Block List wants, in their order, and the blocks. For another
    /// request nothing is found.
    pub found: Resolved,
}

impl<'a> ObjectVerdict<'a> {
    /// The refusal, if the request is refused.
    pub fn refusal(&self) -> Option<Refusal>
        ensures { result ≡ refusal_in self.now }
    {
        match self {
            Self::Refused(refusal) => Some(*refusal),
            Self::Allowed(_) => None,
        }
    }
}
