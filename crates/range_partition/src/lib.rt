//! What is decided on a request, from the rows of its partition.
#![tactic(auto)]

mod framed;
mod overrides;

pub use framed::{FramedDecision, JudgedRequest, decide_frame};
