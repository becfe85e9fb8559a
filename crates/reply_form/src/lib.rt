//! Replies as bytes.
#![tactic(auto)]

mod fixed_replies;
mod header_line;
mod reply_bytes;

pub use fixed_replies::{interim_reply, out_of_memory_reply};
pub use reply_bytes::{sends_body, write_head, write_reply};
