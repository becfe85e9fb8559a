//! Replies that are made whole later, without the streams and the rows that they are made of.
#![tactic(auto)]

mod answer;
mod content;
mod laws;
mod ticket;

pub use answer::{Answer, Unreachable, make_answer};
pub use laws::{a_ticket_is_the_reply_of_its_serve, what_goes_out_is_stored};
pub use partition_stream::Part;
pub use ticket::Ticket;
