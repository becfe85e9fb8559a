//! The core: slots over streams, which serve requests by the spans of their keys and make the steps of the machine.
#![tactic(auto)]

mod auditing;
mod care;
mod cores;
mod open_tickets;
mod rotating;
mod serving;
mod splitting;
mod sweeping;
mod telling;
mod tended;
mod tending;

pub use auditing::AuditedReply;
pub use care::CoreCare;
pub use cores::Core;
pub use tended::{Tended, Untended};
