//! The string to sign of a request, and the header Authorization.
#![tactic(auto)]

mod authorization;
mod headers;
mod laws;
mod query;
mod strings;

pub use authorization::{Authorization, HeaderFault, read_authorization};
pub use laws::arrangements_are_unique;
pub use strings::key_string;
