//! Shared access signatures: which query is a token, and which string its maker signed.
#![tactic(auto)]

mod fault;
mod laws;
mod reader;
mod strings;
mod token;

pub use fault::TokenFault;
pub use laws::{
    a_query_is_one_token, one_string_has_one_meaning,
    one_string_of_two_versions_has_an_id_with_a_line_feed, the_reading_is_the_token,
};
pub use reader::{read_token, replaced_headers};
pub use strings::token_string;
pub use token::{Overrides, Resource, Token};
