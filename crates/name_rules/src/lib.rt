//! Which names of accounts, containers and blobs are good, as a request sends them.
#![tactic(auto)]

mod blob_names;
mod escapes;

pub use blob_names::{NameFault, blob_name, blob_text};
pub use escapes::decoded;
pub use stamp_values::{account_ok, container_ok};
