//! Bodies in XML: block lists, stored policies and lists of names, read and written.
#![tactic(auto)]

mod access_policy;
mod block_list;
mod body_fault;
mod draft;
mod elements;
mod ids;
mod laws;
mod list_entries;
mod listing;
mod policies;
mod sent_policies;
mod written_list;
mod written_pages;
mod written_policies;

pub use block_list::read_block_list;
pub use body_fault::BodyFault;
pub use draft::Draft;
pub use laws::{
    a_body_is_read_in_one_way, a_written_list_reads_as_its_entries,
    block_lists_are_read_as_the_grammar_says, policies_are_read_as_the_grammar_says,
    policies_are_read_as_they_were_written, policies_are_read_in_one_way,
    the_reading_is_the_grammar, the_reading_of_policies_is_the_grammar,
};
pub use list_entries::{BlobEntry, ContainerEntry, LentBlob, ListedBlob, ListedContainer};
pub use listing::{Listing, page_asked};
pub use policies::read_policies;
pub use stamp_types::write_error;
pub use written_list::{ListedBlock, write_block_list};
pub use written_pages::{write_blob_list, write_container_list};
pub use written_policies::write_policies;
