//! What a partition holds in memory of its containers and their blobs, and which changes it makes.
#![tactic(auto)]

mod acts;
mod block_acts;
mod change_fits;
mod checkpoint_laws;
mod container;
mod found;
mod found_blob;
mod found_lists;
mod new_row;
mod row;
mod rows;
mod sweep_laws;
mod walks;

pub use checkpoint_laws::a_checkpoint_makes_its_container_again;
pub use found::Found;
pub use found_blob::FoundBlob;
pub use new_row::NewRow;
pub use rows::Rows;
pub use sweep_laws::{a_container_stays_halfway, what_is_all_new_is_the_container};
pub use walks::{BlobWalk, ContainerWalk};
