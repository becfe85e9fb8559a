//! One blob of blocks: what readers see of it, the blocks that wait for a commit, and its changes.
#![tactic(auto)]

mod blob_row;
mod block_fault;
mod block_room;
mod commits;
mod committed_blocks;
mod content_by_id;
mod first_blocks;
mod found_blocks;
mod laws;
mod lookups;
mod next_blocks;
mod resolved;
mod taken_lists;
mod uncommitted;
mod wanted_lists;
mod whole_lists;

pub use blob_row::BlobRow;
pub use block_fault::BlockFault;
pub use block_room::BlockRoom;
pub use found_blocks::{FoundBlocks, ListContent};
pub use laws::{a_commit_is_its_list, a_container_changes_by_its_blob, a_row_makes_its_blob_again};
pub use resolved::Resolved;
pub use wanted_lists::entries_from;
