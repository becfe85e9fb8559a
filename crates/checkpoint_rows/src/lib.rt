//! The checkpoint of a partition: the rows of all its containers take the place of the log and of the older rows.
#![tactic(auto)]

mod checkpoint;
mod laws;
mod row_records;
mod writing;

pub use checkpoint::checkpoint_rows;
pub use laws::{the_rows_of_a_world_make_it_again, what_streams_mean_can_be_written};
pub use row_records::{blob_row, container_row};
