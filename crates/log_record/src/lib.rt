//! Changes of containers as bytes and back: the records of a log, of which version 2 is written and versions 1 and 2 are read.
#![tactic(auto)]

mod access;
mod acts;
mod blob_acts;
mod blocks;
mod container_acts;
mod content;
mod field;
mod kept;
mod laws;
mod left;
mod lists;
mod record;
mod record_fault;
mod rows;
mod values;

pub use laws::{a_placed_record_fits_a_block, a_record_says_one_change, no_record_begins_another};
pub use record::{read_change, write_change};
pub use record_fault::RecordFault;
