//! The rows of a range of keys that streams keep, and that are in memory while they are loaded.
#![tactic(auto)]

mod cursor;
mod cutting;
mod faults;
mod key_range;
mod laws;
mod loading;
mod logging;
mod next_row;
mod noting;
mod record_len;
mod repaired;
mod rewriting;
mod row_doubt;
mod sealed;
mod step;
mod stored_rows;
mod sweep;
mod sweep_steps;
mod unloaded;
mod waste;

pub use faults::Ended;
pub use key_range::KeyRange;
pub use laws::{
    a_doubt_is_one_change_or_none, a_load_is_what_the_streams_mean, a_refused_take_changes_nothing,
    a_row_in_doubt_changes_no_container, a_sweep_that_ends_keeps_each_container,
    a_taken_change_is_one_more,
};
pub use partition_stream::TakeFault;
pub use repaired::{NoExtent, Repaired, Unrepaired};
pub use sealed::AllSealed;
pub use step::{Progress, StepLimit};
pub use stored_rows::{StoredRows, SweptAway};
pub use stream_manager::StoredFault;
pub use unloaded::Unloaded;
pub use waste::{ChangeWeight, FoundForChange};
