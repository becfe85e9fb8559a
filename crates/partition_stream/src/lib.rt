//! The three streams of a partition: the log of its changes, their data, and the rows of its last checkpoint.
#![tactic(auto)]

mod changes;
mod checkpoint;
mod checkpoint_laws;
mod data;
mod faults;
mod laws;
mod logging;
mod mark;
mod moving;
mod part;
mod position;
mod repair;
mod rewriting;
mod streams;
mod sweep_laws;
mod sweeping;

pub use checkpoint::{NewRows, Replaced};
pub use checkpoint_laws::{a_checkpoint_means_its_rows, a_checkpoint_means_what_it_meant};
pub use faults::{CompactionFault, TakeFault};
pub use laws::{
    a_body_that_is_cut_may_be_put, a_change_that_fails_is_not_counted,
    a_doubt_is_one_change_or_none, a_shared_log_means_the_same, a_walk_meets_all_changes_in_order,
    an_acknowledged_change_is_one_more, an_empty_log_means_no_container, another_container_is_left,
    each_record_is_its_change, reading_first_or_last_is_the_same, stored_content_stays,
};
pub use mark::Mark;
pub use part::Part;
pub use position::Position;
pub use repair::StreamName;
pub use streams::Streams;
pub use sweep_laws::{
    a_change_after_the_mark_is_one_more_since_it, what_is_given_up_means_the_same,
};
pub use sweeping::GivenUp;
