//! Slots with a lock each, and a lock for their table: for many threads.
#![tactic(auto)]

mod care;
mod faults;
mod laws;
mod locked;
mod numbered;
mod posting;
mod rotating;
mod stamp;
mod table;
mod tending;

pub use care::Care;
pub use faults::{MoveFault, SplitError, TendFault};
pub use laws::{
    changes_of_two_passes_are_in_one_list, who_was_shown_a_withdrawal_gets_no_answer_by_it,
};
pub use stamp::Stamp;
