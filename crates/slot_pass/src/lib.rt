//! Passes: what a caller was shown of a container. A later answer follows from it.
#![tactic(auto)]

mod after_fault;
mod comparing;
mod front;
mod growing;
mod laws;
mod meeting;
mod pass;
mod serving;

pub use after_fault::AfterFault;
pub use front::Front;
pub use laws::{
    changes_of_two_passes_are_in_one_list, who_was_shown_a_withdrawal_gets_no_answer_by_it,
};
pub use meeting::{MeetFault, Order, meet};
pub use pass::Pass;
pub use serving::{AfterCall, serve_after};
