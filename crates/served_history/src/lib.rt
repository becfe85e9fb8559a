//! One history of the requests to all slots, each of which has a lock of its own.
#![tactic(auto)]

mod entry;
mod front_laws;
mod history;
#[cfg(test)]
mod history_tests;
mod laws;
mod rotation_laws;
mod slot_history;

pub use entry::TimedCall;
pub use front_laws::{
    a_connection_is_a_pass_of_each_container, who_knows_a_withdrawal_gets_no_answer_by_it,
};
pub use history::{Account, LogFront, NewHistory, SlotWord};
pub use laws::{
    a_connection_reads_its_own_writes, a_slot_has_what_its_entry_leaves, a_slot_keeps_what_it_has,
    an_entered_request_is_served, each_connection_reads_one_history, two_connections_agree,
    what_is_known_is_a_history,
};
pub use rotation_laws::{
    a_rotation_replaces_one_key, who_knows_a_rotation_gets_no_answer_by_the_replaced_pair,
};
pub use slot_history::SlotHistory;
