//! Slots with a lock each, whose requests are the entries of one history.
#![tactic(auto)]

mod admission;
mod connection;
mod effort;
mod entering;
mod garbage;
mod laws;
mod locked;
mod next_pairs;
mod operator;
mod posting;
#[cfg(test)]
mod posting_tests;
mod replied;
mod reserve;
#[cfg(test)]
mod reserve_tests;
#[cfg(test)]
mod rotation_tests;
mod slots;
#[cfg(test)]
mod slots_tests;
mod splitting;
mod steadily;
#[cfg(test)]
mod sweep_tests;
mod table;
mod taking;
mod told;

pub use connection::{SlotsService, two_connections_agree};
pub use laws::{
    a_slot_has_what_its_requests_leave, both_halves_have_what_is_left, the_first_slot_has_all_keys,
};
pub use operator::Operator;
pub use reserve::Reserve;
pub use slots::Slots;
pub use splitting::SplitFault;
