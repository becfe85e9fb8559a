//! Slots whose containers are kept in streams.
#![tactic(auto)]

mod answering;
mod auditing;
mod changing;
mod cutting;
mod deciding;
mod keeping;
mod laws;
mod lent;
mod parts;
mod rotating;
mod serving;
mod settling;
mod steady;
mod stored_slot;
mod sweeping;
mod unknown_reply;

pub use auditing::Audited;
pub use laws::{
    a_doubt_of_a_slot_ends_whole, a_split_loses_nothing,
    after_unload_and_load_the_rows_are_the_replay,
};
pub use steady::Steady;
pub use stored_slot::{EXTENT_BYTES, StoredSlot};
pub use sweeping::{StepMade, SweepStep};
