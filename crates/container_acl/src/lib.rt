//! What a container says about who may read it without a key.
#![tactic(auto)]

mod fields;
mod laws;
mod public_access;

pub use fields::{FieldFault, Fields, fields_with, find};
pub use laws::{a_policy_is_found_by_its_id, each_fault_has_its_cause, each_field_has_one_giver};
pub use public_access::permits;
