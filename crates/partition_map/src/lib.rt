//! Which span of keys each slot has.
#![tactic(auto)]

mod fault;
mod laws;
mod spans;

pub use fault::MapFault;
pub use laws::{
    a_join_undoes_a_split, a_key_is_inside_a_span_if_it_lies_after_its_first_key,
    a_span_is_split_if_no_cause_refuses_it, a_split_moves_later_slots_up,
    a_split_slot_is_found_by_its_halves, each_key_has_one_span, keys_up_to_the_bound_have_one_slot,
    the_halves_share_the_bounds_of_their_span,
};
pub use spans::{MOST_SLOTS, Spans};
