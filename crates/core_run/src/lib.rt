//! The machine: its steps, what they answer, and the laws of its runs.
#![tactic(auto)]

mod laws;
mod step;

pub use laws::{
    a_change_is_judged_by_the_pair_of_its_serve, a_change_that_is_kept_is_accepted,
    a_core_stands_for_its_state, a_doubt_ends_at_the_next_step_without_a_fault,
    a_doubt_ends_whole_before_its_slot_serves, a_doubt_has_ended_before_its_container_answers,
    a_doubt_waits_until_its_slot_settles, a_fault_is_told_only_if_a_call_failed,
    a_replaced_key_opens_nothing, a_run_keeps_its_states_sound, a_run_serves_requests_in_turn,
    a_serve_and_its_fetch_answer_as_the_model, a_split_that_is_made_is_one,
    a_step_adds_its_own_turn_alone, a_step_on_a_slot_is_a_settle_and_then_the_step,
    a_step_that_answers_no_epoch_leaves_the_pairs, a_step_that_fails_changes_nothing,
    a_ticket_gives_the_reply_of_its_serve, each_answer_has_its_place,
    keys_of_another_account_count_as_none, the_headline,
};
pub use step::{Outcome, Step, StepFault};
