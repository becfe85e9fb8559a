//! Tests of slots and of the core by their public calls.
#![tactic(auto)]

#[cfg(test)]
mod audit_tests;
#[cfg(test)]
mod core_audit_tests;
#[cfg(test)]
mod core_samples;
#[cfg(test)]
mod core_step_tests;
#[cfg(test)]
mod examples;
#[cfg(test)]
mod history_tests;
#[cfg(test)]
mod judgement_tests;
#[cfg(test)]
mod many_tests;
#[cfg(test)]
mod pair_tests;
#[cfg(test)]
mod pass_samples;
#[cfg(test)]
mod pass_tests;
#[cfg(test)]
mod requests;
#[cfg(test)]
mod rotation_tests;
#[cfg(test)]
mod routes;
mod sample_pairs;
#[cfg(test)]
mod samples;
#[cfg(test)]
mod service_tests;
#[cfg(test)]
mod split_tests;
#[cfg(test)]
mod stamp_book_tests;
#[cfg(test)]
mod stamp_rotation_tests;
#[cfg(test)]
mod stamp_samples;
#[cfg(test)]
mod stamp_tests;
#[cfg(test)]
mod stored_checkpoint_tests;
#[cfg(test)]
mod stored_list_tests;
#[cfg(test)]
mod stored_repair_tests;
#[cfg(test)]
mod stored_rotation_tests;
#[cfg(test)]
mod stored_samples;
#[cfg(test)]
mod stored_slot_tests;
#[cfg(test)]
mod stored_split_tests;
#[cfg(test)]
mod stored_step_tests;
#[cfg(test)]
mod stored_sweep_tests;
