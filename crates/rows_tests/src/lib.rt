//! Tests of bodies, of one blob, of rows and of pages, by their public calls.
#![tactic(auto)]

#[cfg(test)]
mod blob_row_tests;
#[cfg(test)]
mod block_list_tests;
#[cfg(test)]
mod block_tests;
#[cfg(test)]
mod change_tests;
#[cfg(test)]
mod examples;
#[cfg(test)]
mod list_reply_tests;
#[cfg(test)]
mod new_row_tests;
#[cfg(test)]
mod object_rule_tests;
#[cfg(test)]
mod operation_tests;
#[cfg(test)]
mod page_tests;
#[cfg(test)]
mod read_policy_tests;
#[cfg(test)]
mod sample_blobs;
mod sample_parts;
#[cfg(test)]
mod sample_requests;
#[cfg(test)]
mod written_list_tests;
#[cfg(test)]
mod written_page_tests;
#[cfg(test)]
mod written_policy_tests;
