//! Tests of heads, replies and connections by their public calls.
#![tactic(auto)]

#[cfg(test)]
mod block_tests;
#[cfg(test)]
mod condition_tests;
#[cfg(test)]
mod connection_tests;
#[cfg(test)]
mod examples;
#[cfg(test)]
mod head_tests;
#[cfg(test)]
mod link_tests;
#[cfg(test)]
mod page_tests;
#[cfg(test)]
mod range_tests;
#[cfg(test)]
mod reply_tests;
#[cfg(test)]
mod room_tests;
#[cfg(test)]
mod row_tests;
mod sample_parts;
#[cfg(test)]
mod test_heads;
#[cfg(test)]
mod value_tests;
#[cfg(test)]
mod waiting_tests;
#[cfg(test)]
mod worker_tests;
