//! Tests of the value types, of texts, and of who may do what, by their public calls.
#![tactic(auto)]

#[cfg(test)]
mod access_cases;
#[cfg(test)]
mod authorization_tests;
#[cfg(test)]
mod base64_tests;
#[cfg(test)]
mod book_tests;
#[cfg(test)]
mod books_tests;
#[cfg(test)]
mod change_tests;
#[cfg(test)]
mod examples;
#[cfg(test)]
mod field_tests;
#[cfg(test)]
mod judgement_tests;
#[cfg(test)]
mod key_tests;
#[cfg(test)]
mod level_tests;
#[cfg(test)]
mod line_tests;
#[cfg(test)]
mod name_tests;
#[cfg(test)]
mod policy_tests;
#[cfg(test)]
mod reply_tests;
#[cfg(test)]
mod request_tests;
#[cfg(test)]
mod resident;
#[cfg(test)]
mod rotation_tests;
#[cfg(test)]
mod rule_tests;
#[cfg(test)]
mod sample_changes;
mod sample_parts;
#[cfg(test)]
mod sample_values;
#[cfg(test)]
mod share_tests;
#[cfg(test)]
mod slow_rules;
#[cfg(test)]
mod span_tests;
#[cfg(test)]
mod string_tests;
#[cfg(test)]
mod time_tests;
#[cfg(test)]
mod token_tests;
#[cfg(test)]
mod value_tests;
#[cfg(test)]
mod vector_tests;
