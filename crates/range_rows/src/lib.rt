//! The rules of the object over rows, what allowed requests change, and how they are answered.
#![tactic(auto)]

mod acl_reply;
mod answer;
mod answer_laws;
mod answers;
mod block_list_reply;
mod block_rules;
mod body_rules;
mod change_laws;
mod conditions;
mod frames;
mod judged;
mod object_rules;
mod ranges;
mod reading;
mod replacements;
mod request_changes;
mod rows_rules;
mod target;

pub use answer::{FramedAnswer, Span};
pub use answer_laws::{
    spans_say_what_content_goes_out, the_length_is_the_number_of_bytes_that_go_out,
};
pub use change_laws::a_change_that_no_rule_refuses_fits;
pub use judged::{Allowed, ObjectVerdict};
pub use reading::Reading;
pub use replacements::Replacements;
pub use rows_rules::ObjectRules;
pub use target::Target;
