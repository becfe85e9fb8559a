//! Heads of requests: what each head asks for, or the first rule that refuses it.
#![tactic(auto)]

mod condition_laws;
mod denial;
mod head;
mod head_laws;
mod parse;
mod range_laws;
mod rules;
mod value_fault;

pub use condition_laws::a_condition_names_one_etag;
pub use denial::{Denial, HeadFault, no_head};
pub use head::{Head, read_head};
pub use head_laws::{
    a_head_is_read_in_one_way, each_head_is_accepted_or_refused,
    metadata_are_in_the_order_of_their_names,
};
pub use parse::head_parts::HEAD_LIMIT;
pub use range_laws::{a_head_asks_for_one_range, a_range_is_what_its_text_prints};
