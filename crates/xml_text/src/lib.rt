//! XML texts, read and written, whatever their elements mean.
#![tactic(auto)]

mod bytes;
mod escape;
mod front;
mod laws;
mod text_elements;
mod tokens;
mod trimming;
mod unescape;
mod written_elements;

pub use escape::append_escaped;
pub use front::{after_mark, after_prolog, is_clean_text};
pub use laws::{
    a_tag_is_read_as_the_grammar_says, a_text_is_read_as_the_grammar_says,
    a_written_element_is_read_as_its_text, an_element_of_a_text_is_read_as_the_grammar_says,
    what_is_escaped_is_read_back,
};
pub use text_elements::{content, is_tag};
pub use tokens::{Kind, Tag, Tokens};
pub use trimming::without_white_ends;
pub use unescape::value_of;
pub use written_elements::{
    append_closing, append_element, append_filled, append_opening, append_prolog,
};
