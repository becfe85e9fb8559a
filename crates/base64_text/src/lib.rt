//! Texts in Base64, read strictly.
#![tactic(auto)]

mod reading;

pub use reading::{
    append_base64, base64_of_16, base64_of_32, decoded_base64, is_base64_within, write_base64,
};
