//! Texts of times as moments, and moments as texts.
#![tactic(auto)]

mod civil;
mod digits;
mod fault;
mod http_date;
mod iso;
mod iso_writer;
mod laws;

pub use fault::TimeFault;
pub use http_date::{read_http, write_http};
pub use iso::read_iso;
pub use iso_writer::write_iso;
pub use laws::a_written_time_is_read_back;
