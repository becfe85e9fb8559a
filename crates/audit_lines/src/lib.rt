//! Entries of the audit book as lines of text, and the books of a server as they are written.
#![tactic(auto)]

mod books;
mod escaped;
mod line;
mod unwritten;
mod writing;
mod written;

pub use books::{Books, Posted, Unposted};
pub use line::append_line;
pub use writing::{append_from, write_books};
pub use written::append_line_at;
